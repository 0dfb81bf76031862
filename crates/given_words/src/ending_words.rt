// An ending as one word, and the ending of two men.
ghost use Rattle.std.specs.Prelude.{◌≡◌, [], ◌∷◌, ◌++◌};
ghost use Rattle.numbering.specs.Material.{one_of, material_in};
ghost use Rattle.position.specs.Keyed.{slot_men};
ghost use Rattle.given_words.specs.Endings.{material_word, material_read, ending_of, table_bytes};

use super::men::man_read;
use index::{is_given, size_of};
use numbering::Material;
use rules::Piece;

// Of no ending: the kind of no man, and the word.
const NO_KIND: u8 = 255;

const NO_ENDING: u32 = 0xFFFF_FFFF;

// The ending of one man of this kind.
fn one_of(kind: u8) -> Material
    ensures { result ≡ one_of kind }
{
    if kind == 4 {
        return Material::Pawn;
    }
    Material::One(kind)
}

pub fn material_read(word: u32) -> Material
    ensures { result ≡ material_read word }
{
    let [first, second, rivals, rest] = word.to_le_bytes();
    if (second == 0) & (rivals == 0) & (rest == 0) {
        return one_of(first);
    }
    if (second == 0) | (rivals > 1) | (rest != 0) {
        return Material::One(NO_KIND);
    }
    Material::Two(first, second - 1, rivals == 1)
}

fn material_word(m: Material) -> u32
    ensures { result ≡ material_word m }
{
    match m {
        Material::One(kind) => u32::from(kind),
        Material::Two(first, second, rivals) => {
            u32::from(first) + (u32::from(second) + 1) * 0x100 + u32::from(rivals) * 0x1_0000
        },
        Material::Pawn => 4,
    }
}

// Two men: the kind earlier in queen, rook, bishop, knight is the first.
fn pair(a: Piece, c: Piece) -> Material
    ensures { result ≡ material_in (a ∷ c ∷ []) }
{
    let rivals = a.colour != c.colour;
    if a.kind <= c.kind {
        return Material::Two(a.kind, c.kind, rivals);
    }
    Material::Two(c.kind, a.kind, rivals)
}

fn joined(a: Piece, slot: Option<Piece>) -> Material
    ensures { result ≡ material_in (a ∷ slot_men slot) }
{
    match slot {
        None => one_of(a.kind),
        Some(c) => pair(a, c),
    }
}

fn alone(slot: Option<Piece>) -> Material
    ensures { result ≡ material_in (slot_men slot) }
{
    match slot {
        None => Material::One(4),
        Some(a) => one_of(a.kind),
    }
}

fn material_in(first: Option<Piece>, second: Option<Piece>) -> Material
    ensures { result ≡ material_in (slot_men first ++ slot_men second) }
{
    match first {
        None => alone(second),
        Some(a) => joined(a, second),
    }
}

// The ending of two men's words, in either order and of either colour.
pub fn ending_of(first: u32, second: u32) -> u32
    ensures { result ≡ ending_of first second }
{
    let m = material_in(man_read(first), man_read(second));
    if !is_given(m) {
        return NO_ENDING;
    }
    material_word(m)
}

// How long an ending's table is; 0 where there is no such ending.
pub fn table_bytes(m: Material) -> u32
    ensures { result ≡ table_bytes m }
{
    if !is_given(m) {
        return 0;
    }
    size_of(m)
}
