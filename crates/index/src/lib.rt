// The number of a position, and the position of a number.
#![tactic(auto)]

use desk_refusals::Refusal;
use numbering::Material;
use pairs::PAIR_COUNT;
use position::{Map, Men, Place, Position};

mod answers;
mod arranging;
mod framing;
mod keys;
mod least;
mod materials;
mod moving;
mod pawns;
mod place;

ghost use Rattle.std.specs.Prelude.{◌≡◌, ◌++◌, ◌+◌, ◌*◌, ◌^◌, ◌≤◌, ◌<◌};
ghost use Rattle.numbering.specs.Keys.{key_from};
ghost use Rattle.position.specs.Keyed.{slot_men};
ghost use Rattle.index.specs.Answers.{number_answer, placed_at};
ghost use Rattle.desk_refusals.specs.Numbers.{by_number};

pub use answers::{number_with, placed_number, position_with};
pub use arranging::{arrange, normal_place};
pub use framing::exchange_of;
pub use keys::number_keyed;
pub use least::{alike, flip_of, number_alone, number_at, packed};
pub use materials::{is_given, is_known, men_of, size_of};
pub use moving::{still_black, still_king, still_number};
pub use pawns::{pawn_men, pawn_normal_place, pawn_place};
pub use place::{is_used, place_at, shares};
use rules::Piece;

// How many numbers one side to move has, and how many there are: a table's bytes.
pub const HALF: usize = PAIR_COUNT as usize * 64;

pub const TABLE_SIZE: usize = 2 * HALF;

// The men of a position in standard order and colours, and where they then stand.
#[derive(Clone, Copy)]
pub struct Arranged {
    pub men: Men,
    pub place: Place,
}

// What all pieces but one, who stand still, fix of the number: for each of its squares.
#[derive(Clone, Copy)]
pub struct Still {
    // There is no second man; both are alike.
    pub single: bool,
    pub like: bool,
    // A row of its squares, each of which forms a pair with the other king: the numbers go from `base` on, `unit` from pair to pair. Or none: `base` is the
    // key with the piece on a1, to which each step of one square adds `unit`.
    pub row: u64,
    pub base: u32,
    pub unit: u32,
}

// The men, the normal place of a position's class, and the map that leads to it.
#[derive(Clone, Copy)]
pub struct NormalPlace {
    pub men: Men,
    pub place: Place,
    pub via: Map,
}

// A key with the digit of one man more.
fn with_man(key: u32, slot: Option<Piece>) -> u32
    requires { key < 2 ^ 24 }
    ensures { (result ≡ key_from key (slot_men slot)) × (result ≤ key * 64 + 255) }
{
    match slot {
        None => key,
        Some(m) => key * 64 + m.square as u32,
    }
}

// The key of a position with the pair of its kings.
pub fn key_of(p: Position, pair: u16) -> u32
    ensures { result ≡ key_from (p.side * 462 + pair) (slot_men p.first ++ slot_men p.second) }
{
    let first = p.first;
    let second = p.second;
    with_man(
        with_man(p.side as u32 * PAIR_COUNT + pair as u32, first),
        second,
    )
}

// The number of a position with one man; two are refused.
pub fn number(p: Position) -> Result<u32, Refusal>
    ensures { by_number result ≡ number_answer p }
{
    position::placing_refusal(p)?;
    Ok(placed_number(p))
}

// The position of a number of the ending with one man.
pub fn position_of(kind: u8, n: u32) -> Result<Position, Refusal>
    ensures { by_number result ≡ placed_at kind n }
{
    position_with(Material::One(kind), n)
}
