// Moves written to lent bytes as they are found, with no list between.
#![tactic(auto)]

ghost use Rattle.std.specs.Prelude.{◌≡◌, ◌+◌, ◌*◌, ◌≤◌, ◌<◌, length};
ghost use mathlib.Core.List.{[], ◌∷◌, map, flat_map};
ghost use Rattle.std.proofs.lemmas.List.Edits.{sets};
ghost use Rattle.board.specs.Sets.{members};
ghost use Rattle.rules.specs.Rules.{promotion_of, all_moves};
ghost use Rattle.position.specs.Keyed.{board_of};
ghost use Rattle.position_moves.specs.InPosition.{MoversOf};
ghost use Rattle.move_list.specs.Lists.{room};
ghost use Rattle.move_list.specs.ListLaws.{targets_moves};
ghost use Rattle.move_bytes.specs.MoveBytes.{flag_of, move_bytes, list_size};
ghost use Rattle.move_bytes.specs.Stored.{Stored};

use board::{has, squares_of};
use move_list::promoting_set;
use position::Position;
use position_moves::{Movers, taking_set, targets_from};

// Whether a move takes: 1 for yes, 0 for no.
pub fn flag(takes: bool) -> u8
    ensures { (result ≡ flag_of takes) × (result < 2) }
{
    u8::from(takes)
}

// A move's from-square, to-square, whether it takes, and what a pawn becomes, at its place.
fn write_move(from: u8, to: u8, takes: bool, becomes: u8, at: usize, bytes: &mut [u8])
    requires { (length bytes.old ≡ list_size) × (at < room) }
    ensures { bytes.new ≡ sets bytes.old (4 * at) (move_bytes (promotion_of from to takes becomes)) }
{
    bytes[4 * at] = from;
    bytes[4 * at + 1] = to;
    bytes[4 * at + 2] = flag(takes);
    bytes[4 * at + 3] = becomes;
}

// A pawn's four promotions: queen, rook, bishop, knight.
fn write_promotions(from: u8, to: u8, takes: bool, at: usize, bytes: &mut [u8])
    requires { (length bytes.old ≡ list_size) × (at + 4 ≤ room) }
    ensures { bytes.new ≡ sets bytes.old (4 * at) (flat_map move_bytes (map (promotion_of from to takes) (1 ∷ 2 ∷ 3 ∷ 4 ∷ []))) }
{
    write_move(from, to, takes, 1, at, &mut *bytes);
    write_move(from, to, takes, 2, at + 1, &mut *bytes);
    write_move(from, to, takes, 3, at + 2, &mut *bytes);
    write_move(from, to, takes, 4, at + 3, &mut *bytes);
}

// The moves from a square to each of the targets, in rising order: those to a square of `foes` take, and those to one of
// `ends` are promotions. Gives the place after them.
fn write_targets(
    foes: u64,
    ends: u64,
    from: u8,
    targets: u64,
    first: usize,
    bytes: &mut [u8],
) -> usize
    requires { (length bytes.old ≡ list_size) × (first + length (targets_moves foes ends from (members targets)) ≤ room) }
    ensures { Stored (targets_moves foes ends from (members targets)) first bytes.old result bytes.new }
{
    let mut at = first;
    for to in squares_of(targets) {
        let takes = has(foes, to);
        if has(ends, to) {
            write_promotions(from, to, takes, at, &mut *bytes);
            at += 4;
            continue;
        }
        write_move(from, to, takes, 0, at, &mut *bytes);
        at += 1;
    }
    at
}

// All moves of a position, by from-square and then by target. Gives their count.
pub fn write_moves(p: Position, all: Movers, bytes: &mut [u8]) -> usize
    requires { (length bytes.old ≡ list_size) × MoversOf p all }
    ensures { Stored (all_moves (board_of p)) 0 bytes.old result bytes.new }
{
    let foes = taking_set(p);
    let mut count: usize = 0;
    for from in squares_of(all.own) {
        let ends = promoting_set(p, from);
        let targets = targets_from(p, all, from);
        count = write_targets(foes, ends, from, targets, count, &mut *bytes);
    }
    count
}
