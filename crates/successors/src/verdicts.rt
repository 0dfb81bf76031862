// Whether a byte, or a depth, is the one required.
ghost use Rattle.std.specs.Prelude.{◌≡◌, cond, ◌+◌, eqb};
ghost use Rattle.theory.specs.Required.{required_at};
ghost use Rattle.rules.specs.Rules.{in_check};
ghost use Rattle.rules.specs.Chess.{chess};
ghost use Rattle.position.specs.Posed.{board_in, Complete};
ghost use Rattle.successors.specs.Successors.{bytes_in, verdict_of, end_verdict, Weighs};

use super::choosing::{is_taking, weighed_by};
use super::judging::judge;
use super::lone::weigh_lone;
use super::{Verdict, Weighed};
use movegen::{checked, king_targets, reach_of};
use position::{Men, Place};
use rules::move_of;

// A byte weighed against all successors of the position.
fn weigh(m: Men, q: Place, byte: u16, table: &[u8], first: &[u8], second: &[u8]) -> Weighed
    ensures { Complete m q → Weighs m q (bytes_in m first.now second.now table.now) byte result }
{
    let reach = reach_of(m, q);
    weighed_by(q, reach, judge(m, q, reach, byte, table, first, second))
}

// The byte of a position without a move: 2 in check, which is mate, and 1 otherwise, which is stalemate.
fn end_byte(m: Men, q: Place) -> u8
    ensures { Complete m q → result ≡ cond (in_check (board_in m q) q.side) 2 1 }
{
    if checked(m, q, q.side) { 2 } else { 1 }
}

// The verdict where no move is left.
fn verdict_over(m: Men, q: Place, byte: u8) -> Verdict
    ensures { Complete m q → result ≡ end_verdict byte (board_in m q) }
{
    if byte == end_byte(m, q) {
        return Verdict::Right(None);
    }
    Verdict::Wrong
}

// The same, one man by a way of his own.
fn weigh_one_or_two(
    m: Men,
    q: Place,
    byte: u16,
    table: &[u8],
    first: &[u8],
    second: &[u8],
) -> Weighed
    ensures { Complete m q → Weighs m q (bytes_in m first.now second.now table.now) byte result }
{
    if 4 <= m.second {
        return weigh_lone(m, q, byte, table, first, second);
    }
    weigh(m, q, byte, table, first, second)
}

// The verdict on a byte of the position, by its successors' bytes.
pub fn verdict_on(m: Men, q: Place, byte: u8, table: &[u8], first: &[u8], second: &[u8]) -> Verdict
    ensures { Complete m q → result ≡ verdict_of (bytes_in m first.now second.now table.now) byte (board_in m q) }
{
    if byte == 0 {
        return Verdict::Wrong;
    }
    let weighed = weigh_one_or_two(m, q, byte as u16, table, first, second);
    match weighed {
        Weighed::Refuted => Verdict::Wrong,
        Weighed::Unmet => Verdict::Wrong,
        Weighed::Stuck => verdict_over(m, q, byte),
        Weighed::Met(seen) => {
            let takes = is_taking(m, q, seen.to);
            Verdict::Right(Some(move_of(seen.from, seen.to, takes)))
        },
    }
}

// Whether the byte is the one required, with no move sought.
pub fn requires_byte(m: Men, q: Place, byte: u16, table: &[u8], first: &[u8], second: &[u8]) -> bool
    ensures { Complete m q → result ≡ eqb byte (required_at chess (bytes_in m first.now second.now table.now) (board_in m q)) }
{
    if byte == 0 {
        return false;
    }
    let weighed = weigh(m, q, byte, table, first, second);
    match weighed {
        Weighed::Refuted => false,
        Weighed::Unmet => false,
        Weighed::Stuck => byte == end_byte(m, q) as u16,
        Weighed::Met(_) => true,
    }
}

// Whether the rule requires depth k of the position: mate only in check, and not where the king may move, as most that are in check may.
pub fn requires_depth(m: Men, q: Place, k: u8, table: &[u8], first: &[u8], second: &[u8]) -> bool
    ensures { Complete m q → result ≡ eqb (required_at chess (bytes_in m first.now second.now table.now) (board_in m q)) (2 + k) }
{
    if k == 0 {
        if !checked(m, q, q.side) {
            return false;
        }
        if king_targets(m, q) != 0 {
            return false;
        }
    }
    requires_byte(m, q, 2 + k as u16, table, first, second)
}
