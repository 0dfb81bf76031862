// Looking a position up with the plies since the last capture: whether a win or a loss comes before a fifty-move claim
// (02, P13).
#![tactic(auto)]

ghost use Rattle.std.specs.Prelude.{◌≡◌, ◌+◌, leb};
ghost use Rattle.four_men.specs.Lending.{lent};
ghost use Rattle.fifty.specs.Marks.{marked_as, marks, is_refused, at_count, pawnless, slot_free, marked_for};
ghost use Rattle.fifty.specs.Marks.{look_up_at, look_up_at_with};
ghost use Rattle.desk_refusals.specs.Numbers.{by_number};

use answers::Answer;
use desk_refusals::Refusal;
use look_up::{look_up, look_up_with};
use position::Position;
use rules::Piece;

// Look-up's answer at a count, and whether it is marked "within fifty".
#[derive(Clone, Copy)]
pub struct Marked<R = Refusal> {
    pub answer: Result<Answer, R>,
    pub within_fifty: bool,
}

fn adds_to_100(plies: u32, depth: u8) -> bool
    ensures { result ≡ leb (plies + depth) 100 }
{
    plies as u64 + depth as u64 <= 100
}

// A win or a loss is marked where the count and the depth make at most 100; a draw never is.
fn is_marked(plies: u32, a: Result<Answer, Refusal>) -> bool
    ensures { result ≡ marks plies (by_number a) }
{
    match a {
        Ok(Answer::Win(n, _)) => adds_to_100(plies, n),
        Ok(Answer::Loss(n, _)) => adds_to_100(plies, n),
        Ok(Answer::Draw(_)) => false,
        Err(_) => false,
    }
}

fn is_refused(a: Result<Answer, Refusal>) -> bool
    ensures { result ≡ is_refused (by_number a) }
{
    match a {
        Err(_) => true,
        Ok(Answer::Win(_, _)) => false,
        Ok(Answer::Loss(_, _)) => false,
        Ok(Answer::Draw(_)) => false,
    }
}

// Refusal 19 is asked after every other one.
fn at_count(plies: u32, a: Result<Answer, Refusal>) -> Result<Answer, Refusal>
    ensures { by_number result ≡ at_count plies (by_number a) }
{
    if is_refused(a) {
        return a;
    }
    if plies > 99 {
        return Err(Refusal::TooManyQuiet);
    }
    a
}

// Whether the man in a slot, if there is one, is no pawn.
fn is_free(slot: Option<Piece>) -> bool
    ensures { result ≡ slot_free slot }
{
    match slot {
        None => true,
        Some(m) => m.kind != 4,
    }
}

// Whether no man is a pawn.
fn is_pawnless(p: Position) -> bool
    ensures { result ≡ pawnless p }
{
    let first = p.first;
    let second = p.second;
    is_free(first) & is_free(second)
}

// What look-up found, at a count, with its mark; with a pawn there is none.
fn marked_at(free: bool, plies: u32, found: Result<Answer, Refusal>) -> Marked
    ensures { marked_as result ≡ marked_for free plies (at_count plies (by_number found)) }
{
    let answer = at_count(plies, found);
    Marked {
        answer,
        within_fifty: free & is_marked(plies, answer),
    }
}

// The answer and its mark, by the table of the position's own ending and the lent ones; or a refusal, 1 to 7, 11, 18 or
// 19.
pub fn look_up_at_with(p: Position, plies: u32, table: &[u8], first: &[u8], second: &[u8]) -> Marked
    ensures { marked_as result ≡ look_up_at_with (lent first.now second.now) table.now plies p }
{
    marked_at(is_pawnless(p), plies, look_up_with(p, table, first, second))
}

// The same for the parts that keep to three men: two men are refused 1, and so is a pawn.
pub fn look_up_at(table: &[u8], p: Position, plies: u32) -> Marked
    ensures { marked_as result ≡ look_up_at table.now plies p }
{
    marked_at(true, plies, look_up(table, p))
}
