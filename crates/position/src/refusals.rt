// The refusals of a position, the lowest that applies.
ghost use Rattle.std.specs.Prelude.{◌≡◌, cond, false};
ghost use Rattle.desk_refusals.specs.Numbers.{refused};
ghost use Rattle.position.specs.Refusals.{bad_men, bad_side, bad_square, bad_pawn, shared_square, slot_foreign, slot_off, slot_astray, slot_on, slots_share, slot_misplaced, kings_touch, later_refusal, placing_refusal, or_in_check, standing_refusal, bad_men_of, placing_with, standing_with};

use super::attack::men_check;
use super::{Position, other};
use board::{has, targets};
use desk_refusals::Refusal;
use rules::Piece;

// Whether the men are none that have a table.
fn bad_men(first: Option<Piece>, second: Option<Piece>) -> bool
    ensures { result ≡ bad_men first second }
{
    match first {
        None => true,
        Some(m) => match second {
            None => 4 <= m.kind,
            Some(_) => true,
        },
    }
}

// The same, where two men may have one, and a lone pawn.
fn bad_men_of(first: Option<Piece>, second: Option<Piece>) -> bool
    ensures { result ≡ bad_men_of first second }
{
    match first {
        None => true,
        Some(m) => match second {
            None => 5 <= m.kind,
            Some(n) => (4 <= m.kind) | (4 <= n.kind),
        },
    }
}

// Whether a man is of neither side.
// Each test of a slot by itself: one over a closure is no plainer.
fn is_foreign(slot: Option<Piece>) -> bool
    ensures { result ≡ slot_foreign slot }
{
    match slot {
        None => false,
        Some(m) => 2 <= m.colour,
    }
}

// Whether the side to move or a man's is neither.
fn bad_side(p: Position) -> bool
    ensures { result ≡ bad_side p }
{
    let first = p.first;
    let second = p.second;
    (2 <= p.side) | (is_foreign(first) | is_foreign(second))
}

// Whether a man stands off the board.
fn is_off(slot: Option<Piece>) -> bool
    ensures { result ≡ slot_off slot }
{
    match slot {
        None => false,
        Some(m) => 64 <= m.square,
    }
}

// Whether a king or a man does.
fn bad_square(p: Position) -> bool
    ensures { result ≡ bad_square p }
{
    let first = p.first;
    let second = p.second;
    (64 <= p.white_king) | ((64 <= p.black_king) | (is_off(first) | is_off(second)))
}

// Whether a man is a pawn on rank 1 or 8.
fn is_astray(slot: Option<Piece>) -> bool
    ensures { result ≡ slot_astray slot }
{
    match slot {
        None => false,
        Some(m) => (m.kind == 4) & ((m.square < 8) | (56 <= m.square)),
    }
}

// Whether one of the men is.
fn bad_pawn(p: Position) -> bool
    ensures { result ≡ bad_pawn p }
{
    let first = p.first;
    let second = p.second;
    is_astray(first) | is_astray(second)
}

// Whether a man stands on a square.
fn is_on(square: u8, slot: Option<Piece>) -> bool
    ensures { result ≡ slot_on square slot }
{
    match slot {
        None => false,
        Some(m) => square == m.square,
    }
}

// Whether two men stand on one square.
fn men_share(first: Option<Piece>, second: Option<Piece>) -> bool
    ensures { result ≡ slots_share first second }
{
    match first {
        None => false,
        Some(m) => is_on(m.square, second),
    }
}

// Whether two pieces do.
fn shared_square(p: Position) -> bool
    ensures { result ≡ shared_square p }
{
    let white = p.white_king;
    let black = p.black_king;
    let first = p.first;
    let second = p.second;
    (white == black)
        | ((is_on(white, first) | is_on(white, second))
            | ((is_on(black, first) | is_on(black, second)) | men_share(first, second)))
}

// Whether a man is of neither side, off the board, a pawn on rank 1 or 8, or on a king's square.
fn is_misplaced(white: u8, black: u8, slot: Option<Piece>) -> bool
    ensures { result ≡ slot_misplaced white black slot }
{
    match slot {
        None => false,
        Some(m) => (2 <= m.colour)
            | ((64 <= m.square)
                | (((m.kind == 4) & ((m.square < 8) | (56 <= m.square)))
                    | ((white == m.square) | (black == m.square)))),
    }
}

// Whether one of refusals 2 to 5 and 18 applies: one quick test of all, where most positions meet none.
fn is_refused(p: Position) -> bool
    ensures { result ≡ false → later_refusal p ≡ 0 }
{
    let white = p.white_king;
    let black = p.black_king;
    let first = p.first;
    let second = p.second;
    if (2 <= p.side) | ((64 <= white) | ((64 <= black) | (white == black))) {
        return true;
    }
    if is_misplaced(white, black, first) {
        return true;
    }
    if is_misplaced(white, black, second) {
        return true;
    }
    if men_share(first, second) {
        return true;
    }
    has(targets(0, 5, white), black)
}

// Refusals 2 to 5 and 18, the first that applies.
fn later_refusal(p: Position) -> Result<(), Refusal>
    ensures { refused result ≡ later_refusal p }
{
    if bad_side(p) {
        return Err(Refusal::BadSide);
    }
    if bad_square(p) {
        return Err(Refusal::BadSquare);
    }
    if bad_pawn(p) {
        return Err(Refusal::BadPawn);
    }
    if shared_square(p) {
        return Err(Refusal::SharedSquare);
    }
    if has(targets(0, 5, p.white_king), p.black_king) {
        return Err(Refusal::KingsTouch);
    }
    Ok(())
}

// Refusal 1 where the men are bad, or else 2 to 5 and 18, the first that applies.
fn refusal_of(p: Position, is_bad: bool) -> Result<(), Refusal>
    ensures { refused result ≡ cond is_bad 1 (later_refusal p) }
{
    if is_bad {
        return Err(Refusal::BadMan);
    }
    if !is_refused(p) {
        return Ok(());
    }
    later_refusal(p)
}

// Refusals 1 to 5, the lowest that applies. Two men are refused, and a pawn.
pub fn placing_refusal(p: Position) -> Result<(), Refusal>
    ensures { refused result ≡ placing_refusal p }
{
    let first = p.first;
    let second = p.second;
    refusal_of(p, bad_men(first, second))
}

// The same for one man and for two, and for a lone pawn, with 18 after 3.
pub fn placing_with(p: Position) -> Result<(), Refusal>
    ensures { refused result ≡ placing_with p }
{
    let first = p.first;
    let second = p.second;
    refusal_of(p, bad_men_of(first, second))
}

// Such a refusal, or else 6 where it applies: once the kings do not touch, men alone give check.
fn or_in_check(p: Position, placed: Result<(), Refusal>) -> Result<(), Refusal>
    ensures { (refused placed ≡ 0 → kings_touch p ≡ false) → refused result ≡ or_in_check p (refused placed) }
{
    placed?;
    if men_check(p, other(p.side)) {
        return Err(Refusal::OtherInCheck);
    }
    Ok(())
}

// Refusals 1 to 6, the lowest that applies. Two men are refused, and a pawn.
pub fn standing_refusal(p: Position) -> Result<(), Refusal>
    ensures { refused result ≡ standing_refusal p }
{
    or_in_check(p, placing_refusal(p))
}

// The same for one man and for two, and for a lone pawn, with 18 after 3.
pub fn standing_with(p: Position) -> Result<(), Refusal>
    ensures { refused result ≡ standing_with p }
{
    or_in_check(p, placing_with(p))
}
