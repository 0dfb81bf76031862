// The output slip of an answer: the bytes of its line, with the newline.
#![tactic(auto)]

mod writing;

ghost use Rattle.std.specs.Prelude.{◌≡◌, [], Ok};
ghost use Rattle.slips.specs.Slip.{word_and_number, mark_text, advice_text, side_letter, gapped, padded, slip_of, placed_slip, refused_slip};
ghost use Rattle.slips.specs.Appending.{appended};
ghost use Rattle.desk_refusals.specs.Numbers.{numbered};

use answers::Answer;
use desk_refusals::Numbered;
use position::{Position, man_in};
use rules::Move;
use writing::{blank, with_byte, with_number, with_square, with_text};

// The line is the first `len` bytes; the rest are zero.
// An array beside its count: no heap.
#[derive(Clone, Copy)]
pub struct Slip {
    pub bytes: [u8; 16],
    pub len: u8,
}

// The slip of a value and its move.
fn value_slip(a: Answer) -> Slip
    ensures { result ≡ padded (slip_of (Ok a)) }
{
    match a {
        Answer::Win(n, advice) => with_byte(with_advice(number_slip(b"win ", n), advice), b'\n'),
        Answer::Loss(n, advice) => with_byte(with_advice(number_slip(b"loss ", n), advice), b'\n'),
        Answer::Draw(advice) => with_byte(with_advice(with_text(blank(), b"draw"), advice), b'\n'),
    }
}

// The slip of look-up's answer.
pub fn answer_slip<R: Numbered>(a: Result<Answer, R>) -> Slip
    ensures { result ≡ padded (slip_of (numbered R.shown_number a)) }
{
    match a {
        Ok(value) => value_slip(value),
        Err(r) => refused_slip(r.shown()),
    }
}

// The slip of numbering back's answer.
// The same two arms as above, over another value.
pub fn placed_slip<R: Numbered>(p: Result<Position, R>) -> Slip
    ensures { result ≡ padded (placed_slip (numbered R.shown_number p)) }
{
    match p {
        Ok(at) => position_slip(at),
        Err(k) => refused_slip(k.shown()),
    }
}

// The slip of a number's position.
fn position_slip(p: Position) -> Slip
    ensures { result ≡ padded (placed_slip (Ok p)) }
{
    let side = with_byte(blank(), side_letter(p.side));
    let first = p.first;
    let white = with_gap(side, p.white_king);
    let man = with_gap(white, man_in(first).square);
    let black = with_gap(man, p.black_king);
    with_byte(black, b'\n')
}

// The slip of a refusal.
fn refused_slip(n: u8) -> Slip
    ensures { result ≡ padded (refused_slip n) }
{
    with_byte(number_slip(b"refused ", n), b'\n')
}

// A word and a number.
fn number_slip(word: &[u8], n: u8) -> Slip
    ensures { result ≡ appended (padded []) (word_and_number word.now n) }
{
    with_number(with_text(blank(), word), n)
}

// A space and the move, or nothing.
fn with_advice(s: Slip, a: Option<Move>) -> Slip
    ensures { result ≡ appended s (advice_text a) }
{
    match a {
        Some(m) => with_square(with_mark(with_gap(s, m.from), m.takes), m.to),
        None => s,
    }
}

// An `x` where a move takes.
#[tactic(auto, unfolding(crate::specs::Slip::mark_text, crate::specs::Appending::appended))]
fn with_mark(s: Slip, takes: bool) -> Slip
    ensures { result ≡ appended s (mark_text takes) }
{
    if takes { with_byte(s, b'x') } else { s }
}

// A space and a square.
#[tactic(auto, unfolding(crate::specs::Slip::gapped, crate::specs::Appending::appended))]
fn with_gap(s: Slip, square: u8) -> Slip
    ensures { result ≡ appended s (gapped square) }
{
    with_square(with_byte(s, b' '), square)
}

// White is 0, and any other side Black.
#[tactic(auto, unfolding(crate::specs::Slip::side_letter))]
fn side_letter(side: u8) -> u8
    ensures { result ≡ side_letter side }
{
    if side == 0 { b'w' } else { b'b' }
}
