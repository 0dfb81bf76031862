// The word of each answer (include/sledgewren.h).
#![tactic(auto)]

mod played;
mod version;

ghost use Rattle.std.specs.Prelude.{◌≡◌, ◌+◌, ◌*◌, ◌^◌, ◌≤◌, ◌<◌};
ghost use Rattle.words.specs.Words.{number_word, placed_word, count_word, filled_word, checked_word, advice_word, answer_word, marked_word};
ghost use Rattle.desk_refusals.specs.Numbers.{numbered};
ghost use Rattle.fifty.specs.Marks.{marked_by};

use answers::{Answer, Checked};
use desk_refusals::Numbered;
use fifty::Marked;
pub use played::played_word;
use position::{Position, man_in};
use rules::Move;
pub use version::version_word;

pub fn number_word<R: Numbered>(n: Result<u32, R>) -> u32
    ensures { result ≡ number_word (numbered R.shown_number n) }
{
    match n {
        Ok(k) => k,
        Err(r) => 0x8000_0000 + r.shown() as u32,
    }
}

// Each answer has its word, by two or three arms: over another type, no shared form is plainer.
pub fn placed_word<R: Numbered>(p: Result<Position, R>) -> u64
    ensures { result ≡ placed_word (numbered R.shown_number p) }
{
    match p {
        Ok(at) => position_word(at),
        Err(r) => r.shown() as u64,
    }
}

fn position_word(p: Position) -> u64
    ensures { result ≡ placed_word (Ok p) }
{
    let one = p.first;
    let two = p.second;
    let first = man_in(one);
    let second = man_in(two);
    u64::from_le_bytes([
        0,
        p.side,
        p.white_king,
        first.square,
        p.black_king,
        second.square,
        0,
        0,
    ])
}

pub fn count_word<R: Numbered>(n: Result<u8, R>) -> u32
    ensures { result ≡ count_word (numbered R.shown_number n) }
{
    match n {
        Ok(k) => k as u32 * 0x100,
        Err(r) => r.shown() as u32,
    }
}

pub fn filled_word<R: Numbered>(f: Result<Option<u8>, R>) -> u32
    ensures { result ≡ filled_word (numbered R.shown_number f) }
{
    match f {
        Ok(Some(n)) => 0x100 + n as u32 * 0x1_0000,
        Ok(None) => 0,
        Err(r) => r.shown() as u32,
    }
}

pub fn checked_word<R: Numbered>(c: Result<Checked, R>) -> u64
    ensures { result ≡ checked_word (numbered R.shown_number c) }
{
    match c {
        Ok(Checked::Accepted) => 0,
        Ok(Checked::Wrong(n)) => 0x100 + n as u64 * 0x1_0000_0000,
        Err(r) => r.shown() as u64,
    }
}

fn move_word(m: Move) -> u64
    ensures { (result ≡ advice_word (Some m)) × (result < 255 * 2 ^ 56 + 2 ^ 49) }
{
    u64::from_le_bytes([0, 0, 0, 1, m.from, m.to, u8::from(m.takes), m.becomes])
}

fn advice_word(a: Option<Move>) -> u64
    ensures { (result ≡ advice_word a) × (result < 255 * 2 ^ 56 + 2 ^ 49) }
{
    match a {
        Some(m) => move_word(m),
        None => 0,
    }
}

// A value, a depth and a move.
fn value_word(value: u8, depth: u8, a: Option<Move>) -> u64
    requires { value ≤ 3 }
    ensures { (result ≡ value * 2 ^ 8 + depth * 2 ^ 16 + advice_word a) × (result < 255 * 2 ^ 56 + 2 ^ 50) }
{
    u64::from(value) * 0x100 + u64::from(depth) * 0x1_0000 + advice_word(a)
}

fn answer_word<R: Numbered>(a: Result<Answer, R>) -> u64
    ensures { (result ≡ answer_word (numbered R.shown_number a)) × (result < 255 * 2 ^ 56 + 2 ^ 50) }
{
    match a {
        Ok(Answer::Win(n, advice)) => value_word(1, n, advice),
        Ok(Answer::Loss(n, advice)) => value_word(2, n, advice),
        Ok(Answer::Draw(advice)) => value_word(3, 0, advice),
        Err(r) => r.shown() as u64,
    }
}

pub fn marked_word<R: Numbered>(m: Marked<R>) -> u64
    ensures { result ≡ marked_word (marked_by R.shown_number m) }
{
    let answer = m.answer;
    answer_word(answer) + u64::from(m.within_fifty) * 0x200_0000
}
