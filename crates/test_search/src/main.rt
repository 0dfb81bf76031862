// Answers lines of six numbers (man, side, white king, man's square, black king, man's colour) with the second opinion within 0 to 7 plies, as the second
// program does.
#![tactic(auto)]

use desk_refusals::Refusal;
use position::{Position, man_in, one_man};
use search::{Opinion, second_opinion};
use std::io;
use std::io::Read;

// How much of the input is read.
const INPUT_ROOM: u64 = 65536;

// The numbers of a line so far, and which of them comes next. Each of the programs that read numbers has its own: they
// would share it only through a crate of its own.
#[derive(Clone, Copy)]
struct Line {
    numbers: [u8; 6],
    at: usize,
}

impl Line {
    fn new() -> Line {
        Line {
            numbers: [0; 6],
            at: 0,
        }
    }

    // One byte more: a blank behind a number, or a decimal digit of it, as whose last four bits any other byte counts.
    fn push(&mut self, b: u8) {
        self.at %= 6;
        if b == b' ' {
            self.at += 1;
            return;
        }
        let number = &mut self.numbers[self.at];
        *number = number.wrapping_mul(10).wrapping_add(b % 16);
    }
}

fn show_opinion(rt: &impl Print, o: Result<Opinion, Refusal>, k: u8) -> io::Result<()> {
    match o {
        Ok(Opinion::Win(n)) => print!(rt; "win {n}"),
        Ok(Opinion::Loss(n)) => print!(rt; "loss {n}"),
        Ok(Opinion::NotWithin) => print!(rt; "not within {k}"),
        Err(n) => print!(rt; "refused {n}"),
    }
}

fn show_position(rt: &impl Print, p: Position) -> io::Result<()> {
    let man = man_in(p.first);
    print!(rt; "{} {} {} ", man.kind, p.side, p.white_king)?;
    print!(rt; "{} {} {}", man.square, p.black_king, man.colour)
}

fn answer_within(rt: &impl Print, p: Position, k: u8) -> io::Result<()> {
    show_position(rt, p)?;
    print!(rt; " within {k}: ")?;
    show_opinion(rt, second_opinion(p, k), k)?;
    println!(rt)
}

// Up to one ply more than may be asked for.
fn answer(rt: &impl Print, p: Position) -> io::Result<()> {
    for k in 0..8 {
        answer_within(rt, p, k)?;
    }
    Ok(())
}

fn answer_line(rt: &impl Print, line: Line) -> io::Result<()> {
    let [man, side, white_king, square, black_king, colour] = line.numbers;
    answer(
        rt,
        one_man(man, colour, side, white_king, square, black_king),
    )
}

fn answer_all(rt: &impl Print, input: &[u8]) -> io::Result<()> {
    let mut line = Line::new();
    for b in input {
        if *b == b'\n' {
            answer_line(rt, line)?;
            line = Line::new();
        } else {
            line.push(*b);
        }
    }
    Ok(())
}

fn main(rt: HostRuntime) -> io::Result<()> {
    let mut input = Vec::new(rt.alloc());
    rt.reader().take(INPUT_ROOM).read_to_end(&mut input)?;
    answer_all(&rt, input.as_slice())
}
