// Answers lines of six numbers (man, side, white king, man's square, black king, man's colour) with the legal moves, as the second program does.
#![tactic(auto)]

use move_list::MoveList;
use position::{Position, one_man};
use rules::Move;
use std::io;
use std::io::Read;

// How much of the input is read.
const INPUT_ROOM: u64 = 65536;

// The numbers of a line so far, and which of them comes next. Each of the programs that read numbers has its own: they
// would share it only through a crate of its own.
#[derive(Clone, Copy)]
struct Line {
    numbers: [u8; 6],
    at: usize,
}

impl Line {
    fn new() -> Line {
        Line {
            numbers: [0; 6],
            at: 0,
        }
    }

    // One byte more: a blank behind a number, or a decimal digit of it, as whose last four bits any other byte counts.
    fn push(&mut self, b: u8) {
        self.at %= 6;
        if b == b' ' {
            self.at += 1;
            return;
        }
        let number = &mut self.numbers[self.at];
        *number = number.wrapping_mul(10).wrapping_add(b % 16);
    }
}

fn show_square(rt: &impl Print, s: u8) -> io::Result<()> {
    let file = char::from(b'a' + s % 8);
    let rank = char::from(b'1' + s / 8);
    print!(rt; "{file}{rank}")
}

fn show_move(rt: &impl Print, m: Move) -> io::Result<()> {
    show_square(rt, m.from)?;
    if m.takes {
        print!(rt; "x")?;
    }
    show_square(rt, m.to)
}

fn show_list(rt: &impl Print, list: MoveList) -> io::Result<()> {
    for m in list.moves.iter().take(list.count as usize) {
        print!(rt; " ")?;
        show_move(rt, *m)?;
    }
    Ok(())
}

fn answer(rt: &impl Print, p: Position) -> io::Result<()> {
    match move_list::move_count(p) {
        Err(number) => print!(rt; "refused {number}")?,
        Ok(count) => {
            print!(rt; "{count}")?;
            if let Ok(list) = move_list::legal_moves(p) {
                show_list(rt, list)?;
            }
        }
    }
    println!(rt)
}

fn answer_line(rt: &impl Print, line: Line) -> io::Result<()> {
    let [man, side, white_king, square, black_king, colour] = line.numbers;
    answer(
        rt,
        one_man(man, colour, side, white_king, square, black_king),
    )
}

fn answer_all(rt: &impl Print, input: &[u8]) -> io::Result<()> {
    let mut line = Line::new();
    for b in input {
        if *b == b'\n' {
            answer_line(rt, line)?;
            line = Line::new();
        } else {
            line.push(*b);
        }
    }
    Ok(())
}

fn main(rt: HostRuntime) -> io::Result<()> {
    let mut input = Vec::new(rt.alloc());
    rt.reader().take(INPUT_ROOM).read_to_end(&mut input)?;
    answer_all(&rt, input.as_slice())
}
