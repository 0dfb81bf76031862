// Answers lines of nine numbers (man, side, white king, man's square, black king, man's colour, and the second man with his colour and square) with the
// number, the count of moves, and the first and the last of them, as the second program does.
#![tactic(auto)]

use desk_refusals::Refusal;
use move_list::MoveList;
use position::Position;
use rules::{Move, Piece};
use std::io;
use std::io::Read;

// How much of the input is read.
const INPUT_ROOM: u64 = 65536;

// The numbers of a line so far, and which of them comes next. Each of the programs that read numbers has its own: they
// would share it only through a crate of its own.
#[derive(Clone, Copy)]
struct Line {
    numbers: [u8; 9],
    at: usize,
}

impl Line {
    fn new() -> Line {
        Line {
            numbers: [0; 9],
            at: 0,
        }
    }

    // One byte more: a blank behind a number, or a decimal digit of it, as whose last four bits any other byte counts.
    fn push(&mut self, b: u8) {
        self.at %= 9;
        if b == b' ' {
            self.at += 1;
            return;
        }
        let number = &mut self.numbers[self.at];
        *number = number.wrapping_mul(10).wrapping_add(b % 16);
    }
}

fn show_square(rt: &impl Print, s: u8) -> io::Result<()> {
    let file = char::from(b'a' + s % 8);
    let rank = char::from(b'1' + s / 8);
    print!(rt; "{file}{rank}")
}

fn show_move(rt: &impl Print, m: Move) -> io::Result<()> {
    print!(rt; " ")?;
    show_square(rt, m.from)?;
    if m.takes {
        print!(rt; "x")?;
    }
    show_square(rt, m.to)
}

fn refused(rt: &impl Print, number: Refusal) -> io::Result<()> {
    print!(rt; "refused {number}")
}

// The first move and the last.
fn show_ends(rt: &impl Print, list: MoveList) -> io::Result<()> {
    let moves = list.moves;
    let count = list.count;
    if count == 0 {
        return Ok(());
    }
    show_move(rt, moves[0])?;
    show_move(rt, moves[((count - 1) % 62) as usize])
}

fn show_moves(rt: &impl Print, p: Position) -> io::Result<()> {
    match move_list::move_count(p) {
        Err(number) => refused(rt, number),
        Ok(count) => {
            print!(rt; "moves {count}")?;
            let Ok(list) = move_list::legal_moves(p) else {
                return Ok(());
            };
            show_ends(rt, list)
        }
    }
}

fn answer(rt: &impl Print, p: Position) -> io::Result<()> {
    match index::number_with(p) {
        Err(number) => refused(rt, number)?,
        Ok(number) => {
            print!(rt; "number {number} ")?;
            show_moves(rt, p)?;
        }
    }
    println!(rt)
}

fn answer_line(rt: &impl Print, line: Line) -> io::Result<()> {
    let numbers = line.numbers;
    let first = Piece {
        kind: numbers[0],
        colour: numbers[5],
        square: numbers[3],
    };
    let second = Piece {
        kind: numbers[6],
        colour: numbers[7],
        square: numbers[8],
    };
    let p = Position {
        side: numbers[1],
        white_king: numbers[2],
        black_king: numbers[4],
        first: Some(first),
        second: Some(second),
    };
    answer(rt, p)
}

fn answer_all(rt: &impl Print, input: &[u8]) -> io::Result<()> {
    let mut line = Line::new();
    for b in input {
        if *b == b'\n' {
            answer_line(rt, line)?;
            line = Line::new();
        } else {
            line.push(*b);
        }
    }
    Ok(())
}

fn main(rt: HostRuntime) -> io::Result<()> {
    let mut input = Vec::new(rt.alloc());
    rt.reader().take(INPUT_ROOM).read_to_end(&mut input)?;
    answer_all(&rt, input.as_slice())
}
