// Fills the table of king and pawn and answers lines of six numbers (man, side, white king, man's square, black king, man's colour), or of nine (the second man
// with his colour and square), with the number, the moves and the slip, as the second program does.
#![tactic(auto)]

use answers::Answer;
use desk_refusals::Refusal;
use filling::{fill, fill_with};
use index::TABLE_SIZE;
use look_up::look_up_with;
use move_list::MoveList;
use numbering::Material;
use position::Position;
use rules::{Move, Piece};
use std::io;
use std::io::Read;

// The four small tables one after the other, and the pawn's own.
const RUN: usize = 4 * TABLE_SIZE;

const PAWN_TABLE: usize = 196608;

// How much of the input is read.
const INPUT_ROOM: u64 = 65536;

// The numbers of a line so far, and which of them comes next. Each of the programs that read numbers has its own: they
// would share it only through a crate of its own.
#[derive(Clone, Copy)]
struct Line {
    numbers: [u8; 9],
    at: usize,
}

impl Line {
    fn new() -> Line {
        Line {
            numbers: [0; 9],
            at: 0,
        }
    }

    // One byte more: a blank behind a number, or a decimal digit of it, as whose last four bits any other byte counts.
    fn push(&mut self, b: u8) {
        self.at %= 9;
        if b == b' ' {
            self.at += 1;
            return;
        }
        let number = &mut self.numbers[self.at];
        *number = number.wrapping_mul(10).wrapping_add(b % 16);
    }
}

fn show_square(rt: &impl Print, s: u8) -> io::Result<()> {
    let file = char::from(b'a' + s % 8);
    let rank = char::from(b'1' + s / 8);
    print!(rt; "{file}{rank}")
}

// The letter of the piece that a pawn becomes.
fn show_becomes(rt: &impl Print, becomes: u8) -> io::Result<()> {
    match becomes {
        1 => print!(rt; "q"),
        2 => print!(rt; "r"),
        3 => print!(rt; "b"),
        4 => print!(rt; "n"),
        _ => Ok(()),
    }
}

fn show_move(rt: &impl Print, m: Move) -> io::Result<()> {
    print!(rt; " ")?;
    show_square(rt, m.from)?;
    if m.takes {
        print!(rt; "x")?;
    }
    show_square(rt, m.to)?;
    show_becomes(rt, m.becomes)
}

fn show_number(rt: &impl Print, label: &str, number: u64) -> io::Result<()> {
    print!(rt; "{label}{number}")
}

fn show_best(rt: &impl Print, best: Option<Move>) -> io::Result<()> {
    match best {
        Some(m) => show_move(rt, m),
        None => Ok(()),
    }
}

fn show_slip(rt: &impl Print, answer: Result<Answer, Refusal>) -> io::Result<()> {
    match answer {
        Ok(Answer::Win(depth, best)) => {
            show_number(rt, " slip win ", depth as u64)?;
            show_best(rt, best)
        },
        Ok(Answer::Loss(depth, best)) => {
            show_number(rt, " slip loss ", depth as u64)?;
            show_best(rt, best)
        },
        Ok(Answer::Draw(best)) => {
            print!(rt; " slip draw")?;
            show_best(rt, best)
        },
        Err(number) => show_number(rt, " slip refused ", number as u64),
    }
}

fn show_list(rt: &impl Print, list: MoveList) -> io::Result<()> {
    for m in list.moves.iter().take(list.count as usize) {
        show_move(rt, *m)?;
    }
    Ok(())
}

// The moves and the slip.
fn show_moves(rt: &impl Print, p: Position, table: &[u8], run: &[u8]) -> io::Result<()> {
    match move_list::move_count(p) {
        Err(number) => show_number(rt, " refused ", number as u64),
        Ok(count) => {
            show_number(rt, " moves ", count as u64)?;
            if let Ok(list) = move_list::legal_moves(p) {
                show_list(rt, list)?;
            }
            show_slip(rt, look_up_with(p, table, run, &[]))
        }
    }
}

fn answer(rt: &impl Print, p: Position, table: &[u8], run: &[u8]) -> io::Result<()> {
    match index::number_with(p) {
        Err(number) => show_number(rt, "refused ", number as u64)?,
        Ok(number) => {
            show_number(rt, "number ", number as u64)?;
            show_moves(rt, p, table, run)?;
        }
    }
    println!(rt)
}

// The second man of a line that has come to his numbers.
fn second_man(line: Line) -> Option<Piece> {
    let numbers = line.numbers;
    if line.at < 6 {
        return None;
    }
    let second = Piece {
        kind: numbers[6],
        colour: numbers[7],
        square: numbers[8],
    };
    Some(second)
}

fn answer_line(rt: &impl Print, line: Line, table: &[u8], run: &[u8]) -> io::Result<()> {
    let numbers = line.numbers;
    let first = Piece {
        kind: numbers[0],
        colour: numbers[5],
        square: numbers[3],
    };
    let p = Position {
        side: numbers[1],
        white_king: numbers[2],
        black_king: numbers[4],
        first: Some(first),
        second: second_man(line),
    };
    answer(rt, p, table, run)
}

fn answer_all(rt: &impl Print, input: &[u8], table: &[u8], run: &[u8]) -> io::Result<()> {
    let mut line = Line::new();
    for b in input {
        if *b == b'\n' {
            answer_line(rt, line, table, run)?;
            line = Line::new();
        } else {
            line.push(*b);
        }
    }
    Ok(())
}

fn main(rt: HostRuntime) -> io::Result<()> {
    let mut run = [0u8; RUN];
    for (kind, part) in (0..4).zip(run.chunks_mut(TABLE_SIZE)) {
        let _ = fill(kind, part);
    }
    let mut table = [0u8; PAWN_TABLE];
    let _ = fill_with(Material::Pawn, &run, &[], &mut table);
    let mut input = Vec::new(rt.alloc());
    rt.reader().take(INPUT_ROOM).read_to_end(&mut input)?;
    answer_all(&rt, input.as_slice(), &table, &run)
}
