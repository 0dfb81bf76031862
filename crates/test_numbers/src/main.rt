// Goes over all numbers of each man, and back, and prints counts and checksums as the second program does.
#![tactic(auto)]

use index::TABLE_SIZE;
use position::{Position, man_in};
use std::io;

// The used numbers of each side, the unused ones, a checksum of the positions and one of their numbers.
#[derive(Clone, Copy)]
struct Tally {
    white: u32,
    black: u32,
    refused: u32,
    positions: u64,
    numbers: u64,
}

// The checksum with one value more.
fn folded(sum: u64, value: u32) -> u64 {
    (sum % 1000000007 * 31 + value as u64) % 1000000007
}

fn with_position(sum: u64, p: Position) -> u64 {
    let side = folded(sum, p.side as u32);
    let first = p.first;
    let white = folded(side, p.white_king as u32);
    let square = folded(white, man_in(first).square as u32);
    folded(square, p.black_king as u32)
}

// The position's number; a refusal shows as a number that none has.
fn number_shown(p: Position) -> u32 {
    match index::number(p) {
        Ok(n) => n,
        Err(refusal) => 60000 + refusal as u32,
    }
}

fn with_used(t: Tally, p: Position) -> Tally {
    let side = p.side;
    let positions = with_position(t.positions, p);
    let numbers = folded(t.numbers, number_shown(p));
    if side == 0 {
        return Tally {
            white: t.white.wrapping_add(1),
            black: t.black,
            refused: t.refused,
            positions,
            numbers,
        };
    }
    Tally {
        white: t.white,
        black: t.black.wrapping_add(1),
        refused: t.refused,
        positions,
        numbers,
    }
}

fn with_number(t: Tally, kind: u8, n: u32) -> Tally {
    match index::position_of(kind, n) {
        Ok(p) => with_used(t, p),
        Err(_) => Tally {
            white: t.white,
            black: t.black,
            refused: t.refused.wrapping_add(1),
            positions: folded(t.positions, 200),
            numbers: t.numbers,
        },
    }
}

fn counted(kind: u8) -> Tally {
    let mut t = Tally {
        white: 0,
        black: 0,
        refused: 0,
        positions: 1,
        numbers: 1,
    };
    for n in 0..TABLE_SIZE as u32 {
        t = with_number(t, kind, n);
    }
    t
}

fn print_side(rt: &impl Print, kind: u8, side: &str, used: u32) -> io::Result<()> {
    println!(rt; "{kind}{side}{used}")
}

fn print_man(rt: &impl Print, kind: u8) -> io::Result<()> {
    let t = counted(kind);
    let used = t.white.wrapping_add(t.black);
    print!(rt; "{kind} used {used} refused9 {}", t.refused)?;
    println!(rt; " positions {} numbers {}", t.positions, t.numbers)?;
    print_side(rt, kind, " white used ", t.white)?;
    print_side(rt, kind, " black used ", t.black)
}

fn main(rt: HostRuntime) -> io::Result<()> {
    print_man(&rt, 0)?;
    print_man(&rt, 1)?;
    print_man(&rt, 2)?;
    print_man(&rt, 3)
}
