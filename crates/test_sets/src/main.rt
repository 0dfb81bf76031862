// Writes three sets, reads each code back and prints what was found, as the second program does.
#![tactic(auto)]

use desk_refusals::Refusal;
use sets::Choice;
use std::io;
use table_set::{find, part, write};

// The checksum with one byte more.
fn folded(sum: u64, byte: u8) -> u64 {
    (sum % 1000000007 * 31 + byte as u64) % 1000000007
}

// In each of four programs: a shared one would need a crate of its own.
fn checksum(bytes: &[u8]) -> u64 {
    let mut sum: u64 = 1;
    for byte in bytes {
        sum = folded(sum, *byte);
    }
    sum
}

fn print_number(rt: &impl Print, label: &str, number: u64) -> io::Result<()> {
    print!(rt; "{label}{number}")
}

fn print_yes(rt: &impl Print, b: bool) -> io::Result<()> {
    if b { print!(rt; "y") } else { print!(rt; "n") }
}

fn print_choice(rt: &impl Print, choice: Choice) -> io::Result<()> {
    print!(rt; "set ")?;
    print_yes(rt, choice.queen)?;
    print_yes(rt, choice.rook)?;
    print_yes(rt, choice.bishop)?;
    print_yes(rt, choice.knight)
}

fn print_found(rt: &impl Print, set: &[u8], code: u8) -> io::Result<()> {
    print_number(rt, "code ", code as u64)?;
    match find(set, code) {
        Ok(offset) => {
            print_number(rt, " offset ", offset as u64)?;
            print_number(rt, " length ", part(set, code).len() as u64)?;
        },
        Err(number) => print_number(rt, " refused ", number as u64)?,
    }
    println!(rt)
}

fn print_written(rt: &impl Print, written: Result<(), Refusal>, set: &[u8]) -> io::Result<()> {
    match written {
        Ok(()) => {
            print_number(rt, " length ", set.len() as u64)?;
            print_number(rt, " checksum ", checksum(set))?;
        },
        Err(number) => print_number(rt, " refused ", number as u64)?,
    }
    println!(rt)
}

fn print_codes(rt: &impl Print, set: &[u8]) -> io::Result<()> {
    for code in 0..5 {
        print_found(rt, set, code)?;
    }
    Ok(())
}

fn print_set(rt: &impl Print, choice: Choice, set: &mut [u8]) -> io::Result<()> {
    print_choice(rt, choice)?;
    let written = write(choice, &mut *set);
    print_written(rt, written, &*set)?;
    print_codes(rt, &*set)
}

fn choose(queen: bool, rook: bool, bishop: bool, knight: bool) -> Choice {
    Choice {
        queen,
        rook,
        bishop,
        knight,
    }
}

fn main(rt: HostRuntime) -> io::Result<()> {
    let mut four = [165u8; 236596];
    let mut two = [165u8; 118300];
    let mut none = [165u8; 4];
    print_set(&rt, choose(true, true, true, true), &mut four)?;
    print_set(&rt, choose(false, true, false, true), &mut two)?;
    print_set(&rt, choose(false, false, false, false), &mut none)
}
