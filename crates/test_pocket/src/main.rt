// Fills each man's table, packs it and prints the pocket's four tallies and its checksum, as the second program does.
#![tactic(auto)]

use desk_refusals::Refusal;
use filling::fill;
use pocket::{Tallies, pack, tally};
use std::io;

// The checksum with one byte more.
fn folded(sum: u64, byte: u8) -> u64 {
    (sum % 1000000007 * 31 + byte as u64) % 1000000007
}

// In each of four programs: a shared one would need a crate of its own.
fn checksum(bytes: &[u8]) -> u64 {
    let mut sum: u64 = 1;
    for byte in bytes {
        sum = folded(sum, *byte);
    }
    sum
}

fn print_line(rt: &impl Print, label: &str, number: u64) -> io::Result<()> {
    println!(rt; "{label}{number}")
}

fn print_tallies(rt: &impl Print, t: Tallies) -> io::Result<()> {
    print_line(rt, "unused or illegal ", t.none as u64)?;
    print_line(rt, "draw ", t.draws as u64)?;
    print_line(rt, "win ", t.wins as u64)?;
    print_line(rt, "loss ", t.losses as u64)
}

fn print_tallied(rt: &impl Print, tallied: Result<Tallies, Refusal>) -> io::Result<()> {
    match tallied {
        Ok(t) => print_tallies(rt, t),
        Err(number) => print_line(rt, "refused ", number as u64),
    }
}

fn print_man(rt: &impl Print, kind: u8, name: &str) -> io::Result<()> {
    let mut table = [0u8; 59136];
    let mut pocket = [0u8; 14784];
    let _ = fill(kind, &mut table);
    let _ = pack(&table, &mut pocket);
    println!(rt; "{name}")?;
    print_tallied(rt, tally(&pocket))?;
    print_line(rt, "checksum ", checksum(&pocket))
}

fn main(rt: HostRuntime) -> io::Result<()> {
    print_man(&rt, 0, "queen")?;
    print_man(&rt, 1, "rook")?;
    print_man(&rt, 2, "bishop")?;
    print_man(&rt, 3, "knight")
}
