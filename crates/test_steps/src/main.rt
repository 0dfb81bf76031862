// Fills each man's table in steps and prints what each step says and the table's checksum after it, as the second program does.
#![tactic(auto)]

use desk_refusals::Refusal;
use filling::{Stepped, start_filling, take_step};
use std::io;
use table_theory::Progress;

// The checksum with one byte more.
fn folded(sum: u64, byte: u8) -> u64 {
    (sum % 1000000007 * 31 + byte as u64) % 1000000007
}

// In each of four programs: a shared one would need a crate of its own.
fn checksum(table: &[u8]) -> u64 {
    let mut sum: u64 = 1;
    for byte in table {
        sum = folded(sum, *byte);
    }
    sum
}

fn print_line(rt: &impl Print, label: &str, number: u64) -> io::Result<()> {
    println!(rt; "{label}{number}")
}

fn print_filled(rt: &impl Print, filled: Result<Option<u8>, Refusal>) -> io::Result<()> {
    match filled {
        Ok(Some(depth)) => print!(rt; " done, greatest depth {depth}"),
        Ok(None) => print!(rt; " done, none decided"),
        Err(number) => print!(rt; " refused {number}"),
    }
}

fn print_said(rt: &impl Print, said: Stepped) -> io::Result<()> {
    match said {
        Stepped::Settled(count) => print!(rt; " settled {count}"),
        Stepped::Says(filled) => print_filled(rt, filled),
    }
}

// One step: what it says, and the table after it.
fn print_step(
    rt: &impl Print,
    kind: u8,
    k: u64,
    table: &mut [u8],
    progress: Progress,
) -> io::Result<Progress> {
    let step = take_step(kind, &mut *table, progress);
    print!(rt; "step {k}")?;
    print_said(rt, step.said)?;
    print_line(rt, " checksum ", checksum(&*table))?;
    Ok(step.progress)
}

fn print_man(rt: &impl Print, kind: u8, name: &str, table: &mut [u8]) -> io::Result<()> {
    let start = start_filling(kind, &mut *table);
    println!(rt; "{name}")?;
    print_line(rt, "start checksum ", checksum(&*table))?;
    let mut progress = start.progress;
    for k in 0..255 {
        if progress.stage != 0 {
            return Ok(());
        }
        progress = print_step(rt, kind, k, &mut *table, progress)?;
    }
    Ok(())
}

fn main(rt: HostRuntime) -> io::Result<()> {
    let mut table = [0u8; 59136];
    print_man(&rt, 0, "queen", &mut table)?;
    print_man(&rt, 1, "rook", &mut table)?;
    print_man(&rt, 2, "bishop", &mut table)?;
    print_man(&rt, 3, "knight", &mut table)
}
