// Fills each man's table, three tables by the second fill, and prints each one's counts of bytes and its checksum, as the
// second program does.
#![tactic(auto)]

ghost use Rattle.std.specs.Prelude.{◌<◌, ◌≤◌, length};

use desk_refusals::Refusal;
use filling::{fill, fill_back, fill_one_back};
use index::{HALF, TABLE_SIZE};
use numbering::Material;
use std::io;

const LARGE_SIZE: usize = 3784704;

// How often the byte stands in this half of a table.
fn occurrences(half: &[u8], byte: u8) -> u64 {
    half.iter().filter(|b| **b == byte).count() as u64
}

// The checksum with one byte more.
fn folded(sum: u64, byte: u8) -> u64 {
    (sum % 1000000007 * 31 + byte as u64) % 1000000007
}

// In each of four programs: a shared one would need a crate of its own.
fn checksum(table: &[u8]) -> u64 {
    let mut sum: u64 = 1;
    for byte in table {
        sum = folded(sum, *byte);
    }
    sum
}

fn print_line(rt: &impl Print, label: &str, number: u64) -> io::Result<()> {
    println!(rt; "{label}{number}")
}

// A depth that occurs.
fn print_depth(rt: &impl Print, half: &[u8], depth: u8) -> io::Result<()>
    requires { depth < 254 }
{
    let count = occurrences(half, 2 + depth);
    if count != 0 {
        println!(rt; "depth {depth} {count}")?;
    }
    Ok(())
}

fn print_depths(rt: &impl Print, half: &[u8]) -> io::Result<()> {
    for depth in 0..254u8 {
        print_depth(rt, half, depth)?;
    }
    Ok(())
}

// The half with one side to move.
fn print_side(rt: &impl Print, side: &str, half: &[u8]) -> io::Result<()> {
    println!(rt; "{side}")?;
    print_line(rt, "unused or illegal ", occurrences(half, 0))?;
    print_line(rt, "draw ", occurrences(half, 1))?;
    print_depths(rt, half)
}

fn print_filled(rt: &impl Print, filled: Result<Option<u8>, Refusal>) -> io::Result<()> {
    match filled {
        Ok(Some(depth)) => print_line(rt, "greatest depth ", depth as u64),
        Ok(None) => println!(rt; "none decided"),
        Err(number) => print_line(rt, "refused ", number as u64),
    }
}

fn print_table(
    rt: &impl Print,
    name: &str,
    filled: Result<Option<u8>, Refusal>,
    half: usize,
    table: &[u8],
) -> io::Result<()>
    requires { half ≤ length table.now }
{
    println!(rt; "{name}")?;
    print_filled(rt, filled)?;
    print_side(rt, "white", &table[0..half])?;
    print_side(rt, "black", &table[half..])?;
    print_line(rt, "checksum ", checksum(table))
}

fn print_man(rt: &impl Print, kind: u8, name: &str) -> io::Result<()> {
    let mut table = [0u8; TABLE_SIZE];
    let filled = fill(kind, &mut table);
    print_table(rt, name, filled, HALF, &table)
}

// By the second fill.
fn print_man_back(rt: &impl Print, kind: u8, name: &str) -> io::Result<()> {
    let mut table = [0u8; TABLE_SIZE];
    let filled = fill_one_back(kind, &mut table);
    print_table(rt, name, filled, HALF, &table)
}

// Bishop and knight by the second fill. The array goes by reference: its length is then its type's, and nobody counts it.
fn fill_two(
    bishop: &[u8],
    knight: &[u8],
    table: &mut [u8; LARGE_SIZE],
) -> Result<Option<u8>, Refusal> {
    fill_back(Material::Two(2, 3, false), bishop, knight, &mut *table)
}

fn print_large(
    rt: &impl Print,
    filled: Result<Option<u8>, Refusal>,
    table: &[u8; LARGE_SIZE],
) -> io::Result<()> {
    print_table(rt, "KBNK", filled, LARGE_SIZE / 2, table)
}

fn print_two(rt: &impl Print) -> io::Result<()> {
    let mut bishop = [0u8; TABLE_SIZE];
    let mut knight = [0u8; TABLE_SIZE];
    let mut table = [0u8; LARGE_SIZE];
    let _ = fill_one_back(2, &mut bishop);
    let _ = fill_one_back(3, &mut knight);
    let filled = fill_two(&bishop, &knight, &mut table);
    print_large(rt, filled, &table)
}

fn main(rt: HostRuntime) -> io::Result<()> {
    print_man(&rt, 0, "queen")?;
    print_man(&rt, 1, "rook")?;
    print_man(&rt, 2, "bishop")?;
    print_man(&rt, 3, "knight")?;
    print_man_back(&rt, 0, "queen")?;
    print_man_back(&rt, 1, "rook")?;
    print_two(&rt)
}
