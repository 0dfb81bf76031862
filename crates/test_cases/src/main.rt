// Runs the positions to keep by the bench, checks the four tables and altered ones, and answers as the second program does.
#![tactic(auto)]

use answers::{Answer, Checked};
use checking::check;
use filling::fill;
use index::{TABLE_SIZE, number, position_of};
use look_up::look_up;
use move_list::move_count;
use position::{Position, lone, standing_refusal};
use std::io;

const QUEEN: u8 = 0;

const ROOK: u8 = 1;

const BISHOP: u8 = 2;

const KNIGHT: u8 = 3;

fn say(rt: &impl Print, label: &str, answer: &str) -> io::Result<()> {
    println!(rt; "{label}{answer}")
}

fn say_number(rt: &impl Print, label: &str, answer: &str, n: u64) -> io::Result<()> {
    println!(rt; "{label}{answer}{n}")
}

fn numbering(rt: &impl Print, label: &str, p: Position) -> io::Result<()> {
    match number(p) {
        Ok(n) => say_number(rt, label, "number ", n as u64),
        Err(n) => say_number(rt, label, "refused ", n as u64),
    }
}

fn numbering_back(rt: &impl Print, label: &str, n: u32) -> io::Result<()> {
    match position_of(QUEEN, n) {
        Ok(_) => say(rt, label, "used"),
        Err(refusal) => say_number(rt, label, "refused ", refusal as u64),
    }
}

fn is_used(n: u32) -> bool {
    match position_of(QUEEN, n) {
        Ok(_) => true,
        Err(_) => false,
    }
}

// The highest used number.
fn highest_used() -> u32 {
    for n in (1..=59135u32).rev() {
        if is_used(n) {
            return n;
        }
    }
    0
}

// The value, with the depth where there is one; a move too has no place in this list.
fn value(rt: &impl Print, label: &str, table: &[u8], p: Position) -> io::Result<()> {
    match look_up(table, p) {
        Ok(Answer::Win(n, _)) => say_number(rt, label, "win ", n as u64),
        Ok(Answer::Loss(n, _)) => say_number(rt, label, "loss ", n as u64),
        Ok(Answer::Draw(_)) => say(rt, label, "draw"),
        Err(n) => say_number(rt, label, "refused ", n as u64),
    }
}

fn counting(rt: &impl Print, label: &str, p: Position) -> io::Result<()> {
    match move_count(p) {
        Ok(n) => println!(rt; "{label}{n} moves"),
        Err(n) => say_number(rt, label, "refused ", n as u64),
    }
}

fn legality(rt: &impl Print, label: &str, p: Position) -> io::Result<()> {
    match standing_refusal(p) {
        Ok(()) => say(rt, label, "legal"),
        Err(refusal) => say_number(rt, label, "refused ", refusal as u64),
    }
}

// A table of another length, at filling, checking and looking up.
fn length(rt: &impl Print, label: &str, table: &mut [u8]) -> io::Result<()> {
    let filled = fill(QUEEN, &mut *table).err();
    let checked = check(QUEEN, &*table).err();
    let looked_up = look_up(&*table, lone(QUEEN, 0, 0, 1, 63)).err();
    if filled == checked && checked == looked_up {
        say_number(rt, label, "refused ", filled.map_or(0, |r| r as u64))
    } else {
        say(rt, label, "not one refusal")
    }
}

fn numbers(rt: &impl Print) -> io::Result<()> {
    numbering(
        rt,
        "White Ka1 Qb1, Black Kh8, White to move: ",
        lone(QUEEN, 0, 0, 1, 63),
    )?;
    numbering(
        rt,
        "White Ka1 Qa2, Black Kh8, White to move: ",
        lone(QUEEN, 0, 0, 8, 63),
    )?;
    numbering(
        rt,
        "White Kh8 Qh7, Black Ka1, White to move: ",
        lone(QUEEN, 0, 63, 55, 0),
    )?;
    numbering(
        rt,
        "White Ka1 Qh8, Black Kc1, White to move: ",
        lone(QUEEN, 0, 0, 63, 2),
    )?;
    numbering_back(rt, "Number 2056: ", 2056)?;
    say_number(
        rt,
        "Highest used number: ",
        "number ",
        highest_used() as u64,
    )?;
    numbering_back(rt, "Number 59,127: ", 59127)?;
    numbering_back(rt, "Number 59,128: ", 59128)?;
    numbering_back(rt, "Number 59,136: ", 59136)?;
    numbering(rt, "Kings on a1 and b2: ", lone(QUEEN, 0, 0, 63, 9))?;
    numbering(rt, "Rook on a1 with its king: ", lone(ROOK, 0, 0, 0, 63))
}

fn values(rt: &impl Print) -> io::Result<()> {
    let mut table = [0u8; TABLE_SIZE];
    let _ = fill(ROOK, &mut table);
    value(
        rt,
        "Ka3 Rh1 against Ka1, Black to move: ",
        &table,
        lone(ROOK, 1, 16, 7, 0),
    )?;
    let _ = fill(QUEEN, &mut table);
    value(
        rt,
        "Kb3 Qb2 against Ka1, Black to move: ",
        &table,
        lone(QUEEN, 1, 17, 9, 0),
    )?;
    value(
        rt,
        "Ke5 Qb3 against Ka1, Black to move: ",
        &table,
        lone(QUEEN, 1, 36, 17, 0),
    )
}

fn lengths(rt: &impl Print) -> io::Result<()> {
    let mut short = [0u8; 59135];
    length(rt, "Table of 59,135 bytes: ", &mut short)?;
    let mut long = [0u8; 59137];
    length(rt, "Table of 59,137 bytes: ", &mut long)
}

fn checking(rt: &impl Print, label: &str, kind: u8, table: &[u8]) -> io::Result<()> {
    match check(kind, table) {
        Ok(Checked::Accepted) => say(rt, label, "accepted"),
        Ok(Checked::Wrong(n)) => say_number(rt, label, "wrong at ", n as u64),
        Err(n) => say_number(rt, label, "refused ", n as u64),
    }
}

// A table as it is filled, and altered ones: the lowest wrong number.
fn queens_table(rt: &impl Print) -> io::Result<()> {
    let mut table = [0u8; TABLE_SIZE];
    let _ = fill(QUEEN, &mut table);
    checking(rt, "Queen's table: ", QUEEN, &table)?;
    checking(rt, "Queen's table, checked for a rook: ", ROOK, &table)?;
    table[59135] = 1;
    checking(rt, "Queen's table, 1 at 59,135: ", QUEEN, &table)?;
    table[2049] = 1;
    checking(rt, "And 1 at 2,049: ", QUEEN, &table)
}

fn rooks_table(rt: &impl Print) -> io::Result<()> {
    let mut table = [0u8; TABLE_SIZE];
    let _ = fill(ROOK, &mut table);
    checking(rt, "Rook's table: ", ROOK, &table)?;
    table[31617] = 255;
    checking(rt, "Rook's table, 255 at 31,617: ", ROOK, &table)
}

fn bishops_table(rt: &impl Print) -> io::Result<()> {
    let mut table = [0u8; TABLE_SIZE];
    let _ = fill(BISHOP, &mut table);
    checking(rt, "Bishop's table: ", BISHOP, &table)?;
    table[31617] = 2;
    checking(rt, "Bishop's table, 2 at 31,617: ", BISHOP, &table)
}

fn knights_table(rt: &impl Print) -> io::Result<()> {
    let mut table = [0u8; TABLE_SIZE];
    let _ = fill(KNIGHT, &mut table);
    checking(rt, "Knight's table: ", KNIGHT, &table)?;
    table[2049] = 0;
    checking(rt, "Knight's table, 0 at 2,049: ", KNIGHT, &table)
}

fn main(rt: HostRuntime) -> io::Result<()> {
    numbers(&rt)?;
    values(&rt)?;
    counting(
        &rt,
        "Ka1 Ra5 against Ke5, Black to move: ",
        lone(ROOK, 1, 0, 32, 36),
    )?;
    legality(
        &rt,
        "Kc1 Ra1 against Ke1, White to move: ",
        lone(ROOK, 0, 2, 0, 4),
    )?;
    lengths(&rt)?;
    queens_table(&rt)?;
    rooks_table(&rt)?;
    bishops_table(&rt)?;
    knights_table(&rt)
}
