// Answers each line's number with its digits and check, as the second program does.
#![tactic(auto)]

use std::io;
use std::io::Read;
use typed::write_number;

// How much of the input is read.
const INPUT_ROOM: u64 = 65536;

// A number with one decimal digit more; what is beyond 32 bits is lost.
fn with_digit(number: u32, digit: u8) -> u32 {
    ((number as u64 * 10 + (digit % 16) as u64) % 0x1_0000_0000) as u32
}

fn answer(rt: &impl Print, number: u32) -> io::Result<()> {
    match write_number(number) {
        Ok(digits) => rt.write_all(&digits)?,
        Err(refusal) => print!(rt; "refused {refusal}")?,
    }
    println!(rt)
}

fn answer_all(rt: &impl Print, input: &[u8]) -> io::Result<()> {
    let mut number: u32 = 0;
    for b in input {
        if *b == b'\n' {
            answer(rt, number)?;
            number = 0;
        } else {
            number = with_digit(number, *b);
        }
    }
    Ok(())
}

fn main(rt: HostRuntime) -> io::Result<()> {
    let mut input = Vec::new(rt.alloc());
    rt.reader().take(INPUT_ROOM).read_to_end(&mut input)?;
    answer_all(&rt, input.as_slice())
}
