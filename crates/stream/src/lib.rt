// Bytes as they come: cut into lines, answered, and the slips written after each other.
#![tactic(auto)]

ghost use Rattle.std.specs.Prelude.{◌≡◌, take};
ghost use Rattle.adjudication.specs.TrueSlip.{LinePromise};
ghost use Rattle.stream.specs.Keeping.{sheet, put, put_all, started, emptied, with_byte, kept, line_answered, byte_taken, all_taken, last_answered};

use adjudication::{Reply, answer_line};
use slips::Slip;

// What is kept from byte to byte: the unfinished line, the man whose table is held, and how much of the output waits.
// Of a line the first 13 bytes are kept: any longer one has another length too.
// An array beside its count: no heap.
#[derive(Clone, Copy)]
pub struct State {
    pub line: [u8; 13],
    pub len: u8,
    pub held: u8,
    pub waiting: usize,
}

// No line, no table and nothing to write.
pub fn start() -> State
    ensures { result ≡ started }
{
    State {
        line: [0; 13],
        len: 0,
        held: 4,
        waiting: 0,
    }
}

// What waited is written: the output begins anew.
pub fn flushed(state: State) -> State
    ensures { result ≡ emptied state }
{
    State {
        waiting: 0,
        ..state
    }
}

// The state with one byte more of its line.
// By index: what a slice ends as behind `get_mut` is not known.
#[tactic(auto, unfolding(crate::specs::Keeping::with_byte))]
fn with_byte(state: State, b: u8) -> State
    ensures { result ≡ with_byte state b }
{
    let mut next = state;
    if state.len < 13 {
        next.line[usize::from(state.len)] = b;
        next.len += 1;
    }
    next
}

// Writes a byte after what waits, and answers how much waits then. A full output stays as it is.
#[tactic(auto, unfolding(crate::specs::Keeping::put))]
fn write_byte(b: u8, waiting: usize, output: &mut [u8]) -> usize
    ensures { sheet output.new result ≡ put (sheet output.old waiting) b }
{
    if waiting >= output.len() {
        return waiting;
    }
    output[waiting] = b;
    waiting + 1
}

// Writes a text after what waits.
fn write_text(text: &[u8], waiting: usize, output: &mut [u8]) -> usize
    ensures { sheet output.new result ≡ put_all (sheet output.old waiting) text.now }
{
    let mut end = waiting;
    for byte in text {
        end = write_byte(*byte, end, &mut *output);
    }
    end
}

// The first `len` bytes, or all where there are fewer.
fn first(bytes: &[u8], len: u8) -> &[u8]
    ensures { result.now ≡ take len bytes.now }
{
    let end = bytes.len().min(usize::from(len));
    &bytes[..end]
}

// Answers the line that ends here.
fn end_line(state: State, table: &mut [u8], output: &mut [u8]) -> State
    ensures { kept result table.new output.new ≡ line_answered (kept state table.old output.old) }
{
    let line = state.line;
    let reply = answer_line(first(&line, state.len), state.held, &mut *table);
    let slip = reply.slip;
    let bytes = slip.bytes;
    let waiting = write_text(first(&bytes, slip.len), state.waiting, &mut *output);
    State {
        len: 0,
        held: reply.held,
        waiting,
        ..state
    }
}

// Takes one byte.
#[tactic(auto, unfolding(crate::specs::Keeping::byte_taken))]
fn take_byte(b: u8, state: State, table: &mut [u8], output: &mut [u8]) -> State
    ensures { kept result table.new output.new ≡ byte_taken (kept state table.old output.old) b }
{
    if b == b'\n' {
        return end_line(state, &mut *table, &mut *output);
    }
    with_byte(state, b)
}

// Takes the bytes that came.
pub fn take_all(input: &[u8], start: State, table: &mut [u8], output: &mut [u8]) -> State
    ensures { kept result table.new output.new ≡ all_taken (kept start table.old output.old) input.now }
{
    let mut state = start;
    for byte in input {
        state = take_byte(*byte, state, &mut *table, &mut *output);
    }
    state
}

// Answers the last line where it lacks its newline.
#[tactic(auto, unfolding(crate::specs::Keeping::last_answered))]
pub fn close(state: State, table: &mut [u8], output: &mut [u8]) -> State
    ensures { kept result table.new output.new ≡ last_answered (kept state table.old output.old) }
{
    if state.len == 0 {
        return state;
    }
    end_line(state, &mut *table, &mut *output)
}
