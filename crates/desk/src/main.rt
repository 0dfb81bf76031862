// The desk: answers standard input line by line on standard output. Here it reads and writes; cutting into lines and answering is proved in the crate stream.
#![tactic(auto)]

use index::TABLE_SIZE;
use std::io;
use std::io::Read;
use stream::State;

// The bytes of one read, and the output that the lines ending in them can fill: each line ends with a byte, and its slip has 16 at most.
const CHUNK: usize = 4096;

const OUTPUT_SIZE: usize = 16 * CHUNK;

// Writes what waits. Where that fails nobody reads the desk, and it closes.
fn flush(rt: &impl Print, state: State, output: &[u8]) -> Option<State> {
    let written = output.get(..state.waiting)?;
    rt.write_all(written).ok()?;
    Some(stream::flushed(state))
}

// Answers the last line where it lacks its newline.
fn close(rt: &impl Print, state: State, table: &mut [u8], output: &mut [u8]) {
    let last = stream::close(state, &mut *table, &mut *output);
    let _ = flush(rt, last, &*output);
}

// Reads once and answers the lines that end in what came, so that a reply never waits for more input; none once the desk has closed. A read that
// fails counts as the end.
fn serve(
    rt: &impl Print,
    input: &mut impl Read,
    state: State,
    table: &mut [u8],
    output: &mut [u8],
) -> Option<State> {
    let mut chunk = [0u8; CHUNK];
    let n = input.read(&mut chunk).unwrap_or(0);
    if n == 0 {
        close(rt, state, &mut *table, &mut *output);
        return None;
    }
    let taken = stream::take_all(&chunk[..n], state, &mut *table, &mut *output);
    flush(rt, taken, &*output)
}

// A proved loop ends, and nothing says that the input does: the turns are counted up to a number that no run reaches.
fn main(rt: HostRuntime) -> io::Result<()> {
    let mut table = [0u8; TABLE_SIZE];
    let mut output = [0u8; OUTPUT_SIZE];
    let mut input = rt.reader();
    let mut state = stream::start();
    for _ in 0..u64::MAX {
        let Some(next) = serve(&rt, &mut input, state, &mut table, &mut output) else {
            break;
        };
        state = next;
    }
    Ok(())
}
