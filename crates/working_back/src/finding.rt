// The next number that holds a byte: numbers are passed over a run at a time, since few hold it.
ghost use Rattle.std.specs.Prelude.{◌≡◌, false, ◌+◌, ◌≤◌, ◌<◌, length};
ghost use Rattle.working_back.specs.Back.{NoneFrom, FirstAt, Passes};

const RUN: usize = 64;

// Whether the byte stands in the run from here on: no way out early, so that the compiler compares many at once.
fn run_holds(byte: u8, from: usize, table: &[u8]) -> bool
    requires { from + 64 ≤ length table.now }
    ensures { result ≡ false → NoneFrom table.now byte from (from + 64) }
{
    let mut held = false;
    for n in from..from + RUN {
        held = held | (table[n] == byte);
    }
    held
}

// Past the runs that do not hold it.
fn past_runs(byte: u8, from: usize, table: &[u8]) -> usize
    requires { from ≤ length table.now }
    ensures { Passes table.now byte from result }
{
    let mut n = from;
    // By hand: where a run holds it, its number is wanted, not its bytes.
    while RUN <= table.len() - n {
        if run_holds(byte, n, table) {
            return n;
        }
        n += RUN;
    }
    n
}

// Where the run that this number is in ends, or the table.
fn run_end(from: usize, length: usize) -> usize
    requires { from < length }
    ensures { (from < result) × (result ≤ length) }
{
    let left = RUN - from % RUN;
    if length - from <= left {
        return length;
    }
    from + left
}

// The first number from `from` on that holds the byte, before `end`; `end` where there is none.
fn next_before(byte: u8, from: usize, end: usize, table: &[u8]) -> usize
    requires { (from ≤ end) × (end ≤ length table.now) }
    ensures { FirstAt table.now byte from end result }
{
    for n in from..end {
        if table[n] == byte {
            return n;
        }
    }
    end
}

// .. before the table's end: one by one up to the end of a run, then a run at a time.
pub fn next_at(byte: u8, from: usize, table: &[u8]) -> usize
    requires { from ≤ length table.now }
    ensures { FirstAt table.now byte from (length table.now) result }
{
    let mut n = from;
    // No range: a turn goes on where the last one stopped.
    while n < table.len() {
        let end = run_end(n, table.len());
        n = next_before(byte, n, end, table);
        if n < end {
            return n;
        }
        n = past_runs(byte, n, table);
    }
    n
}
