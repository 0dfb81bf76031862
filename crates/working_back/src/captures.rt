// Captures taken back: what a pass settles by a move that takes a man, from the lent tables.
ghost use Rattle.std.specs.Prelude.{◌≡◌, ◌+◌, ◌<◌, length, get_or};
ghost use Rattle.rules.specs.Chess.{chess};
ghost use Rattle.working_back.specs.Admitted.{over, Admitted};
ghost use Rattle.working_back.specs.Trying.{Alive};
ghost use Rattle.working_back.specs.Back.{Which, lent_of, TriesLone, Sweeps, SweepsAll};

use super::finding::next_at;
use super::into::try_into;
use position::Men;
use retracting::{left_place, lone_men};
use successors::legal_at;

// Tries the positions that have a move to the man alone at this number, which holds depth k - 1 in his table, if it is legal: a move which takes the
// other, 1 the first, 2 the second.
fn try_lone(
    m: Men,
    k: u8,
    taken: u8,
    j: usize,
    first: &[u8],
    second: &[u8],
    table: &mut [u8],
) -> u32
    requires { (0 < k) × (k < 254) × Admitted m first.now second.now table.old × Alive chess (over m first.now second.now) table.old × (m.second < 4) × Which taken × (j < length (lent_of m first.now second.now taken)) × (get_or (lent_of m first.now second.now taken) j 0 ≡ 1 + k) }
    ensures { TriesLone m first.now second.now k taken j table.old table.new result }
{
    let standing = legal_at(lone_men(m, taken), j as u32);
    match standing {
        Some(t) => {
            let q = left_place(m, taken, t);
            try_into(m, k, q, taken, first, second, &mut *table)
        },
        None => 0,
    }
}

// Tries back from all numbers of his table.
fn pass_lent(
    m: Men,
    k: u8,
    taken: u8,
    small: &[u8],
    first: &[u8],
    second: &[u8],
    table: &mut [u8],
) -> u32
    requires { (0 < k) × (k < 254) × Admitted m first.now second.now table.old × Alive chess (over m first.now second.now) table.old × (m.second < 4) × Which taken × (small.now ≡ lent_of m first.now second.now taken) }
    ensures { Sweeps m first.now second.now k taken 59136 table.old table.new result }
{
    let byte = 1 + k;
    let mut settled: u32 = 0;
    let mut j = next_at(byte, 0, small);
    // From one number to the next that holds it: few do.
    while j < small.len() {
        settled += try_lone(m, k, taken, j, first, second, &mut *table);
        j = next_at(byte, j + 1, small);
    }
    settled
}

// Tries back from the tables of both men: of like kinds one table is lent twice, and the first is read.
pub fn pass_captures(m: Men, k: u8, first: &[u8], second: &[u8], table: &mut [u8]) -> u32
    requires { (0 < k) × (k < 254) × Admitted m first.now second.now table.old × Alive chess (over m first.now second.now) table.old }
    ensures { SweepsAll m first.now second.now k table.old table.new result }
{
    if 4 <= m.second {
        return 0;
    }
    let a = pass_lent(m, k, 2, first, first, second, &mut *table);
    if m.second == m.first {
        let b = pass_lent(m, k, 1, first, first, second, &mut *table);
        return a + b;
    }
    let b = pass_lent(m, k, 1, second, first, second, &mut *table);
    a + b
}
