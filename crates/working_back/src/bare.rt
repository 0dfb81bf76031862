// A black king without men, k even: the squares that he came from. White's pieces stand still, so that what they attack is told once for all his moves, and
// his own are read one after the other.
ghost use Rattle.std.specs.Prelude.{◌≡◌, false, ◌||◌, ℕ, ◌-◌, ◌%◌, ◌<◌, T, eqb, length, get_or};
ghost use Rattle.board.specs.Sets.{has};
ghost use Rattle.rules.specs.Rules.{can_move};
ghost use Rattle.rules.specs.Chess.{chess};
ghost use Rattle.numbering.specs.Kings.{separate};
ghost use Rattle.numbering.specs.Number.{number_of};
ghost use Rattle.position.specs.Posed.{board_in};
ghost use Rattle.index.specs.Seats.{Seated};
ghost use Rattle.index.specs.Moving.{king_on, Stands};
ghost use Rattle.retracting.specs.Retracting.{LegalLeft, Leads, GoesBack, StepsBack, place_before};
ghost use Rattle.working_back.specs.Admitted.{over, Admitted};
ghost use Rattle.working_back.specs.Trying.{Alive};
ghost use Rattle.working_back.specs.Back.{TriesPlace, TriesTo};
ghost use Rattle.working_back.specs.Bare.{bare_on, Bare, struck_by, Knows, QuietLoss};

use super::known::{byte_of, look};
use super::trying::confirm;
use board::{has as has_square, minus, one, squares_of, targets, with};
use byte_rule::refutes;
use index::{Still, still_black, still_number};
use position::{Men, Place};
use retracting::{again, place_before};
use successors::byte_made;

const KING: u8 = 5;

// The squares that White's pieces attack with him lifted, and the one he went to.
fn struck(m: Men, white: u8, x: u8, y: u8, to: u8) -> u64
    ensures { (t : ℕ) → t < 64 → has result t ≡ (struck_by m white x y t || eqb t to) }
{
    let stood = one(white) | (one(x) | one(y));
    let near = targets(0, KING, white);
    let far = targets(stood, m.first, x) | targets(stood, m.second, y);
    with(near | far, to)
}

// Whether a number was settled, 1 or 0, and what is known then.
#[derive(Clone, Copy)]
struct Lost {
    settled: u32,
    saving: u64,
    harmless: u64,
}

// Settles the number, which holds 1, if none of his squares saves him; he takes nothing.
fn lose_quiet(
    m: Men,
    k: u8,
    white: u8,
    x: u8,
    y: u8,
    others: Still,
    n: usize,
    goals: u64,
    saving: u64,
    harmless: u64,
    table: &mut [u8],
) -> Lost
    requires { (k < 254) × (n < length table.old) × ((t : ℕ) → t < 64 → T (has goals t) → Seated m (bare_on 0 white t x y) × T (separate white t)) × Knows m k white x y table.old saving harmless × Stands m others (king_on false white 0 x y) }
    ensures { QuietLoss m k white x y goals n table.old table.new result.settled × Knows m k white x y table.old result.saving result.harmless }
{
    let seen = look(m, k, white, x, y, others, goals, saving, harmless, &*table);
    let saved = seen.saved;
    if saved {
        return Lost {
            settled: 0,
            saving: seen.saving,
            harmless: seen.harmless,
        };
    }
    table[n] = 2 + k;
    Lost {
        settled: 1,
        saving: seen.saving,
        harmless: seen.harmless,
    }
}

// Settles the number, which holds 1, if he is lost in k though he might take the man on t: that byte is read first, since it nearly always saves him.
fn lose_taking(
    m: Men,
    k: u8,
    q: Place,
    taken: u8,
    to: u8,
    s: u8,
    t: u8,
    n: usize,
    first: &[u8],
    second: &[u8],
    table: &mut [u8],
) -> u32
    requires { (0 < k) × (k < 254) × Admitted m first.now second.now table.old × Leads m (place_before q taken s to) s to q × (n ≡ number_of (board_in m (place_before q taken s to))) × (n < length table.old) × (get_or table.old n 0 ≡ 1) × T (can_move (board_in m (place_before q taken s to)) s t) }
    ensures { TriesPlace m first.now second.now k q (place_before q taken s to) table.old table.new result }
{
    let o = place_before(q, taken, s, to);
    let c = byte_made(m, o, s, t, &*table, first, second);
    if refutes(2 + k as u16, c) {
        return 0;
    }
    confirm(m, k, q, taken, s, to, n, first, second, &mut *table)
}

// Settles the number of the position before his move from s, if it holds 1, so that it is legal, and he is lost there in k.
fn lose_one(
    m: Men,
    k: u8,
    q: Place,
    taken: u8,
    to: u8,
    s: u8,
    white: u8,
    x: u8,
    y: u8,
    others: Still,
    shut: u64,
    saving: u64,
    harmless: u64,
    first: &[u8],
    second: &[u8],
    table: &mut [u8],
) -> Lost
    requires { (0 < k) × (k < 254) × (k % 2 ≡ 0) × Admitted m first.now second.now table.old × Bare m q taken to white x y × ((t : ℕ) → t < 64 → has shut t ≡ (struck_by m white x y t || eqb t to)) × GoesBack m q taken s to × Knows m k white x y table.old saving harmless × Stands m others (king_on false white 0 x y) × Alive chess (over m first.now second.now) table.old }
    ensures { TriesPlace m first.now second.now k q (place_before q taken s to) table.old table.new result.settled × Knows m k white x y table.new result.saving result.harmless }
{
    let n = still_number(others, 1, s);
    if byte_of(&*table, n) != 1 {
        return Lost {
            settled: 0,
            saving,
            harmless,
        };
    }
    let goals = minus(targets(0, KING, s), shut);
    let takes = has_square(goals, x);
    if takes | has_square(goals, y) {
        let t = again(takes, x, y);
        let settled = lose_taking(m, k, q, taken, to, s, t, n, first, second, &mut *table);
        return Lost {
            settled,
            saving,
            harmless,
        };
    }
    lose_quiet(
        m,
        k,
        white,
        x,
        y,
        others,
        n,
        goals,
        saving,
        harmless,
        &mut *table,
    )
}

// From each of these squares.
pub fn lose_bare(
    m: Men,
    k: u8,
    q: Place,
    taken: u8,
    to: u8,
    squares: u64,
    first: &[u8],
    second: &[u8],
    table: &mut [u8],
) -> u32
    requires { (0 < k) × (k < 254) × (k % 2 ≡ 0) × Admitted m first.now second.now table.old × StepsBack m q taken to squares × LegalLeft m q taken × (q.side ≡ 0) × (m.colour ≡ 0) × (to ≡ q.black) × Alive chess (over m first.now second.now) table.old }
    ensures { TriesTo m first.now second.now k q to table.old table.new result }
{
    let white = q.white;
    let x = again(taken == 1, to, q.first);
    let y = again(taken == 2, to, q.second);
    let shut = struck(m, white, x, y, to);
    let others = still_black(m, white, x, y);
    let mut settled: u32 = 0;
    let mut saving: u64 = 0;
    let mut harmless: u64 = 0;
    for s in squares_of(squares) {
        let lost = lose_one(
            m,
            k,
            q,
            taken,
            to,
            s,
            white,
            x,
            y,
            others,
            shut,
            saving,
            harmless,
            first,
            second,
            &mut *table,
        );
        settled += lost.settled;
        saving = lost.saving;
        harmless = lost.harmless;
    }
    settled
}
