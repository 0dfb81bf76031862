// The squares from which the piece on a square may have come.
ghost use Rattle.std.specs.Prelude.{◌≡◌, false, cond, not, ◌&&◌, ℕ, ◌-◌, ◌<◌, T, eqb};
ghost use Rattle.board.specs.Reach.{reaches};
ghost use Rattle.board.specs.Sets.{has};
ghost use Rattle.rules.specs.Rules.{legal};
ghost use Rattle.position.specs.Posed.{board_in};
ghost use Rattle.retracting.specs.Retracting.{Seat, LegalLeft, loser as loser_of, Retracts, place_before, CompleteApart, Steps, lone_of, left_place};

use board::{attacks, minus, targets, without};
use movegen::{checked, king_at, occupied_at, passing_of, place_after};
use position::{Men, Place, other};

const KING: u8 = 5;

// Whether the place is legal: the kings do not touch, and the side not to move is not in check.
fn is_legal(m: Men, q: Place) -> bool
    ensures { CompleteApart m q → result ≡ legal (board_in m q) }
{
    if attacks(0, KING, q.white, q.black) {
        return false;
    }
    !checked(m, q, other(q.side))
}

// Where a man stands: on the target if he was taken there.
pub fn again(here: bool, to: u8, s: u8) -> u8
    ensures { result ≡ cond here to s }
{
    if here { to } else { s }
}

// The place before a move: the piece on `to` put back on s, and on `to` the man it took there: 1 the first, 2 the second, 0 none.
pub fn place_before(q: Place, taken: u8, s: u8, to: u8) -> Place
    ensures { result ≡ place_before q taken s to }
{
    let o = place_after(q, to, s);
    Place {
        side: o.side,
        white: o.white,
        black: o.black,
        first: again(taken == 1, to, o.first),
        second: again(taken == 2, to, o.second),
    }
}

// Whether a piece now on `to` left a legal position from s.
fn was_legal(m: Men, q: Place, taken: u8, to: u8, s: u8) -> bool
    ensures { CompleteApart m (place_before q taken s to) → result ≡ legal (board_in m (place_before q taken s to)) }
{
    is_legal(m, place_before(q, taken, s, to))
}

// Those of the squares that a piece now on `to` left a legal position from.
fn legal_from(m: Men, q: Place, taken: u8, to: u8, squares: u64) -> u64
    ensures { ((s : ℕ) → s < 64 → T (has squares s) → CompleteApart m (place_before q taken s to)) → (s : ℕ) → s < 64 → has result s ≡ (has squares s && legal (board_in m (place_before q taken s to))) }
{
    passing_of(squares, |s| was_legal(m, q, taken, to, s))
}

// The same, where a man of the mover's on `at` attacks the king: only from the squares between, since from any other he did so already.
fn legal_between(
    m: Men,
    q: Place,
    taken: u8,
    to: u8,
    squares: u64,
    stood: u64,
    kind: u8,
    at: u8,
    king: u8,
) -> u64
    ensures { ((s : ℕ) → s < 64 → T (has squares s) → CompleteApart m (place_before q taken s to)) → (s : ℕ) → s < 64 → has result s ≡ ((has squares s && (reaches (has stood) kind at s && reaches (has stood) kind king s)) && legal (board_in m (place_before q taken s to))) }
{
    let between = targets(stood, kind, at) & targets(stood, kind, king);
    legal_from(m, q, taken, to, squares & between)
}

// The square of a man of the mover's who has not moved; off the board otherwise.
fn still(colour: u8, owner: u8, to: u8, square: u8) -> u8
    ensures { result ≡ cond (eqb colour owner && not (eqb square to)) square 64 }
{
    if colour != owner {
        return 64;
    }
    if square == to {
        return 64;
    }
    square
}

// Whether a man on s attacks t: told before anything is handed over where he is not on the board.
fn strikes(occ: u64, kind: u8, s: u8, t: u8) -> bool
    ensures { result ≡ reaches (has occ) kind s t }
{
    if 64 <= s {
        return false;
    }
    attacks(occ, kind, s, t)
}

// What stood there before the move, but for the piece that moved: where it took a man, he stood on its target.
pub fn stood_before(occ: u64, taken: u8, to: u8) -> u64
    ensures { (u : ℕ) → u < 64 → has result u ≡ (has occ u && not (eqb taken 0 && eqb u to)) }
{
    if taken == 0 {
        return without(occ, to);
    }
    occ
}

// The same as `legal_from`, quicker: where no other man of the mover's attacks the king, all but those from which the piece did.
fn unchecking(
    m: Men,
    q: Place,
    taken: u8,
    kind: u8,
    owner: u8,
    to: u8,
    occ: u64,
    squares: u64,
) -> u64
    ensures { LegalLeft m q taken → Seat m q kind owner to → owner ≡ 1 - q.side → ((taken ≡ 0 → ⊥) → loser_of m taken ≡ q.side) → Steps m q kind to occ squares → (s : ℕ) → s < 64 → has result s ≡ (has squares s && legal (board_in m (place_before q taken s to))) }
{
    let king = king_at(q, q.side);
    let stood = stood_before(occ, taken, to);
    let first = still(0, owner, to, q.first);
    if strikes(stood, m.first, first, king) {
        return legal_between(m, q, taken, to, squares, stood, m.first, first, king);
    }
    let second = still(m.colour, owner, to, q.second);
    if strikes(stood, m.second, second, king) {
        return legal_between(m, q, taken, to, squares, stood, m.second, second, king);
    }
    minus(squares, targets(stood, kind, king))
}

// Whose the man was who was taken.
pub fn loser(m: Men, taken: u8) -> u8
    ensures { result ≡ loser_of m taken }
{
    if taken == 1 { 0 } else { m.colour }
}

// Exactly the squares from which the piece on `to`, of this kind and owner, may have come, taking this man or none: put back there, the position is legal
// and has that move.
pub fn sources(m: Men, q: Place, taken: u8, kind: u8, owner: u8, to: u8) -> u64
    ensures { LegalLeft m q taken → Seat m q kind owner to → Retracts m q taken to result }
{
    if owner == q.side {
        return 0;
    }
    if (taken != 0) & (loser(m, taken) != q.side) {
        return 0;
    }
    let occ = occupied_at(q);
    let free = minus(targets(occ, kind, to), occ);
    if free == 0 {
        return 0;
    }
    unchecking(m, q, taken, kind, owner, to, occ, free)
}

// The men of the ending of a man left alone: with the first taken it is the second's.
pub fn lone_men(m: Men, taken: u8) -> Men
    ensures { result ≡ lone_of m taken }
{
    Men {
        first: again(taken == 1, m.second, m.first),
        second: 4,
        colour: 0,
    }
}

// The place of the man left alone, as what a capture leaves of two: the second may be Black's, and then the colours are exchanged.
pub fn left_place(m: Men, taken: u8, t: Place) -> Place
    ensures { result ≡ left_place m taken t }
{
    if taken != 1 {
        return Place {
            side: t.side,
            white: t.white,
            black: t.black,
            first: t.first,
            second: 64,
        };
    }
    if m.colour == 1 {
        return Place {
            side: other(t.side),
            white: t.black,
            black: t.white,
            first: 64,
            second: t.first,
        };
    }
    Place {
        side: t.side,
        white: t.white,
        black: t.black,
        first: 64,
        second: t.first,
    }
}
