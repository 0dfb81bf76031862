// King and pawn: the verdict on a byte by the successors' bytes.
ghost use Rattle.std.specs.Prelude.{◌≡◌, ◌+◌, eqb};
ghost use Rattle.theory.specs.Required.{required_at};
ghost use Rattle.rules.specs.Chess.{chess};
ghost use Rattle.pawn_moves.specs.PawnMoves.{pawn_at, PawnOn, pawn_bytes};
ghost use Rattle.successors.specs.Successors.{verdict_of};
ghost use Rattle.deciding.specs.Deciding.{end_of};

use pawn_moves::{Weighed, end_byte, is_mated, is_stuck, weigh};
use position::Place;
use successors::Verdict;

// The verdict where no successor suits: the byte is the one required only where there is none, and the game over.
fn pawn_over(q: Place, byte: u8) -> Verdict
    ensures { result ≡ end_of byte (pawn_at q) }
{
    if !is_stuck(q) {
        return Verdict::Wrong;
    }
    if byte == end_byte(q) {
        return Verdict::Right(None);
    }
    Verdict::Wrong
}

// The verdict on a byte.
pub fn pawn_verdict(q: Place, byte: u8, table: &[u8], run: &[u8]) -> Verdict
    ensures { PawnOn q → result ≡ verdict_of (pawn_bytes run.now table.now) byte (pawn_at q) }
{
    if byte == 0 {
        return Verdict::Wrong;
    }
    let outcome = weigh(q, byte as u16, table, run);
    match outcome {
        Weighed::Refuted => Verdict::Wrong,
        Weighed::Met(v) => Verdict::Right(Some(v)),
        Weighed::Unmet => pawn_over(q, byte),
    }
}

// Whether the byte is the one required.
pub fn pawn_requires_byte(q: Place, byte: u8, table: &[u8], run: &[u8]) -> bool
    ensures { PawnOn q → result ≡ eqb byte (required_at chess (pawn_bytes run.now table.now) (pawn_at q)) }
{
    let verdict = pawn_verdict(q, byte, table, run);
    match verdict {
        Verdict::Wrong => false,
        Verdict::Right(_) => true,
    }
}

// Whether the rule requires depth k.
pub fn pawn_requires(q: Place, k: u8, table: &[u8], run: &[u8]) -> bool
    ensures { PawnOn q → result ≡ eqb (required_at chess (pawn_bytes run.now table.now) (pawn_at q)) (2 + k) }
{
    if k == 0 {
        return is_mated(q);
    }
    let outcome = weigh(q, 2 + k as u16, table, run);
    match outcome {
        Weighed::Refuted => false,
        Weighed::Met(_) => true,
        Weighed::Unmet => false,
    }
}
