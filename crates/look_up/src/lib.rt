// Looking a position up in its ending's table: of one man, of two, or of king and pawn.
#![tactic(auto)]

ghost use Rattle.std.specs.Prelude.{◌≡◌};
ghost use Rattle.symmetry.specs.Symmetry.{inverse};
ghost use Rattle.position.specs.Keyed.{man_kind};
ghost use Rattle.position.specs.Refusals.{placing_with};
ghost use Rattle.position.specs.Maps.{symmetry_of};
ghost use Rattle.endings.specs.Answers.{mapped_advice, answer_of, look_up_of};
ghost use Rattle.index.specs.Arranging.{Normalises};
ghost use Rattle.four_men.specs.Lending.{lent};
ghost use Rattle.four_men.specs.Answers.{look_up_with};
ghost use Rattle.look_up.specs.Told.{told_of};
ghost use Rattle.desk_refusals.specs.Numbers.{by_number};

use answers::Answer;
use deciding::{PAWN, pawn_verdict};
use desk_refusals::Refusal;
use four_men::{lengths_fit, material_for};
use index::{NormalPlace, normal_place, pawn_normal_place};
use movegen::checked;
use pawn_moves::pawn_byte;
use position::{Map, Position, in_check, man_in, other, placing_with};
use rules::{Move, promotion_of};
use successors::{Verdict, byte_at, verdict_on};

// What a byte that stands says of the side to move.
fn answer(byte: u8, advice: Option<Move>) -> Result<Answer, Refusal>
    ensures { by_number result ≡ answer_of byte advice }
{
    if byte <= 1 {
        return Ok(Answer::Draw(advice));
    }
    if byte % 2 == 1 {
        return Ok(Answer::Win(byte - 2, advice));
    }
    Ok(Answer::Loss(byte - 2, advice))
}

// The move of the normal position, on the board as keyed.
fn carried_back(via: Map, advice: Option<Move>) -> Option<Move>
    ensures { result ≡ mapped_advice (inverse (symmetry_of via)) advice }
{
    match advice {
        None => None,
        Some(m) => Some(promotion_of(via.back(m.from), via.back(m.to), m.takes, m.becomes)),
    }
}

// What a verdict on the normal position's byte says of the position as keyed.
fn told(via: Map, byte: u8, verdict: Verdict) -> Result<Answer, Refusal>
    ensures { by_number result ≡ told_of via byte verdict }
{
    match verdict {
        Verdict::Wrong => Err(Refusal::Inconsistent),
        Verdict::Right(advice) => answer(byte, carried_back(via, advice)),
    }
}

// A position with a pawn; the tables that it borrows are one run, the first.
fn look_up_pawn(p: Position, table: &[u8], first: &[u8], second: &[u8]) -> Result<Answer, Refusal>
    ensures { man_kind p ≡ 4 → by_number result ≡ look_up_with (lent first.now second.now) table.now p }
{
    placing_with(p)?;
    if in_check(p, other(p.side)) {
        return Err(Refusal::OtherInCheck);
    }
    let normal = pawn_normal_place(p);
    let m = normal.men;
    let q = normal.place;
    if !lengths_fit(material_for(m), table, first, second) {
        return Err(Refusal::TableLength);
    }
    let byte = pawn_byte(q, table);
    told(normal.via, byte, pawn_verdict(q, byte, table, first))
}

// One of pieces that only refusal 6 may meet, by its normal place: whether the side that does not move is in check is asked there too.
fn look_up_normal(
    normal: NormalPlace,
    table: &[u8],
    first: &[u8],
    second: &[u8],
) -> Result<Answer, Refusal>
    ensures { (p : Position) → placing_with p ≡ 0 → (man_kind p ≡ 4 → ⊥) → Normalises p normal → by_number result ≡ look_up_with (lent first.now second.now) table.now p }
{
    let m = normal.men;
    let q = normal.place;
    let via = normal.via;
    if checked(m, q, other(q.side)) {
        return Err(Refusal::OtherInCheck);
    }
    if !lengths_fit(material_for(m), table, first, second) {
        return Err(Refusal::TableLength);
    }
    let byte = byte_at(m, q, table);
    let verdict = verdict_on(m, q, byte, table, first, second);
    told(via, byte, verdict)
}

// The value, the depth and a move, by the table of the position's own ending and the lent ones; or a refusal, 1 to 7,
// 11 or 18. It asks the normal position, so that one study has one move. The normal place is made before the refusals are
// asked, from the bytes as they were handed over: a copy kept for later would be waited for.
pub fn look_up_with(
    p: Position,
    table: &[u8],
    first: &[u8],
    second: &[u8],
) -> Result<Answer, Refusal>
    ensures { by_number result ≡ look_up_with (lent first.now second.now) table.now p }
{
    let slot = p.first;
    let man = man_in(slot);
    if man.kind == PAWN {
        return look_up_pawn(p, table, first, second);
    }
    let normal = normal_place(p);
    placing_with(p)?;
    look_up_normal(normal, table, first, second)
}

// The same for the parts that keep to three men, whose tables borrow none: two men are refused 1, and so is a
// pawn.
pub fn look_up(table: &[u8], p: Position) -> Result<Answer, Refusal>
    ensures { by_number result ≡ look_up_of table.now p }
{
    let first = p.first;
    let second = p.second;
    let man = man_in(first);
    if man.kind == PAWN {
        return Err(Refusal::BadMan);
    }
    match second {
        Some(_) => Err(Refusal::BadMan),
        None => look_up_with(p, table, table, table),
    }
}
