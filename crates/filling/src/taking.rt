// The fill in steps, one depth each, for a caller that shows how far it is.
ghost use Rattle.std.specs.Prelude.{◌≡◌, min};
ghost use Rattle.table_theory.specs.Steps.{going_on, step_from};
ghost use Rattle.rules.specs.Chess.{chess};
ghost use Rattle.position.specs.Posed.{material_for};
ghost use Rattle.four_men.specs.Lending.{lent, borrowed};
ghost use Rattle.four_men.specs.Reading.{holds_depth};
ghost use Rattle.four_men.specs.Steps.{start_with, step_with};
ghost use Rattle.working_back.specs.Admitted.{over, Admitted};
ghost use Rattle.filling.specs.Steps.{Hands, step_as, taken_of, refusing, start_of, step_of};
ghost use Rattle.filling.specs.Handed.{handed};
ghost use Rattle.desk_refusals.specs.Numbers.{number_of};

use super::bytes::start;
use super::deepest::deepest_lent;
use super::steps::{DEPTHS, DONE, GOING, Step, Stepped, ended, progress_at, step_at};
use super::ways::Way;
use desk_refusals::Refusal;
use four_men::lengths_fit;
use index::{is_given, men_of, size_of};
use numbering::Material;
use position::Men;
use table_theory::Progress;

// A refusal, the progress as it was.
fn refuse(r: Refusal, progress: Progress) -> Step
    ensures { step_as result ≡ refusing (number_of r) progress }
{
    Step {
        said: Stepped::Says(Err(r)),
        progress,
    }
}

// Sets every legal number to 1 and the rest to 0. Refusals 1 and 7 leave the table as it was.
pub fn start_with(m: Material, table: &mut [u8]) -> Step
    ensures { Hands (handed table.old (going_on 0 0) (start_with m table.old)) (step_as result) table.new }
{
    let progress = progress_at(GOING, 0, 0);
    if !is_given(m) {
        return refuse(Refusal::BadMan, progress);
    }
    if table.len() != size_of(m) as usize {
        return refuse(Refusal::TableLength, progress);
    }
    start(men_of(m), &mut *table);
    Step {
        said: Stepped::Settled(0),
        progress,
    }
}

// The depth of the next step: one above 254 counts as 254.
fn next_depth(next: u16) -> u8
    ensures { result ≡ min next 254 }
{
    next.min(u16::from(DEPTHS)) as u8
}

// Once a step has said done, or has given 10 and cleared the table, later ones repeat it and write nothing.
fn step_from(m: Men, progress: Progress, first: &[u8], second: &[u8], table: &mut [u8]) -> Step
    requires { Admitted m first.now second.now table.old }
    ensures { Hands (taken_of (step_from chess (over m first.now second.now) (holds_depth (borrowed (material_for m) (lent first.now second.now))) progress table.old)) (step_as result) table.new }
{
    match progress.stage {
        GOING => {
            let k = next_depth(progress.next);
            let deepest = deepest_lent(m, first, second);
            step_at(
                Way::Passes,
                m,
                k,
                progress.last,
                deepest,
                first,
                second,
                &mut *table,
            )
        },
        DONE => {
            let end = ended(progress.last);
            Step {
                said: Stepped::Says(end),
                progress,
            }
        },
        _ => refuse(Refusal::TooDeep, progress),
    }
}

// One step, on any bytes and any progress: it reads the lent tables' bytes as they stand, accepted or not, where the
// whole fill gives 17. Refusals 1 and 7 leave the table and the progress as they were.
pub fn step_with(
    m: Material,
    progress: Progress,
    first: &[u8],
    second: &[u8],
    table: &mut [u8],
) -> Step
    ensures { Hands (handed table.old progress (step_with m (lent first.now second.now) table.old progress)) (step_as result) table.new }
{
    if !is_given(m) {
        return refuse(Refusal::BadMan, progress);
    }
    if !lengths_fit(m, &*table, first, second) {
        return refuse(Refusal::TableLength, progress);
    }
    step_from(men_of(m), progress, first, second, &mut *table)
}

// With one man.
pub fn start_filling(kind: u8, table: &mut [u8]) -> Step
    ensures { Hands (start_of kind table.old) (step_as result) table.new }
{
    start_with(Material::One(kind), &mut *table)
}

// One man borrows nothing.
pub fn take_step(kind: u8, table: &mut [u8], progress: Progress) -> Step
    ensures { Hands (step_of kind table.old progress) (step_as result) table.new }
{
    let none: [u8; 0] = [];
    step_with(Material::One(kind), progress, &none, &none, &mut *table)
}
