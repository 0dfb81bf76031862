// One step of the fill: the pass for a depth, and what it hands back.
ghost use Rattle.std.specs.Prelude.{◌≡◌, ◌<◌, ◌≤◌};
ghost use Rattle.table_theory.specs.Tables.{ended as ended_of};
ghost use Rattle.endings.specs.Answers.{result_of};
ghost use Rattle.working_back.specs.Admitted.{over, Admitted};
ghost use Rattle.working_back.specs.Back.{Backwards};
ghost use Rattle.filling.specs.Steps.{Hands, step_as};
ghost use Rattle.filling.specs.Stepping.{last_of, step_over};
ghost use Rattle.desk_refusals.specs.Numbers.{by_number};

use super::bytes::clear;
use super::pass::some_settles;
use super::ways::{Way, pass_in};
use desk_refusals::Refusal;
use position::Men;
use table_theory::Progress;

// The first depth that no byte holds.
pub const DEPTHS: u8 = 254;

// Stages of a progress: any other than the first two is that 10 was given.
pub const GOING: u8 = 0;

pub const DONE: u8 = 1;

pub const GAVE_TEN: u8 = 2;

// What a call says: how many numbers it settled, filling going on; or how filling ends, or a refusal.
#[derive(Clone, Copy)]
pub enum Stepped {
    Settled(u32),
    Says(Result<Option<u8>, Refusal>),
}

// What a call hands back.
#[derive(Clone, Copy)]
pub struct Step {
    pub said: Stepped,
    pub progress: Progress,
}

// How filling ends where the last depth settled is `last` - 1.
pub fn ended(last: u8) -> Result<Option<u8>, Refusal>
    ensures { by_number result ≡ result_of (ended_of last) }
{
    if last == 0 {
        return Ok(None);
    }
    Ok(Some(last - 1))
}

// What counts as the last depth settled before the step for depth k: the one before it, unless something lent is as
// deep.
fn last_before(k: u8, last: u8, deepest: u8) -> u8
    requires { k ≤ 254 }
    ensures { result ≡ last_of k last deepest }
{
    if k == 0 {
        return 0;
    }
    if deepest < 1 + k {
        return k;
    }
    last
}

pub fn progress_at(stage: u8, k: u8, last: u8) -> Progress
    ensures { result ≡ record { stage = stage; next = k; last = last } }
{
    Progress {
        stage,
        next: k as u16,
        last,
    }
}

// The step for a depth that a byte holds.
fn step_below(
    way: Way,
    m: Men,
    k: u8,
    last: u8,
    deepest: u8,
    first: &[u8],
    second: &[u8],
    table: &mut [u8],
) -> Step
    requires { (k < 254) × Admitted m first.now second.now table.old × (way ≡ Way.Back → Backwards m first.now second.now k table.old) }
    ensures { Hands (step_over (over m first.now second.now) deepest k last table.old) (step_as result) table.new }
{
    let before = last_before(k, last, deepest);
    let settled = pass_in(way, m, k, first, second, &mut *table);
    if settled != 0 {
        let on = progress_at(GOING, k + 1, k + 1);
        return Step {
            said: Stepped::Settled(settled),
            progress: on,
        };
    }
    if deepest < 2 + k {
        let end = ended(before);
        let over = progress_at(DONE, k, before);
        return Step {
            said: Stepped::Says(end),
            progress: over,
        };
    }
    let on = progress_at(GOING, k + 1, before);
    Step {
        said: Stepped::Settled(0),
        progress: on,
    }
}

// The step for depth 254, which no byte holds: nothing lent is as deep.
fn last_step(m: Men, last: u8, deepest: u8, first: &[u8], second: &[u8], table: &mut [u8]) -> Step
    requires { (deepest < 256) × Admitted m first.now second.now table.old }
    ensures { Hands (step_over (over m first.now second.now) deepest 254 last table.old) (step_as result) table.new }
{
    let before = last_before(DEPTHS, last, deepest);
    if some_settles(m, DEPTHS, first, second, &*table) {
        clear(&mut *table);
        let over = progress_at(GAVE_TEN, DEPTHS, before);
        return Step {
            said: Stepped::Says(Err(Refusal::TooDeep)),
            progress: over,
        };
    }
    let end = ended(before);
    let over = progress_at(DONE, DEPTHS, before);
    Step {
        said: Stepped::Says(end),
        progress: over,
    }
}

// The step for depth k, on any bytes, its pass in the way chosen; `deepest` is the greatest byte lent.
pub fn step_at(
    way: Way,
    m: Men,
    k: u8,
    last: u8,
    deepest: u8,
    first: &[u8],
    second: &[u8],
    table: &mut [u8],
) -> Step
    requires { (k ≤ 254) × (deepest < 256) × Admitted m first.now second.now table.old × (way ≡ Way.Back → Backwards m first.now second.now k table.old) }
    ensures { Hands (step_over (over m first.now second.now) deepest k last table.old) (step_as result) table.new }
{
    if k < DEPTHS {
        return step_below(way, m, k, last, deepest, first, second, &mut *table);
    }
    last_step(m, last, deepest, first, second, &mut *table)
}
