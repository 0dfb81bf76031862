// One line to its slip, over a held table.
#![tactic(auto)]

ghost use Rattle.std.specs.Prelude.{◌≡◌};
ghost use Rattle.position.specs.Keyed.{man_kind};
ghost use Rattle.adjudication.specs.Reply.{Gives, look_up_reply, filled_reply};
ghost use Rattle.adjudication.specs.TrueSlip.{LinePromise};
ghost use Rattle.desk_refusals.specs.Numbers.{by_number};

use desk_refusals::Refusal;
use filling::fill_one_back;
use index::position_of;
use lines::{Request, parse};
use look_up::look_up;
use position::{Position, man_in, standing_refusal};
use slips::{Slip, answer_slip, placed_slip};

// The man whose table is held; none from here on.
const NONE: u8 = 4;

// The slip of a line, and the man whose table is held afterwards.
#[derive(Clone, Copy)]
pub struct Reply {
    pub slip: Slip,
    pub held: u8,
}

// A position looked up in a table that filling just left.
fn after_fill(p: Position, kind: u8, filled: Result<Option<u8>, Refusal>, table: &[u8]) -> Reply
    requires { kind ≡ man_kind p }
    ensures { Gives result (filled_reply p (by_number filled) table.now) }
{
    match filled {
        Ok(_) => Reply {
            slip: answer_slip(look_up(table, p)),
            held: kind,
        },
        Err(r) => Reply {
            slip: answer_slip(Err(r)),
            held: NONE,
        },
    }
}

// A position line: its man's table is filled where it is not the one held. A position that is refused asks for no table.
fn look_up_line(p: Position, held: u8, table: &mut [u8]) -> Reply
    ensures { Gives result (look_up_reply p held table.old) × (table.new ≡ (look_up_reply p held table.old).table) }
{
    let first = p.first;
    let man = man_in(first);
    let kind = man.kind;
    if kind == held {
        return Reply {
            slip: answer_slip(look_up(&*table, p)),
            held,
        };
    }
    match standing_refusal(p) {
        Err(r) => Reply {
            slip: answer_slip(Err(r)),
            held,
        },
        Ok(()) => {
            let filled = fill_one_back(kind, &mut *table);
            after_fill(p, kind, filled, &*table)
        },
    }
}

// The slip of a line of any bytes and any length; the newline is not part of it. `held` is the man whose table the lent table is.
pub fn answer_line(line: &[u8], held: u8, table: &mut [u8]) -> Reply
    ensures { LinePromise line.now held table.old result table.new }
{
    let request = parse(line);
    match request {
        Ok(Request::LookUp(p)) => look_up_line(p, held, &mut *table),
        Ok(Request::Back(man, n)) => Reply {
            slip: placed_slip(position_of(man, n)),
            held,
        },
        Err(r) => Reply {
            slip: answer_slip(Err(r)),
            held,
        },
    }
}
