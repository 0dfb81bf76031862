// The request of one input line.
#![tactic(auto)]

mod fields;
mod shape;

ghost use Rattle.std.specs.Prelude.{◌≡◌, length};
ghost use Rattle.lines.specs.Grammar.{request_of, keyed_of, number_request};
ghost use Rattle.desk_refusals.specs.Numbers.{by_number};

use check_digits::is_right;
use desk_refusals::Refusal;
use fields::{as_white, colour_code, man_code, number_in, side_code, square_named};
use position::{Position, one_man};
use shape::shaped;

// What a line asks: to look a position up, or for the position of a man's number. A wrong byte in a position's part puts it out of
// range, and the position is refused with it.
#[derive(Clone, Copy)]
pub enum Request {
    LookUp(Position),
    Back(u8, u32),
}

// The request of a line of any length; its newline is no part of it.
pub fn parse(line: &[u8]) -> Result<Request, Refusal>
    ensures { by_number result ≡ request_of line.now }
{
    if shaped(b". . .. .. ..", line) {
        return Ok(Request::LookUp(keyed(line)));
    }
    if shaped(b". # 0000000", line) {
        return number_request(line);
    }
    Err(Refusal::BadLine)
}

// The parts of a line with the shape of a position line.
fn keyed(line: &[u8]) -> Position
    requires { length line.now ≡ 12 }
    ensures { result ≡ keyed_of line.now }
{
    one_man(
        man_code(as_white(line[0])),
        colour_code(line[0]),
        side_code(line[2]),
        square_named(line[4], line[5]),
        square_named(line[7], line[8]),
        square_named(line[10], line[11]),
    )
}

// The request of a line with the shape of a number line: a wrong check comes before a wrong man.
fn number_request(line: &[u8]) -> Result<Request, Refusal>
    requires { length line.now ≡ 11 }
    ensures { by_number result ≡ number_request line.now }
{
    let five = number_in(&line[4..9]);
    let check = number_in(&line[9..11]);
    if !is_right(five * 100 + check) {
        return Err(Refusal::BadCheck);
    }
    let kind = man_code(line[0]);
    if kind < 4 {
        return Ok(Request::Back(kind, five));
    }
    Err(Refusal::BadMan)
}
