// One line of the desk, answered on a lent slip.
ghost use Rattle.sledgewren.specs.Words.{WroteSlip, line_answer};

use adjudication::answer_line;

const SLIP_BYTES: usize = 16;

// The answer where another length is lent.
const NO_SLIP: u32 = 65535;

// `held` is the man whose table the lent table is. With another slip than 16 bytes nothing is written.
pub fn sledgewren_answer_line(held: u8, line: &[u8], table: &mut [u8], slip: &mut [u8]) -> u32
    ensures { WroteSlip (line_answer line.now held table.old slip.old) result table.new slip.new }
{
    if slip.len() != SLIP_BYTES {
        return NO_SLIP;
    }
    let reply = answer_line(line, held, &mut *table);
    let written = reply.slip;
    let bytes = written.bytes;
    slip.copy_from_slice(&bytes);
    written.len as u32 + reply.held as u32 * 0x100
}
