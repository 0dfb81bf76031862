// One line of the desk, answered on a lent slip.
ghost use Rattle.sledgewren.specs.Words.{WroteSlip, line_answer};

// `held` is the man whose table the lent table is. With another slip than 16 bytes nothing is written.
#[unsafe(no_mangle)]
pub extern "C" fn sledgewren_answer_line(
    held: u8,
    line: &[u8],
    table: &mut [u8],
    slip: &mut [u8],
) -> u32
    ensures { WroteSlip (line_answer line.now held table.old slip.old) result table.new slip.new }
{
    sledgewren::sledgewren_answer_line(held, line, &mut *table, &mut *slip)
}
