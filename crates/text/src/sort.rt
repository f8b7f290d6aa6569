// All that *sort* prints: the bytes of a sheet whose lines are sorted, repeats dropped.
ghost use Rattle.text.specs.Output.{SortPrinted};

use crate::line::refusal_line;
use crate::put::put_line;
use records::number;
use records::sort::sort_sheet;

// The longest text is the longest sheet.
pub const SORT_ROOM: usize = number::MAX_SHEET;

// Puts what *sort* prints for a sheet at the buffer's front, and tells its length; later bytes stay.
pub fn sort_text(sheet: &[u8], out: &mut [u8; SORT_ROOM]) -> usize
    ensures { SortPrinted sheet.now out.old result out.new }
{
    match sort_sheet(sheet, out) {
        Err(refusal) => put_line(out, 0, refusal_line(u8::from(refusal))),
        Ok(size) => size,
    }
}
