// All that *columns* prints: a line per tag, with its raw word and the count in hundredths of a degree.
ghost use Rattle.std.specs.Prelude.{◌≡◌};
ghost use Rattle.text.specs.Output.{printed, printed_as, columns_text};
ghost use Rattle.text.specs.Built.{TagsReady, PutTags, instants_text, InstantsReady};

use crate::line::{column_line, refusal_line};
use crate::put::put_line;
use records::next::read_next;
use records::number;
use records::record::record_bytes;
use records::sheet::read_sheet;

// '32768 -327.68' and its newline.
const LONGEST_LINE: usize = 14;

// The longest text: a line for each tag of 4,000 instants of eight clocks, and a refusal. (A constant calls no `from`.)
pub const COLUMNS_ROOM: usize = number::MAX_INSTANTS * number::MAX_CLOCKS as usize * LONGEST_LINE
    + crate::line::LONGEST_REFUSAL;

// The lines of an instant's tags, clocks from 0, behind the first `at` bytes; tells where they end.
fn put_tags(out: &mut [u8], at: usize, tags: [i16; 8], clocks: u8) -> usize
    requires { TagsReady out.old at tags clocks }
    ensures { PutTags out.old at tags clocks result out.new }
{
    let mut end = at;
    for tag in &tags[..usize::from(clocks)] {
        end = put_line(out, end, column_line(*tag));
    }
    end
}

// The lines of a log's instants, up to the first that is refused.
fn put_instants(clocks: u8, log: &[u8], out: &mut [u8]) -> usize
    requires { InstantsReady clocks log.now out.old }
    ensures { printed_as result out.new ≡ printed (instants_text clocks log.now) out.old }
{
    let mut taken: usize = 0;
    let mut end = 0;
    let mut at = 0;
    while at < log.len() {
        let record = record_bytes(log, at);
        match read_next(record, clocks, taken) {
            Err(refusal) => {
                return put_line(out, end, refusal_line(u8::from(refusal)));
            }
            Ok(instant) => {
                end = put_tags(out, end, instant.tags, clocks);
                taken += 1;
                at += record.len();
            }
        }
    }
    end
}

// Puts what *columns* prints for a sheet and a log at the buffer's front, and tells its length; later bytes stay.
pub fn columns_text(sheet: &[u8], log: &[u8], out: &mut [u8; COLUMNS_ROOM]) -> usize
    ensures { printed_as result out.new ≡ printed (columns_text sheet.now log.now) out.old }
{
    match read_sheet(sheet) {
        Err(refusal) => put_line(out, 0, refusal_line(u8::from(refusal))),
        Ok(value) => put_instants(value.clocks, log, out),
    }
}
