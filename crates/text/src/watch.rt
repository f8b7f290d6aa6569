// All that *watch* prints: a line per instant, with its number, the answer, live, and clear or owed.
ghost use Rattle.std.specs.Prelude.{◌≡◌};
ghost use Rattle.text.specs.Output.{printed, printed_as, watch_text};
ghost use Rattle.text.specs.Built.{replies_text, RepliesReady};

use crate::line::{answer_line, refusal_line};
use crate::put::put_line;
use judge::monitor::{Monitor, observe, open};
use records::number;
use records::record::record_bytes;

// '4000 holding 32 clear' and its newline.
const LONGEST_LINE: usize = 22;

// The longest text: a line for each of 4,000 instants, and a refusal.
pub const WATCH_ROOM: usize = number::MAX_INSTANTS * LONGEST_LINE + crate::line::LONGEST_REFUSAL;

// The lines of a log's records, up to the first that is refused.
fn put_replies(opened: Monitor, log: &[u8], out: &mut [u8]) -> usize
    requires { RepliesReady opened log.now out.old }
    ensures { printed_as result out.new ≡ printed (replies_text opened log.now) out.old }
{
    let mut monitor = opened;
    let mut end = 0;
    let mut at = 0;
    while at < log.len() {
        let record = record_bytes(log, at);
        let given = observe(monitor, record);
        match given.reply {
            Err(refusal) => {
                return put_line(out, end, refusal_line(u8::from(refusal)));
            }
            Ok(answer) => {
                monitor = given.monitor;
                end = put_line(out, end, answer_line(monitor.instants, answer));
                at += record.len();
            }
        }
    }
    end
}

// Puts what *watch* prints for a sheet and a log at the buffer's front, and tells its length; later bytes stay.
pub fn watch_text(sheet: &[u8], log: &[u8], out: &mut [u8; WATCH_ROOM]) -> usize
    ensures { printed_as result out.new ≡ printed (watch_text sheet.now log.now) out.old }
{
    let given = open(sheet);
    match given.reply {
        Err(refusal) => put_line(out, 0, refusal_line(u8::from(refusal))),
        Ok(_) => put_replies(given.monitor, log, out),
    }
}
