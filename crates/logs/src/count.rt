// How many instants of a log are taken, by reading alone.
ghost use Rattle.logs.specs.Records.{Counted, CountedLog};

use records::next::read_next;
use records::record::record_bytes;
use records::sheet::read_sheet;

// The records before the first that is refused, 4,000 at most.
fn count_instants(log: &[u8], clocks: u8) -> usize
    ensures { Counted log.now clocks result }
{
    let mut count = 0;
    let mut at = 0;
    while at < log.len() {
        let record = record_bytes(log, at);
        if read_next(record, clocks, count).is_err() {
            return count;
        }
        count += 1;
        at += record.len();
    }
    count
}

// The instants taken of a sheet and a log; none where the sheet is refused.
pub(crate) fn count_log(sheet: &[u8], log: &[u8]) -> usize
    ensures { CountedLog sheet.now log.now result }
{
    match read_sheet(sheet) {
        Err(_) => 0,
        Ok(value) => count_instants(log, value.clocks),
    }
}
