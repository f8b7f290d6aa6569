// What is due of a sheet and a log, from the judge of the whole run.
ghost use Rattle.std.specs.Prelude.{◌≤◌};

use filler::run::Run;
use filler::verdict::Verdict;
use filler::whole_run::judge as verdict_of;
use records::refusal::Refusal;
use records::sheet::Sheet;

// An answer, live, clear: as bytes.
pub type Entry = [u8; 3];

// The entry of no answer.
pub const NO_ANSWER: Entry = [0, 0, 0];

pub const EXHAUSTED: Entry = [1, 0, 0];

pub const BROKEN: Entry = [2, 0, 0];

// What is due. (One array is by instant, the other by clock.)
#[derive(Clone, Copy)]
pub struct Due {
    // The refusal, if any.
    pub refusal: Option<Refusal>,
    // The instants taken.
    pub taken: usize,
    // The entries of opening and of every instant.
    pub entries: [u8; 51],
    // How many of the remainders owe each clock a tick.
    pub owing: [usize; 8],
    // Whether the lines are all counted, false where a refusal is due; it is of the sheet, and says nothing of the refusal beside it.
    pub is_counted: bool,
}

// Live is 32 at most, so nothing of it is cut off.
pub fn holding(live: usize, clear: bool) -> Entry {
    [3, (live % 256) as u8, u8::from(clear)]
}

fn entry_of(v: Verdict) -> Entry {
    match v {
        Verdict::Exhausted => EXHAUSTED,
        Verdict::Broken => BROKEN,
        Verdict::Holding { live, clear } => holding(live, clear),
    }
}

// The first n instants.
pub fn beginning(run: Run, n: usize) -> Run {
    let mut next = run;
    next.count = n;
    next
}

// The entries of the beginnings of a run, 0 past its end.
pub fn entries_of(sheet: Sheet, run: Run) -> [u8; 51] {
    let mut entries = [0; 51];
    for n in 0..17 {
        if n <= run.count {
            let entry = entry_of(verdict_of(sheet, beginning(run, n)));
            entries[3 * n..3 * n + 3].copy_from_slice(&entry);
        }
    }
    entries
}

// The number that is due for a refusal, from the documents: written here once more, so that the library's own is tested against it.
fn number_due(refusal: Refusal) -> u8 {
    match refusal {
        Refusal::TornSheet => 1,
        Refusal::NotClocks => 2,
        Refusal::ClocksLength => 3,
        Refusal::ClockCount => 4,
        Refusal::LineKind => 5,
        Refusal::LineLength => 6,
        Refusal::ClockNumber => 7,
        Refusal::SeventeenthLine => 8,
        Refusal::NinthSporadic => 9,
        Refusal::ShortBuffer => 10,
        Refusal::MonitorLimits => 11,
        Refusal::NotOneRecord => 12,
        Refusal::NotInstant => 13,
        Refusal::InstantLength => 14,
        Refusal::TickByte => 15,
        Refusal::InstantsHeld => 16,
        Refusal::NotAbove => 17,
        Refusal::NoCount => 18,
        Refusal::NotNext => 19,
    }
}

// The number that is due, 0 of none.
pub fn number_of(refusal: Option<Refusal>) -> u8 {
    refusal.map_or(0, number_due)
}

// A result as the calls for C pack it.
pub fn pack(number: u8, entry: Entry, taken: usize) -> u64 {
    let [answer, live, clear] = entry;
    let [low, high] = ((taken % 65536) as u16).to_le_bytes();
    u64::from_le_bytes([number, answer, live, clear, low, high, 0, 0])
}

// The entry at a place below 17.
fn entry_at(due: &Due, k: usize) -> Entry {
    match due.entries.chunks_exact(3).nth(k) {
        Some([answer, live, clear]) => [*answer, *live, *clear],
        _ => NO_ANSWER,
    }
}

// The result with the last answer, or the number of the refusal.
pub fn result_due(due: &Due) -> u64 {
    match due.refusal {
        None => pack(0, entry_at(due, due.taken), due.taken),
        Some(refusal) => pack(number_due(refusal), NO_ANSWER, due.taken),
    }
}

// The result where the buffer is too short.
pub fn short_due(due: &Due) -> u64 {
    pack(number_due(Refusal::ShortBuffer), NO_ANSWER, due.taken)
}

// A panel's result; no clock from the eighth on is owed a tick.
pub fn panel_due(due: &Due, clock: u8) -> u64 {
    let owing = due.owing.get(usize::from(clock)).copied().unwrap_or(0);
    let entry = [0, (owing % 256) as u8, 0];
    pack(number_of(due.refusal), entry, due.taken)
}

// The bytes of the entries of the instants taken.
pub fn entry_bytes(due: &Due) -> usize
    ensures { result ≤ 48 }
{
    3 * due.taken.min(16)
}
