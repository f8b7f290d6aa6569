// A monitor's remainders, structs, stored in rows, and read back from them; and the monitor with them.
ghost use Rattle.std.specs.Prelude.{◌≡◌, ◌<◌, ◌≤◌, T, take};
ghost use Rattle.remainders.specs.View.{few_owed};
ghost use Rattle.judge.specs.Stored.{Place, PutObligations, PutLeads, PutStopped, PutRemainder, LeadsAt, StoppedAt, Reading, RemainderAt, Storing, ToRows, StoringHeld, StoredHeld, Copying, CopiedRows, FindingRows, FromRows};
ghost use Rattle.remainders.specs.Rows.{height, part_number};
ghost use Rattle.judge.specs.Progress.{ReadBack};

use crate::monitor::Monitor;
use crate::progress::Progress;
use lines::plan::Plan;
use records::sheet::Sheet;
use remainders::held::Held;
use remainders::obligation::Obligation;
use remainders::remainder::{Remainder, blank_remainder};
use remainders::rows::{
    HEAD, LEADS, Part, SIZE, STOPPED, obligations_at, put_obligation, put_word, row_count, word_at,
};
use remainders::word::{count_word, flag_in, flag_word, lead_word, number_in};

// Stores the first n in a part of row i.
fn put_obligations(
    rows: &mut [u32; SIZE],
    i: usize,
    part: Part,
    n: usize,
    obligations: [Obligation; 8],
)
    requires { Place rows.old i × (n ≤ 8) }
    ensures { PutObligations i (part_number part) n (take n obligations) rows.old rows.new }
{
    for j in 0..n {
        put_obligation(rows, i, part, j, obligations[j]);
    }
    put_word(rows, i, part.start(), count_word(n));
}

// Not one generic function with put_stopped: leads and flags become words in two ways, and a trait for them is longer than both.
fn put_leads(rows: &mut [u32; SIZE], i: usize, leads: [u16; 16])
    requires { Place rows.old i }
    ensures { PutLeads i leads rows.old rows.new }
{
    for (k, lead) in leads.iter().enumerate() {
        put_word(rows, i, LEADS + k, lead_word(*lead));
    }
}

fn put_stopped(rows: &mut [u32; SIZE], i: usize, stopped: [bool; 8])
    requires { Place rows.old i }
    ensures { PutStopped i stopped rows.old rows.new }
{
    for (k, flag) in stopped.iter().enumerate() {
        put_word(rows, i, STOPPED + k, flag_word(*flag));
    }
}

// Stores a remainder in row i.
fn put_remainder(rows: &mut [u32; SIZE], i: usize, r: Remainder)
    requires { Place rows.old i × T (few_owed r) }
    ensures { PutRemainder i r rows.old rows.new }
{
    put_obligations(rows, i, Part::Obligations, r.owed, r.obligations);
    put_obligations(rows, i, Part::Countdowns, r.counting, r.countdowns);
    put_leads(rows, i, r.leads);
    put_stopped(rows, i, r.stopped);
}

// Not one generic function with stopped_at: the words are read in two ways, and only leads ask for a flag.
// The leads of row i that precedes lines have: before `leaders`, where there is a flag.
fn leads_at(rows: &[u32; SIZE], i: usize, leaders: usize, precede: [bool; 16]) -> [u16; 16]
    requires { (i < height) × (leaders ≤ 16) }
    ensures { LeadsAt leaders precede i result rows.now }
{
    let mut all = [0u16; 16];
    for k in 0..leaders {
        all[k] = if precede[k] {
            number_in(word_at(rows, i, LEADS + k))
        } else {
            0
        };
    }
    all
}

// Which of the first clocks are stopped in row i.
fn stopped_at(rows: &[u32; SIZE], i: usize, clocks: usize) -> [bool; 8]
    requires { (i < height) × (clocks ≤ 8) }
    ensures { StoppedAt clocks i result rows.now }
{
    let mut all = [false; 8];
    for k in 0..clocks {
        all[k] = flag_in(word_at(rows, i, STOPPED + k));
    }
    all
}

// The remainder of row i; places that the plan's sheet doesn't use are blank.
fn remainder_at(rows: &[u32; SIZE], i: usize, plan: Plan) -> Remainder
    requires { Reading rows.now i }
    ensures { RemainderAt plan i result rows.now }
{
    let owed = row_count(rows, i, Part::Obligations);
    let counting = row_count(rows, i, Part::Countdowns);
    Remainder {
        owed,
        obligations: obligations_at(rows, i, Part::Obligations, owed),
        counting,
        countdowns: obligations_at(rows, i, Part::Countdowns, counting),
        leads: leads_at(rows, i, plan.leaders, plan.precede),
        stopped: stopped_at(rows, i, plan.clocks),
    }
}

// Stores the first n remainders in the first rows of the first side.
fn to_rows(rows: &mut [u32; SIZE], n: usize, remainders: [Remainder; 32])
    requires { Storing rows.old n remainders }
    ensures { ToRows n remainders rows.old rows.new }
{
    for k in 0..n {
        put_remainder(rows, HEAD + k, remainders[k]);
    }
}

// Stores those held in the first side.
pub(crate) fn store_held(rows: &mut [u32; SIZE], count: Option<usize>, remainders: [Remainder; 32])
    requires { StoringHeld rows.old count remainders }
    ensures { StoredHeld count remainders rows.old rows.new }
{
    if let Some(n) = count {
        to_rows(rows, n, remainders);
    }
}

// The remainders of n rows from row `from` on, and blank ones past them.
fn copy_rows(rows: &[u32; SIZE], from: usize, n: usize, plan: Plan) -> [Remainder; 32]
    requires { Copying rows.now from n }
    ensures { CopiedRows plan from n result rows.now }
{
    let mut all = [blank_remainder(); 32];
    for k in 0..n {
        all[k] = remainder_at(rows, from + k, plan);
    }
    all
}

// The remainders of the rows found from row `from` on; none once exhausted.
pub(crate) fn from_rows(
    rows: &[u32; SIZE],
    from: usize,
    count: Option<usize>,
    plan: Plan,
) -> [Remainder; 32]
    requires { FindingRows rows.now count from }
    ensures { FromRows plan count from result rows.now }
{
    copy_rows(rows, from, count.unwrap_or(0), plan)
}

// The monitor that is kept in rows, its remainders read back from them.
pub fn read_back(sheet: Sheet, progress: Progress, plan: Plan, rows: &[u32; SIZE]) -> Monitor
    requires { FindingRows rows.now progress.count progress.from }
    ensures { ReadBack sheet progress plan result rows.now }
{
    // through a variable: the borrow checker does not cover an array that goes straight from field to field
    let tags = progress.tags;
    Monitor {
        sheet,
        instants: progress.instants,
        tags,
        held: Held {
            count: progress.count,
            remainders: from_rows(rows, progress.from, progress.count, plan),
        },
    }
}
