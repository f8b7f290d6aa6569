// The limits of remainders in rows, refusal 11, tested where they stand.
ghost use Rattle.std.specs.Prelude.{◌≡◌, ◌≤◌, ◌<◌};
ghost use Rattle.tesl.specs.Lists.{below};
ghost use Rattle.judge.specs.Limits.{set_within};
ghost use Rattle.remainders.specs.Rows.{second_side, height, part_number, row_count, row_set};
ghost use Rattle.lent.specs.RowsLimits.{place_fits, lead_fits, RowWithin, EachRowWithin, RowsWithin};

use judge::limits::obligation_within;
use lines::plan::Plan;
use records::number;
use remainders::obligation::{LEAST_DUE, LEAST_WANTED, MOST_DUE, MOST_WANTED};
use remainders::rows::{LEADS, Part, SIZE, obligation_at, row_count, word_at};
use remainders::word::count_in;

// The first n of a part of row i.
fn row_owed_within(
    rows: &[u32; SIZE],
    i: usize,
    part: Part,
    n: usize,
    clocks: u8,
    least: u16,
    most: u16,
) -> bool
    requires { (i < height) × (n ≤ 8) }
    ensures { result ≡ below n (place_fits clocks least most rows.now i (part_number part)) }
{
    (0..n).all(|j| obligation_within(clocks, least, most, obligation_at(rows, i, part, j)))
}

// The leads of row i that precedes lines have, before `leaders`, where there is a flag: each is at most the instants.
fn row_leads_within(
    rows: &[u32; SIZE],
    i: usize,
    leaders: usize,
    precede: [bool; 16],
    instants: usize,
) -> bool
    requires { (i < height) × (leaders ≤ 16) }
    ensures { result ≡ below leaders (lead_fits precede instants rows.now i) }
{
    (0..leaders).all(|k| !precede[k] || count_in(word_at(rows, i, LEADS + k)) <= instants)
}

// The set of a part of row i; its places are read only if there are at most eight.
fn row_set_within(
    rows: &[u32; SIZE],
    i: usize,
    part: Part,
    clocks: u8,
    least: u16,
    most: u16,
) -> bool
    requires { i < height }
    ensures { result ≡ set_within clocks least most (row_count rows.now i (part_number part)) (row_set rows.now i (part_number part)) }
{
    let n = row_count(rows, i, part);
    n <= number::MAX_OWED && row_owed_within(rows, i, part, n, clocks, least, most)
}

// Row i: its sets and its leads.
fn row_within(rows: &[u32; SIZE], i: usize, plan: Plan, instants: usize) -> bool
    requires { i < height }
    ensures { RowWithin plan instants rows.now i result }
{
    // (a plan has at most 8, so nothing is lost)
    let clocks = plan.clocks as u8;
    row_set_within(rows, i, Part::Obligations, clocks, LEAST_DUE, MOST_DUE)
        && row_set_within(rows, i, Part::Countdowns, clocks, LEAST_WANTED, MOST_WANTED)
        && row_leads_within(rows, i, plan.leaders, plan.precede, instants)
}

// Each of n rows from row `from` on.
fn each_row_within(rows: &[u32; SIZE], from: usize, n: usize, plan: Plan, instants: usize) -> bool
    requires { (from ≤ second_side) × (n ≤ 32) }
    ensures { EachRowWithin plan instants rows.now from n result }
{
    (0..n).all(|k| row_within(rows, from + k, plan, instants))
}

// Those held, in the rows from row `from` on.
pub(crate) fn rows_within(
    rows: &[u32; SIZE],
    from: usize,
    count: Option<usize>,
    plan: Plan,
    instants: usize,
) -> bool
    requires { from ≤ second_side }
    ensures { RowsWithin plan instants rows.now from count result }
{
    match count {
        None => true,
        Some(n) => n <= number::MAX_LIVE && each_row_within(rows, from, n, plan, instants),
    }
}
