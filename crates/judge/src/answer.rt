// What the monitor answers.
ghost use Rattle.std.specs.Prelude.{◌≡◌, ◌&&◌, ◌+◌, ◌≤◌, ◌<◌, eqb};
ghost use Rattle.records.specs.Sheet.{SheetValue};
ghost use Rattle.tesl.specs.Lists.{any};
ghost use Rattle.tesl.specs.Remainder.{is_clear};
ghost use Rattle.judge.specs.Answer.{answer_of, said_by};
ghost use Rattle.remainders.specs.Rows.{second_side, height, row_count, rows_of};
ghost use Rattle.step.specs.Apply.{found_in, FewOwedIn};

use remainders::rows::{Part, SIZE, row_count};

// live: how many distinct remainders; clear: one of them owes nothing.
#[derive(Clone, Copy, Debug, PartialEq, Eq)]
pub enum Answer {
    Exhausted,
    Broken,
    Holding { live: usize, clear: bool },
}

// Row i owes nothing: both its sets are empty.
fn is_clear_row(rows: &[u32; SIZE], i: usize) -> bool
    requires { i < height }
    ensures { result ≡ (eqb (row_count rows.now i 0) 0 && eqb (row_count rows.now i 1) 0) }
{
    row_count(rows, i, Part::Obligations) == 0 && row_count(rows, i, Part::Countdowns) == 0
}

// One of n rows from row `from` on owes nothing.
fn is_clear_in(rows: &[u32; SIZE], from: usize, n: usize) -> bool
    requires { from + n ≤ height }
    ensures { (v : SheetValue) → result ≡ any is_clear (rows_of v rows.now from n) }
{
    (from..from + n).any(|i| is_clear_row(rows, i))
}

// What those in rows from row `from` on say.
pub fn say_rows(rows: &[u32; SIZE], from: usize, count: Option<usize>) -> Answer
    requires { (from ≤ second_side) × FewOwedIn count rows.now from }
    ensures { (v : SheetValue) → answer_of result ≡ said_by (found_in v count rows.now from) }
{
    match count {
        None => Answer::Exhausted,
        Some(0) => Answer::Broken,
        Some(n) => Answer::Holding {
            live: n,
            clear: is_clear_in(rows, from, n),
        },
    }
}
