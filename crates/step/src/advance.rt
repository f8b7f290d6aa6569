// What a filled instant makes of a row: the row that it becomes, built in place in another row of the same array. What is asked of the two rows stands in `Between`, of one that is added to in `Row`; numbers of lines and clocks come from a plan, whose type bounds them.
ghost use Rattle.std.specs.Prelude.{◌≡◌, ℕ, ◌+◌, ◌-◌, ◌<◌, ◌≤◌, leb, get_or, drop, take};
ghost use Rattle.records.specs.Lists.{listed};
ghost use Rattle.tesl.specs.Lists.{below};
ghost use Rattle.theory.specs.Step.{overlap};
ghost use Rattle.work.specs.View.{filled_of};
ghost use Rattle.remainders.specs.Word.{half_values};
ghost use Rattle.remainders.specs.Rows.{height, row_count, row_lead, row_stop, Row, Between, AddedRow, BegunRow, LeadsOn, StoppedOn, part_number};
ghost use Rattle.step.specs.Left.{LeftRow};
ghost use Rattle.step.specs.Filling.{Advancing, AdvancedRow};

use crate::filling::Filling;
use crate::left::{Left, left_of};
use lines::plan::Plan;
use remainders::obligation::Obligation;
use remainders::rows::{
    LEADS, Part, SIZE, STOPPED, obligation_at, put_obligation, put_word, row_count, row_owes,
    word_at,
};
use remainders::word::{count_word, flag_in, flag_word};

// What becomes of a row: it doesn't fit, it would have more than eight in a set, or it goes on.
#[derive(Clone, Copy, Debug, PartialEq, Eq)]
pub enum Next {
    Fails,
    Over,
    Onto,
}

// A clock of the sheet that is stopped in row i ticks.
fn is_barred(rows: &[u32; SIZE], i: usize, clocks: usize, ticks: [bool; 8]) -> bool
    requires { (i < height) × (clocks ≤ 8) }
    ensures { result ≡ overlap ticks (listed (row_stop rows.now i) clocks) }
{
    for k in 0..clocks {
        if ticks[k] && flag_in(word_at(rows, i, STOPPED + k)) {
            return true;
        }
    }
    false
}

// Each lead of row i is what is needed, or more.
fn leads_hold(rows: &[u32; SIZE], i: usize, leaders: usize, needs: [u16; 16]) -> bool
    requires { (i < height) × (leaders ≤ 16) }
    ensures { result ≡ below leaders (λ (k : ℕ). leb (get_or needs k 0) (row_lead rows.now i k)) }
{
    for k in (0..leaders).rev() {
        if word_at(rows, i, LEADS + k) < u32::from(needs[k]) {
            return false;
        }
    }
    true
}

// Stores in a part of row `to` what a filled instant leaves of that part of row i. False: by one of them the filling doesn't fit.
fn put_left(
    rows: &mut [u32; SIZE],
    i: usize,
    to: usize,
    part: Part,
    ticks: [bool; 8],
    tags: [i16; 8],
) -> bool
    requires { Between rows.old i to × (row_count rows.old i (part_number part) ≤ 8) }
    ensures { LeftRow (filled_of ticks tags) (part_number part) i to result rows.old rows.new }
{
    let mut count = 0;
    for j in 0..row_count(rows, i, part) {
        match left_of(part, obligation_at(rows, i, part, j), ticks, tags) {
            Left::Done => continue,
            Left::Unfit => return false,
            Left::Still(left) => {
                put_obligation(rows, to, part, count, left);
                count += 1;
            }
        }
    }
    put_word(rows, to, part.start(), count_word(count));
    true
}

// A part of row i with one more, which counts once. False: a ninth has no room.
pub fn add_row(rows: &mut [u32; SIZE], i: usize, part: Part, o: Obligation) -> bool
    requires { Row rows.old i (part_number part) }
    ensures { AddedRow i (part_number part) o result rows.old rows.new }
{
    if row_owes(rows, i, part, o) {
        return true;
    }
    let n = row_count(rows, i, part);
    if 8 <= n {
        return false;
    }
    put_obligation(rows, i, part, n, o);
    put_word(rows, i, part.start(), count_word(n + 1));
    true
}

// A part of row i with those begun from place `first` to n. False: one had no room.
fn begin_row(
    rows: &mut [u32; SIZE],
    i: usize,
    part: Part,
    first: usize,
    n: usize,
    begun: [Obligation; 16],
) -> bool
    requires { Row rows.old i (part_number part) × (n ≤ 16) }
    ensures { BegunRow i (part_number part) (drop first (take n begun)) result rows.old rows.new }
{
    for j in first..n {
        if !add_row(rows, i, part, begun[j]) {
            return false;
        }
    }
    true
}

// The same with those that a filling begins: where there are none, they aren't copied.
fn begin_part(
    rows: &mut [u32; SIZE],
    i: usize,
    part: Part,
    first: usize,
    n: usize,
    f: Filling,
) -> bool
    requires { Row rows.old i (part_number part) × (n ≤ 16) }
    ensures { BegunRow i (part_number part) (drop first (take n f.begun)) result rows.old rows.new }
{
    n <= first || begin_row(rows, i, part, first, n, f.begun)
}

// A lead that would fall below 0 stays 0, and so does one that is no lead.
fn moved(lead: u32, gain: u16, loss: u16) -> u32
    ensures { lead < half_values → result ≡ lead + gain - loss }
{
    match u16::try_from(lead) {
        Ok(lead) => (u32::from(lead) + u32::from(gain)).saturating_sub(u32::from(loss)),
        Err(_) => 0,
    }
}

// Stores in row `to` the leads of row i after an instant.
fn leads_on(
    rows: &mut [u32; SIZE],
    i: usize,
    to: usize,
    leaders: usize,
    gains: [u16; 16],
    losses: [u16; 16],
)
    requires { Between rows.old i to × (leaders ≤ 16) }
    ensures { LeadsOn leaders gains losses i to rows.old rows.new }
{
    for k in 0..leaders {
        let lead = word_at(rows, i, LEADS + k);
        put_word(rows, to, LEADS + k, moved(lead, gains[k], losses[k]));
    }
}

// The same with what a filling gains and loses: where no line leads, it isn't copied.
fn lead_part(rows: &mut [u32; SIZE], i: usize, to: usize, leaders: usize, f: Filling)
    requires { Between rows.old i to × (leaders ≤ 16) }
    ensures { LeadsOn leaders f.gains f.losses i to rows.old rows.new }
{
    if 0 < leaders {
        leads_on(rows, i, to, leaders, f.gains, f.losses);
    }
}

// Stores in row `to` the stopped clocks of row i, with more.
fn stopped_on(rows: &mut [u32; SIZE], i: usize, to: usize, stops: [bool; 8])
    requires { Between rows.old i to }
    ensures { StoppedOn stops i to rows.old rows.new }
{
    for k in 0..8 {
        let flag = flag_in(word_at(rows, i, STOPPED + k)) || stops[k];
        put_word(rows, to, STOPPED + k, flag_word(flag));
    }
}

// Builds in row `to` what row i becomes by a filling; a row that it doesn't fit is left at once. What is promised holds of every sheet that the plan and the filling are of.
pub(crate) fn advance_row(
    rows: &mut [u32; SIZE],
    i: usize,
    to: usize,
    plan: Plan,
    f: Filling,
) -> Next
    requires { Advancing rows.old i to f }
    ensures { AdvancedRow plan f i to result rows.old rows.new }
{
    if !leads_hold(rows, i, plan.leaders, f.needs) || is_barred(rows, i, plan.clocks, f.ticks) {
        return Next::Fails;
    }
    if !put_left(rows, i, to, Part::Obligations, f.ticks, f.tags) {
        return Next::Fails;
    }
    if !put_left(rows, i, to, Part::Countdowns, f.ticks, f.tags) {
        return Next::Fails;
    }
    if !begin_part(rows, to, Part::Obligations, 0, f.owed, f) {
        return Next::Over;
    }
    if !begin_part(rows, to, Part::Countdowns, f.owed, f.count, f) {
        return Next::Over;
    }
    lead_part(rows, i, to, plan.leaders, f);
    stopped_on(rows, i, to, f.stops);
    Next::Onto
}
