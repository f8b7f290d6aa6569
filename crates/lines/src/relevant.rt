// The clocks whose unseen ticks an instant's work asks about: those that a line, an obligation held or a countdown held names.
ghost use Rattle.std.specs.Prelude.{◌≡◌, ◌∷◌, [], ◌+◌, ◌≤◌, ◌<◌};
ghost use Rattle.work.specs.Relevant.{named_by, flagged};
ghost use Rattle.remainders.specs.Rows.{height, part_number, row_count, FewInRow, FewOwed, clocks_asked, part_clocks, row_clocks, rows_clocks};

use records::line::Line;
use remainders::clock::stop;
use remainders::obligation::Obligation;
use remainders::rows::{Part, SIZE, obligation_at, row_count};

fn flag_both(flags: [bool; 8], a: u8, b: u8) -> [bool; 8]
    ensures { result ≡ flagged (a ∷ b ∷ []) flags }
{
    stop(stop(flags, a), b)
}

// The flags of the clocks whose ticks a line asks about.
pub(crate) fn flag_line(l: Line, flags: [bool; 8]) -> [bool; 8]
    ensures { result ≡ flagged (named_by l) flags }
{
    match l {
        Line::Implies { a, b }
        | Line::Excludes { a, b }
        | Line::Weakly { a, b }
        | Line::Strictly { a, b }
        | Line::Kills { a, b } => flag_both(flags, a, b),
        Line::Delayed { a, .. } | Line::Counted { a, .. } => stop(flags, a),
        Line::Sporadic { .. } | Line::Relation { .. } => flags,
    }
}

// The flags of the clocks whose ticks one in the set of a part asks about: its own, and of a countdown the on-clock too.
fn flag_stored(part: Part, o: Obligation, flags: [bool; 8]) -> [bool; 8]
    ensures { result ≡ flagged (clocks_asked (part_number part) o) flags }
{
    match part {
        Part::Obligations => stop(flags, o.clock),
        Part::Countdowns => flag_both(flags, o.clock, o.on),
    }
}

// The flags of those that the set of a part of row i asks about. What a call gives stands in `next` first, here and below: no generated proof covers a call whose array is laid in one that holds flags already.
fn flag_part(rows: &[u32; SIZE], i: usize, part: Part, mut flags: [bool; 8]) -> [bool; 8]
    requires { (i < height) × (row_count rows.now i (part_number part) ≤ 8) }
    ensures { result ≡ flagged (part_clocks rows.now i (part_number part)) flags }
{
    for j in 0..row_count(rows, i, part) {
        let next = flag_stored(part, obligation_at(rows, i, part, j), flags);
        flags = next;
    }
    flags
}

// Of both sets of row i.
fn flag_row(rows: &[u32; SIZE], i: usize, flags: [bool; 8]) -> [bool; 8]
    requires { (i < height) × FewInRow rows.now i }
    ensures { result ≡ flagged (row_clocks rows.now i) flags }
{
    let owed = flag_part(rows, i, Part::Obligations, flags);
    flag_part(rows, i, Part::Countdowns, owed)
}

// Of n rows from row `from` on, besides others.
pub fn flag_rows(rows: &[u32; SIZE], from: usize, n: usize, mut flags: [bool; 8]) -> [bool; 8]
    requires { (from + n ≤ height) × FewOwed rows.now from n }
    ensures { result ≡ flagged (rows_clocks rows.now from n) flags }
{
    for k in 0..n {
        let next = flag_row(rows, from + k, flags);
        flags = next;
    }
    flags
}
