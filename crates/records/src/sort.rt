// A sheet's one form: its lines in rising order, repeats dropped.
ghost use Rattle.std.specs.Prelude.{◌+◌, ◌<◌};
ghost use Rattle.records.specs.Sort.{SortsValue, SortsBytes};
ghost use Rattle.records.specs.Inner.{Sortable, NextAbove, SortedSheet};

use crate::order::is_above;
use crate::refusal::Refusal;
use crate::sheet::{
    Sheet, above_last, blank_sheet, check_sheet, line_at, read_unordered, with_line, write_sheet,
};

// The place of the least line up to place i that is above those sorted so far: the one found before it, or i.
fn lesser(s: Sheet, sorted: Sheet, least: usize, i: usize) -> usize
    requires { (i < s.count) × NextAbove s sorted i least }
    ensures { NextAbove s sorted (i + 1) result }
{
    let l = line_at(s, i);
    if !above_last(sorted, sorted.count, l) {
        return least;
    }
    if least == s.count {
        return i;
    }
    if is_above(line_at(s, least), l) {
        return i;
    }
    least
}

// The place of the least line of a sheet that is above those sorted so far; the line count where there is none.
fn next_above(s: Sheet, sorted: Sheet) -> usize
    ensures { NextAbove s sorted s.count result }
{
    let mut least = s.count;
    for i in 0..s.count {
        least = lesser(s, sorted, least, i);
    }
    least
}

// A sheet with the same lines, each above the one before it.
fn sort_lines(s: Sheet) -> Sheet
    requires { Sortable s }
    ensures { SortedSheet s result }
{
    let mut sorted = blank_sheet(s.clocks);
    let mut next = next_above(s, sorted);
    while next < s.count {
        sorted = with_line(sorted, line_at(s, next));
        next = next_above(s, sorted);
    }
    sorted
}

// The sorted form of a sheet value, its lines in any order; or the number by which it is outside its limits.
pub fn sorted_sheet(sheet: Sheet) -> Result<Sheet, Refusal>
    ensures { SortsValue sheet result }
{
    check_sheet(sheet)?;
    Ok(sort_lines(sheet))
}

// Writes the sorted form of the sheet that a byte string holds, its lines in any order,
// at the buffer's front; or refuses it and changes no byte.
pub fn sort_sheet(bytes: &[u8], buffer: &mut [u8]) -> Result<usize, Refusal>
    ensures { SortsBytes bytes.now buffer.old result buffer.new }
{
    let sheet = read_unordered(bytes)?;
    write_sheet(sort_lines(sheet), buffer)
}
