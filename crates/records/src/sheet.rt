// A sheet: the clocks record, then up to 16 lines.
ghost use Rattle.std.specs.Prelude.{◌≡◌, [], map, ◌+◌, ◌≤◌, ◌<◌, length, drop};
ghost use Rattle.records.specs.Store.{puts, wrote};
ghost use Rattle.records.specs.Outcome.{outcome_of};
ghost use Rattle.records.specs.Record.{pieces};
ghost use Rattle.records.specs.Line.{blank_line};
ghost use Rattle.records.specs.Order.{key_of, above_last, in_order};
ghost use Rattle.records.specs.declared.order.Order.TheVariants.{Any};
ghost use Rattle.records.specs.Lists.{listed};
ghost use Rattle.records.specs.Sheet.{clock_count, line_at, sheet_value, sheet_of, sheet_read, read_by, read_sheet, read_unordered, sheet_bytes, write_sheet};
ghost use Rattle.records.specs.Inner.{with_line, sheet_from, LineChecked, LinesChecked, Checked};

use crate::line::{Line, check_line, kind_of, line_size, put_line, read_line, sporadic_of};
use crate::number;
use crate::order::{Order, is_above};
use crate::record::{put_head, record_at};
use crate::refusal::Refusal;

#[derive(Clone, Copy)]
pub struct Sheet {
    pub clocks: u8,
    // How many lines, and these; places past them are unused. There is no heap, so it is an array and a count.
    pub count: usize,
    pub lines: [Line; 16],
}

// A clock count is 1 to 8.
pub(crate) fn clock_count(clocks: u8) -> bool
    ensures { result ≡ clock_count clocks }
{
    matches!(clocks, 1..=number::MAX_CLOCKS)
}

fn blank_line() -> Line
    ensures { result ≡ blank_line }
{
    Line::Sporadic { a: 0, b: 0, t: 0 }
}

// A sheet of no line.
pub fn blank_sheet(clocks: u8) -> Sheet
    ensures { result ≡ sheet_of (record { clocks = clocks; lines = [] }) }
{
    Sheet {
        clocks,
        count: 0,
        lines: [blank_line(); 16],
    }
}

pub(crate) fn with_line(mut s: Sheet, line: Line) -> Sheet
    requires { s.count < 16 }
    ensures { result ≡ with_line s line }
{
    s.lines[s.count] = line;
    s.count += 1;
    s
}

// The line at a place; past the sixteenth stands the blank line.
pub fn line_at(s: Sheet, i: usize) -> Line
    ensures { result ≡ line_at s i }
{
    s.lines.get(i).copied().unwrap_or(blank_line())
}

// Whether a line is above the last of a sheet's first n lines.
pub(crate) fn above_last(s: Sheet, n: usize, l: Line) -> bool
    ensures { result ≡ above_last (map key_of (listed (line_at s) n)) (key_of l) }
{
    n == 0 || is_above(l, line_at(s, n - 1))
}

// Whether a line may stand behind a sheet's first n lines.
fn in_order(order: Order, s: Sheet, n: usize, l: Line) -> bool
    ensures { result ≡ in_order order (map key_of (listed (line_at s) n)) (key_of l) }
{
    match order {
        Order::Rising => above_last(s, n, l),
        Order::Any => true,
    }
}

// The lines after the clocks record.
fn read_lines(bytes: &[u8], order: Order, last: u16, clocks: u8) -> Result<Sheet, Refusal>
    requires { 5 ≤ length bytes.now }
    ensures { outcome_of result ≡ sheet_read (sheet_from order last clocks (pieces (drop 5 bytes.now))) }
{
    let mut sheet = blank_sheet(clocks);
    let mut spent = 0;
    let mut at = number::HEAD_LENGTH + number::CLOCKS_BODY;
    while at < bytes.len() {
        let Some(record) = record_at(bytes, at) else {
            return Err(Refusal::TornSheet);
        };
        let from = at + number::HEAD_LENGTH;
        let end = from + record.len;
        let count = sheet.count;
        let line = read_line(record.kind, &bytes[from..end], last, clocks, count, spent)?;
        if !in_order(order, sheet, count, line) {
            return Err(Refusal::NotAbove);
        }
        sheet = with_line(sheet, line);
        spent += sporadic_of(record.kind);
        at = end;
    }
    Ok(sheet)
}

// The sheet that a byte string holds, its lines in an order and of kinds up to a last one.
pub fn read_by(bytes: &[u8], order: Order, last: u16) -> Result<Sheet, Refusal>
    ensures { outcome_of result ≡ sheet_read (read_by order last bytes.now) }
{
    let Some(record) = record_at(bytes, 0) else {
        return Err(Refusal::TornSheet);
    };
    if record.kind != number::CLOCKS {
        return Err(Refusal::NotClocks);
    }
    if record.len != number::CLOCKS_BODY {
        return Err(Refusal::ClocksLength);
    }
    let clocks = bytes[number::HEAD_LENGTH];
    if !clock_count(clocks) {
        return Err(Refusal::ClockCount);
    }
    read_lines(bytes, order, last, clocks)
}

// The sheet that a byte string holds, its lines in rising order.
pub fn read_sheet(bytes: &[u8]) -> Result<Sheet, Refusal>
    ensures { outcome_of result ≡ sheet_read (read_sheet bytes.now) }
{
    read_by(bytes, Order::Rising, number::LAST_LINE)
}

// The sheet that a byte string holds, its lines in any order, repeats allowed.
pub fn read_unordered(bytes: &[u8]) -> Result<Sheet, Refusal>
    ensures { outcome_of result ≡ sheet_read (read_unordered bytes.now) }
{
    read_by(bytes, Order::Any, number::LAST_LINE)
}

// A line of a value behind its sheet's first i lines, `spent` sporadic ones among them: 7, 18, 9, 17.
fn check_at(s: Sheet, i: usize, l: Line, order: Order, spent: usize) -> Result<(), Refusal>
    ensures { LineChecked order s i spent l result }
{
    check_line(l, s.clocks, spent)?;
    if !in_order(order, s, i, l) {
        return Err(Refusal::NotAbove);
    }
    Ok(())
}

// 7, 18, 9 and 17, line by line.
fn check_lines(s: Sheet, order: Order) -> Result<(), Refusal>
    requires { s.count ≤ 16 }
    ensures { LinesChecked order s result }
{
    let mut spent = 0;
    for i in 0..s.count {
        let l = s.lines[i];
        check_at(s, i, l, order, spent)?;
        spent += sporadic_of(kind_of(l));
    }
    Ok(())
}

// A sheet value whose lines stand in an order: 4; 8; then line by line 7, 18, 9, 17.
fn check_by(sheet: Sheet, order: Order) -> Result<(), Refusal>
    ensures { Checked order sheet result }
{
    if !clock_count(sheet.clocks) {
        return Err(Refusal::ClockCount);
    }
    if number::MAX_LINES < sheet.count {
        return Err(Refusal::SeventeenthLine);
    }
    check_lines(sheet, order)
}

// Whether a sheet value is within its limits, its lines in any order: 4; 8; then line by line 7, 18, 9.
pub fn check_sheet(sheet: Sheet) -> Result<(), Refusal>
    ensures { Checked Any sheet result }
{
    check_by(sheet, Order::Any)
}

// How many bytes a sheet's records take.
fn sheet_size(s: Sheet) -> usize
    requires { s.count ≤ 16 }
    ensures { result ≡ length (sheet_bytes (sheet_value s)) }
{
    let mut size = number::HEAD_LENGTH + number::CLOCKS_BODY;
    for i in 0..s.count {
        size += line_size(s.lines[i]);
    }
    size
}

// A sheet's records, where they have room.
fn put_sheet(s: Sheet, buffer: &mut [u8])
    requires { (s.count ≤ 16) × (length (sheet_bytes (sheet_value s)) ≤ length buffer.old) }
    ensures { buffer.new ≡ puts buffer.old 0 (sheet_bytes (sheet_value s)) }
{
    put_head(buffer, 0, 1, number::CLOCKS);
    buffer[number::HEAD_LENGTH] = s.clocks;
    let mut at = number::HEAD_LENGTH + number::CLOCKS_BODY;
    for i in 0..s.count {
        let l = s.lines[i];
        put_line(buffer, at, l);
        at += line_size(l);
    }
}

// Writes a sheet, its lines in rising order, at the buffer's front, or refuses it and changes no byte.
pub fn write_sheet(sheet: Sheet, buffer: &mut [u8]) -> Result<usize, Refusal>
    ensures { wrote result buffer.new ≡ write_sheet (sheet_value sheet) buffer.old }
{
    check_by(sheet, Order::Rising)?;
    let size = sheet_size(sheet);
    if buffer.len() < size {
        return Err(Refusal::ShortBuffer);
    }
    put_sheet(sheet, buffer);
    Ok(size)
}
