// The rows of a table, one to a line of text, each done in turn.
// A row's first field is a word that says what it asks for; its second field is its name.
// A number is decimal; bytes are hexadecimal (tape.rt); a value is told by bytes (values.rt).
use crate::cell_row::{clock_row, length_row, twice_row};
use crate::fields::parted;
use crate::instant_row::{instant_row, next_row};
use crate::place_row::place_row;
use crate::sheet_row::{sheet_row, value_row};
use crate::write_row::{both_row, instant_written, sheet_written, write_row};
use records::order::Order;
use records::sheet::{read_by, read_sheet, read_unordered};
use records::sort::sort_sheet;
use std::io;

fn row(rt: &impl Print, word: &str, name: &str, fields: &str) -> io::Result<()> {
    match word.as_bytes() {
        // #|heading
        b"#" => println!(rt; "{name}"),
        // place|name|at|bytes: the record at a place of the bytes.
        b"place" => place_row(rt, name, fields),
        // read|name|bytes, or read|name|bytes|lines: a sheet read and written back, and its lines listed.
        b"read" => sheet_row(rt, name, fields, read_sheet),
        // any|name|bytes: the same in any order of its lines.
        b"any" => sheet_row(rt, name, fields, read_unordered),
        // older|name|bytes: the same in any order, of kinds up to 23, as document 01 has it.
        b"older" => sheet_row(rt, name, fields, |bytes| read_by(bytes, Order::Any, 23)),
        // write|name|size|value: a sheet value written into so many bytes.
        b"write" => write_row(rt, name, fields, sheet_written),
        // both|name|value|value: two sheet values written.
        b"both" => both_row(rt, name, fields, sheet_written),
        // sort|name|size|bytes: a sheet sorted into so many bytes.
        b"sort" => write_row(rt, name, fields, sort_sheet),
        // value|name|value: a sheet value sorted.
        b"value" => value_row(rt, name, fields),
        // length|name|kind: sheets of a line of a kind, of lengths 0 to 7.
        b"length" => length_row(rt, name, fields),
        // clock|name|kind: sheets of a line of a kind, 2 at each byte of its body in turn.
        b"clock" => clock_row(rt, name, fields),
        // twice|name|kind: sheets of two lines of a kind, which differ from each byte of the body on in turn; then the same, the lines exchanged.
        b"twice" => twice_row(rt, name, fields),
        // instant|name|clocks|bytes: an instant of so many clocks read and written back.
        b"instant" => instant_row(rt, name, fields, 0),
        // eight|name|clocks|bytes: the same, with all eight clocks of the value.
        b"eight" => instant_row(rt, name, fields, 8),
        // next|name|held|bytes: the next instant of a run of one clock, so many being held.
        b"next" => next_row(rt, name, fields),
        // fill|name|size|value: an instant value written into so many bytes.
        b"fill" => write_row(rt, name, fields, instant_written),
        // double|name|value|value: two instant values written.
        b"double" => both_row(rt, name, fields, instant_written),
        _ => println!(rt; "no such row"),
    }
}

pub fn rows(rt: &impl Print, table: &str) -> io::Result<()> {
    for line in table.lines() {
        let (word, named) = parted(line);
        let (name, fields) = parted(named);
        row(rt, word, name, fields)?;
    }
    Ok(())
}
