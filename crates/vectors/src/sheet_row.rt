// A sheet read and written back, and a sheet value sorted.
use crate::fields::parted;
use crate::room::{marked, written_back};
use crate::sheet_lines::rows;
use crate::tape::tape_of;
use crate::text::counted;
use crate::values::sheet_of;
use records::refusal::Refusal;
use records::sheet::{Sheet, write_sheet};
use records::sort::sorted_sheet;
use std::io;

// How many clocks and lines a sheet has.
fn counts(rt: &impl Print, sheet: &Sheet) -> io::Result<()> {
    counted(rt, usize::from(sheet.clocks), "clock")?;
    print!(rt; ", ")?;
    counted(rt, sheet.count, "line")
}

fn taken(rt: &impl Print, sheet: Sheet, bytes: &[u8]) -> io::Result<()> {
    print!(rt; "taken, ")?;
    counts(rt, &sheet)?;
    let mut room = marked();
    let written = write_sheet(sheet, &mut room);
    written_back(rt, written, &room, bytes)
}

// What came of reading a sheet, which is written back.
pub fn shown(
    rt: &impl Print,
    name: &str,
    read: Result<Sheet, Refusal>,
    bytes: &[u8],
) -> io::Result<()> {
    print!(rt; "  {name}: ")?;
    match read {
        Err(refusal) => print!(rt; "refused {}", u8::from(refusal))?,
        Ok(sheet) => taken(rt, sheet, bytes)?,
    }
    println!(rt)
}

// A sheet read in one of the ways.
pub fn sheet_row<F: Fn(&[u8]) -> Result<Sheet, Refusal>>(
    rt: &impl Print,
    name: &str,
    fields: &str,
    read: F,
) -> io::Result<()>
    requires { F.IsAlwaysCallable read }
{
    let (text, listed) = parted(fields);
    let tape = tape_of(text);
    let r = read(tape.told());
    shown(rt, name, r, tape.told())?;
    match r {
        Ok(sheet) if !listed.is_empty() => rows(rt, &sheet),
        _ => Ok(()),
    }
}

// A sheet value sorted.
pub fn value_row(rt: &impl Print, name: &str, fields: &str) -> io::Result<()> {
    print!(rt; "  {name}: ")?;
    match sorted_sheet(sheet_of(tape_of(fields).told())) {
        Err(refusal) => println!(rt; "refused {}", u8::from(refusal)),
        Ok(sheet) => {
            print!(rt; "sorted, ")?;
            counts(rt, &sheet)?;
            println!(rt)?;
            rows(rt, &sheet)
        }
    }
}
