// Rows of cells: sheets of lines of one kind, and of each 'taken' or the number of the refusal.
use crate::fields::byte_of;
use crate::tape::Tape;
use crate::values::body_length;
use records::sheet::read_sheet;
use std::cmp::Ordering;
use std::io;

// The clocks record of a sheet.
fn clocks(n: u8) -> Tape {
    let mut t = Tape::empty();
    t.put(&[1, 0, 1, 0, n]);
    t
}

// A byte of a body, of the three told: before a place, there, and behind it.
fn body_byte(three: [u8; 3], i: usize, at: usize) -> u8 {
    match i.cmp(&at) {
        Ordering::Less => three[0],
        Ordering::Equal => three[1],
        Ordering::Greater => three[2],
    }
}

// Puts a line of a kind behind a tape.
fn put_line(t: &mut Tape, kind: u8, len: u8, at: usize, three: [u8; 3]) {
    t.put(&[len, 0, kind, 0]);
    for i in 0..usize::from(len) {
        t.put(&[body_byte(three, i, at)]);
    }
}

// A line of a length, its body all 0.
fn of_length(kind: u8, len: u8) -> Tape {
    let mut t = clocks(1);
    put_line(&mut t, kind, len, 0, [0; 3]);
    t
}

// A line with 2 at a place of its body, for two clocks.
fn with_clock(kind: u8, at: u8) -> Tape {
    let mut t = clocks(2);
    put_line(&mut t, kind, body_length(kind), usize::from(at), [0, 2, 0]);
    t
}

// Two lines for three clocks.
fn two_lines(kind: u8, at: u8, first: [u8; 3], second: [u8; 3]) -> Tape {
    let mut t = clocks(3);
    put_line(&mut t, kind, body_length(kind), usize::from(at), first);
    put_line(&mut t, kind, body_length(kind), usize::from(at), second);
    t
}

// A cell for the sheet of each of so many lengths, or of each place of the body.
fn cells<F: Fn(u8) -> Tape>(rt: &impl Print, count: u8, sheet: F) -> io::Result<()>
    requires { F.IsAlwaysCallable sheet }
{
    print!(rt; ":")?;
    for at in 0..count {
        match read_sheet(sheet(at).told()) {
            Err(refusal) => print!(rt; " {}", u8::from(refusal))?,
            Ok(_) => print!(rt; " taken")?,
        }
    }
    Ok(())
}

// A line of each length from 0 to 7.
pub fn length_row(rt: &impl Print, name: &str, fields: &str) -> io::Result<()> {
    let kind = byte_of(fields);
    print!(rt; "  {name}")?;
    cells(rt, 8, |len| of_length(kind, len))?;
    println!(rt)
}

// 2 at each place of the body.
pub fn clock_row(rt: &impl Print, name: &str, fields: &str) -> io::Result<()> {
    let kind = byte_of(fields);
    print!(rt; "  {name}")?;
    cells(rt, body_length(kind), |at| with_clock(kind, at))?;
    println!(rt)
}

// Two lines, 1 then 2 at each place of the body and behind it 2 then 1; and these exchanged.
pub fn twice_row(rt: &impl Print, name: &str, fields: &str) -> io::Result<()> {
    let kind = byte_of(fields);
    let length = body_length(kind);
    print!(rt; "  {name}")?;
    cells(rt, length, |at| two_lines(kind, at, [1, 1, 2], [1, 2, 1]))?;
    print!(rt; "; exchanged")?;
    cells(rt, length, |at| two_lines(kind, at, [1, 2, 1], [1, 1, 2]))?;
    println!(rt)
}
