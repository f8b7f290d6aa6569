// Sheets to read that are refused, and which of two faults decides.
// A row: read|name|bytes.
use crate::rows::rows;
use std::io;

fn one_fault(rt: &impl Print) -> io::Result<()> {
    rows(
        rt,
        "#|Sheets to read: a torn record
read|no bytes|
read|1 byte|01
read|2 bytes|01 00
read|3 bytes|01 00 01
read|clocks record without its body|01 00 01 00
read|1 byte after the clocks|01 00 01 00 02, 02
read|2 bytes after the clocks|01 00 01 00 02, 02 00
read|3 bytes after the clocks|01 00 01 00 02, 02 00 12
read|line without its body|01 00 01 00 02, 02 00 12 00
read|line a byte short|01 00 01 00 02, 02 00 12 00 00
read|second line a byte short|01 00 01 00 02, 02 00 12 00 00 01, 02 00 12 00 00
#|Sheets to read: the first record
read|kind 0|01 00 00 00 02
read|kind 2|01 00 02 00 02
read|kind 257|01 00 01 01 02
read|a line first|02 00 12 00 00 01
read|length 0|00 00 01 00
read|length 2|02 00 01 00 02 00
read|C = 0|01 00 01 00 00
read|C = 9|01 00 01 00 09
read|C = 255|01 00 01 00 FF
#|Sheets to read: the kind of a line
read|kind 15|01 00 01 00 02, 02 00 0F 00 00 01
read|kind 25|01 00 01 00 02, 02 00 19 00 00 01
read|kind 0|01 00 01 00 02, 00 00 00 00
read|kind 274|01 00 01 00 02, 02 00 12 01 00 01
read|clocks again|01 00 01 00 02, 01 00 01 00 02
read|an instant|01 00 01 00 01, 03 00 20 00 00 00 00",
    )
}

fn two_faults(rt: &impl Print) -> io::Result<()> {
    rows(
        rt,
        "#|Sheets to read: two faults
read|torn, and not the clocks|02 00 02 00 02
read|not the clocks, wrong length|02 00 02 00 02 00
read|wrong length, C = 9|02 00 01 00 09 00
read|C = 9, then a torn line|01 00 01 00 09, 02
read|kind 25, wrong length|01 00 01 00 02, 03 00 19 00 00 01 00
read|wrong length, bad clock|01 00 01 00 02, 03 00 12 00 09 09 00
read|torn, and kind 25|01 00 01 00 02, 03 00 19 00 00 01
read|bad clock, then kind 25|01 00 01 00 02, 02 00 12 00 00 02, 02 00 19 00 00 01
read|kind 25, then a torn line|01 00 01 00 02, 02 00 19 00 00 01, 02 00
read|wrong length, then bad clock|01 00 01 00 02, 01 00 12 00 00, 02 00 12 00 00 02
read|seventeenth line, kind 25|01 00 01 00 08, 02 00 12 00 00 00 08+, 02 00 12 00 01 00 08+, 02 00 19 00 00 01
read|seventeenth line, wrong length|01 00 01 00 08, 02 00 12 00 00 00 08+, 02 00 12 00 01 00 08+, 00 00 12 00
read|seventeenth line, bad clock|01 00 01 00 08, 02 00 12 00 00 00 08+, 02 00 12 00 01 00 08+, 02 00 12 00 08 08
read|seventeenth line, torn|01 00 01 00 08, 02 00 12 00 00 00 08+, 02 00 12 00 01 00 08+, 02 00 12 00 02
read|seventeenth line, ninth sporadic|01 00 01 00 08, 04 00 10 00 00 01 FF 00 08+, 02 00 12 00 00 00 08+, 04 00 10 00 00 01 FF 08
read|ninth sporadic, wrong length|01 00 01 00 08, 04 00 10 00 00 01 FF 00 08+, 02 00 10 00 00 01
read|ninth sporadic, bad clock|01 00 01 00 08, 04 00 10 00 00 01 FF 00 08+, 04 00 10 00 00 08 FF FF
read|ninth sporadic, then bad clock|01 00 01 00 08, 04 00 10 00 00 01 FF 00 08+, 04 00 10 00 00 01 FF 08, 02 00 12 00 08 08",
    )
}

pub fn all(rt: &impl Print) -> io::Result<()> {
    one_fault(rt)?;
    two_faults(rt)
}
