// Lines that count, kind 24: read, written and sorted, and the refusal of a count of 0.
// A row: read, any or older|name|bytes, write|name|size|value, sort|name|size|bytes or value|name|value. A sheet value: its clock count and its line count, then its lines, each by its kind and its body.
use crate::rows::rows;
use std::io;

fn reading(rt: &impl Print) -> io::Result<()> {
    rows(
        rt,
        "#|Lines that count
read|counts at their ends|01 00 01 00 01, 04 00 18 00 00 00 00 01, 04 00 18 00 00 00 00 FF|lines
read|each clock another, then two the same|01 00 01 00 08, 04 00 18 00 05 06 07 08, 04 00 18 00 05 07 05 09, 04 00 18 00 06 06 05 02, 04 00 18 00 06 07 07 80|lines
any|falling, a line twice, in any order|01 00 01 00 02, 04 00 18 00 01 00 00 01, 04 00 18 00 00 01 01 02, 04 00 18 00 01 00 00 01|lines
older|kinds up to 23: kind 23|01 00 01 00 02, 02 00 17 00 00 01
older|kinds up to 23: kind 24|01 00 01 00 02, 04 00 18 00 00 01 00 01
older|kinds up to 23: kind 24, wrong length|01 00 01 00 02, 02 00 18 00 00 01
read|a count of 0|01 00 01 00 02, 04 00 18 00 00 01 00 00
read|A = 2 of 2|01 00 01 00 02, 04 00 18 00 02 01 00 01
read|B = 2 of 2|01 00 01 00 02, 04 00 18 00 00 02 00 01
read|D = 2 of 2|01 00 01 00 02, 04 00 18 00 00 01 02 01
read|A = 2 of 2, a count of 0|01 00 01 00 02, 04 00 18 00 02 01 00 00
read|D = 2 of 2, a count of 0|01 00 01 00 02, 04 00 18 00 00 01 02 00
read|wrong length, a count of 0|01 00 01 00 02, 05 00 18 00 00 01 00 00 00
read|a count in the fourth byte, none in the fifth|01 00 01 00 02, 05 00 18 00 00 01 00 01 00
read|kind 20, a fourth byte of 0|01 00 01 00 02, 05 00 14 00 00 01 00 00 01
read|a line not above, with a count of 0|01 00 01 00 02, 04 00 18 00 00 01 00 02, 04 00 18 00 00 01 00 00
read|a line not above|01 00 01 00 02, 04 00 18 00 00 01 00 02, 04 00 18 00 00 01 00 01
read|a line not above, then a count of 0|01 00 01 00 02, 04 00 18 00 00 01 00 02, 04 00 18 00 00 01 00 01, 04 00 18 00 00 01 00 00
read|a count of 0, then a bad clock|01 00 01 00 02, 04 00 18 00 00 01 00 02, 04 00 18 00 00 01 00 00, 04 00 18 00 02 01 00 01
read|a count of 0, then kind 25|01 00 01 00 02, 04 00 18 00 00 01 00 02, 04 00 18 00 00 01 00 00, 04 00 19 00
read|seventeenth line, a count of 0|01 00 01 00 08, 02 00 12 00 00 00 08+, 02 00 12 00 01 00 08+, 04 00 18 00 00 01 00 00
read|8 sporadic lines, then a count of 0|01 00 01 00 08, 04 00 10 00 00 01 FF 00 08+, 04 00 18 00 00 01 00 00
read|8 sporadic lines, a count of 0, a ninth sporadic|01 00 01 00 08, 04 00 10 00 00 01 FF 00 08+, 04 00 18 00 00 01 00 00, 04 00 10 00 00 01 FF 08
read|a count of 0, a byte short|01 00 01 00 02, 04 00 18 00 00 01 00",
    )
}

fn writing(rt: &impl Print) -> io::Result<()> {
    rows(
        rt,
        "#|Lines that count, to write
write|just a line|192|02 01, 18 01 00 01 C8
write|a count of 0|192|02 01, 18 00 01 00 00
write|A = 2 of 2|192|02 01, 18 02 00 00 01
write|B = 2 of 2|192|02 01, 18 00 02 00 01
write|D = 2 of 2|192|02 01, 18 00 00 02 01
write|D = 2 of 2, a count of 0|192|02 01, 18 00 00 02 00
write|a count of 0 and no room|0|02 01, 18 00 01 00 00
write|17 lines, a count of 0|192|02 11, 18 00 01 00 00
write|counts rising|192|02 02, 18 00 01 00 01, 18 00 01 00 02
write|counts falling|192|02 02, 18 00 01 00 02, 18 00 01 00 01
write|a line not above, with a count of 0|192|02 02, 18 00 01 00 02, 18 00 01 00 00
write|a repeat, then a count of 0|192|02 03, 12 00 01, 12 00 01, 18 00 01 00 00
write|a count of 0, then a ninth sporadic|192|08 0A, 18 00 01 00 00, 10 00 01 00 01 0F+
write|a ninth sporadic, then a count of 0|192|08 0A, 10 00 01 00 00 09+, 18 00 01 00 00, 10 00 01 00 0A 06+
#|Lines that count, to sort
sort|n = 255, 1, 2, 1|192|01 00 01 00 01, 04 00 18 00 00 00 00 FF, 04 00 18 00 00 00 00 01, 04 00 18 00 00 00 00 02, 04 00 18 00 00 00 00 01
sort|behind a line of kind 23, one of kind 20 and one of kind 16|192|01 00 01 00 02, 04 00 18 00 00 00 01 01, 02 00 17 00 01 01, 05 00 14 00 01 01 01 FF FF, 04 00 10 00 01 01 FF FF
sort|a count of 0 behind others|192|01 00 01 00 02, 02 00 17 00 01 01, 02 00 12 00 00 01, 04 00 18 00 00 00 01 00
value|values, a line twice|02 03, 18 01 00 00 01, 18 00 01 01 09, 18 01 00 00 01
value|values, a count of 0|02 03, 18 01 00 00 01, 18 00 01 01 00, 10 00 01 01 00",
    )
}

pub fn all(rt: &impl Print) -> io::Result<()> {
    reading(rt)?;
    writing(rt)
}
