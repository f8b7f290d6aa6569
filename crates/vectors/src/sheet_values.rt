// Sheet values to write.
// A row: write|name|size|value or both|name|value|value. A sheet value: its clock count and its line count, then its lines, each by its kind and its body.
use crate::rows::rows;
use std::io;

fn sizes(rt: &impl Print) -> io::Result<()> {
    rows(
        rt,
        "#|Sheet values to write
write|the listing|192|02 01, 14 00 00 01 02 00
write|the listing, just room|14|02 01, 14 00 00 01 02 00
write|the listing, room a byte short|13|02 01, 14 00 00 01 02 00
write|the listing, no room|0|02 01, 14 00 00 01 02 00
write|no line, just room|5|08 00, 14 00 00 01 02 00
write|no line, room a byte short|4|08 00, 14 00 00 01 02 00
write|all nine kinds, just room|70|03 09, 10 00 01 FD FF, 11 00 01 3C 00 FF FF, 12 01 02, 13 02 00, 14 00 01 02 64 00, 15 00 02, 16 01 00, 17 02 01, 18 00 01 02 03
write|all nine kinds, room a byte short|69|03 09, 10 00 01 FD FF, 11 00 01 3C 00 FF FF, 12 01 02, 13 02 00, 14 00 01 02 64 00, 15 00 02, 16 01 00, 17 02 01, 18 00 01 02 03
write|sporadic at -32768|192|01 01, 10 00 00 00 80
write|sporadic at 32767|192|01 01, 10 00 00 FF 7F
write|relation by -1 and 0|192|01 01, 11 00 00 FF FF 00 00
write|relation by 32767 and -32768|192|01 01, 11 00 00 FF 7F 00 80
write|delayed by 0|192|01 01, 14 00 00 00 00 00
write|delayed by 65535|192|01 01, 14 00 00 00 FF FF
write|counted by 1|192|01 01, 18 00 00 00 01
write|counted by 255|192|01 01, 18 00 00 00 FF",
    )
}

fn limits(rt: &impl Print) -> io::Result<()> {
    rows(
        rt,
        "#|Sheet values to write: limits
write|C = 0|192|00 00, 12 00 01
write|C = 9|192|09 01, 12 00 01
write|17 lines|192|08 11, 12 00 00 08+, 12 01 00 08+
write|16 lines, just room|101|08 10, 12 00 00 08+, 12 01 00 08+
write|16 lines, room a byte short|100|08 10, 12 00 00 08+, 12 01 00 08+
write|8 sporadic lines, just room|69|08 08, 10 00 01 00 00 10+
write|9 sporadic lines|192|08 09, 10 00 01 00 00 10+
write|first clock 2 of 2|192|02 01, 17 02 00
write|second clock 2 of 2|192|02 01, 15 00 02
write|third clock 2 of 2|192|02 01, 14 00 00 02 00 00
write|clock 255|192|02 01, 10 FF 00 00 00
write|p and q of 2, which are no clocks|192|02 01, 11 01 01 02 00 02 00
write|C = 9 and 17 lines|0|09 11, 13 00 08
write|17 lines and a bad clock|0|08 11, 13 00 08
write|bad clock and no room|0|08 01, 13 00 08
write|9 sporadic lines and no room|0|08 09, 10 00 01 00 00 10+
write|ninth sporadic with a bad clock|192|08 09, 10 00 01 00 00 08+, 10 08 01 00 00, 10 00 01 00 09 07+
write|ninth sporadic, then a bad clock|192|08 0A, 10 00 01 00 00 09+, 13 00 08, 10 00 01 00 0A 06+
write|bad clock, then a ninth sporadic|192|08 0A, 13 00 08, 10 00 01 00 01 0F+
#|Sheet values to write: unused places
both|no line, other lines past it|02 00, 12 00 01|02 00, 17 07 09
both|1 line, other lines past it|02 01, 12 00 01|02 01, 12 00 01, 17 07 09 0F*
both|15 lines, another line past them|08 0F, 12 00 00 08+, 12 01 00 08+|08 0F, 12 00 00 08+, 12 01 00 07+, 17 07 09
both|15 lines, the last again past them|08 0F, 12 00 00 08+, 12 01 00 08+|08 0F, 12 00 00 08+, 12 01 00 07+, 12 01 06
both|16 lines, the last another|08 10, 12 00 00 08+, 12 01 00 08+|08 10, 12 00 00 08+, 12 01 00 07+, 17 00 01",
    )
}

pub fn all(rt: &impl Print) -> io::Result<()> {
    sizes(rt)?;
    limits(rt)
}
