// Sheet values to write: each line above the one before it. Of two faults of one line the first decides, of two lines the earlier one's; room is asked for last. Then repeats at the limits of lines and of sporadic lines.
// A row: write|name|size|value. A sheet value: its clock count and its line count, then its lines, each by its kind and its body.
use crate::rows::rows;
use std::io;

pub fn all(rt: &impl Print) -> io::Result<()> {
    rows(
        rt,
        "#|Sheet values to write: the order of lines
write|t = 256, then t = 1|192|02 02, 10 00 01 00 01, 10 00 01 01 00
write|t = 1, then t = 256|192|02 02, 10 00 01 01 00, 10 00 01 00 01
write|t = 1, then t = -1|192|02 02, 10 00 01 01 00, 10 00 01 FF FF
write|t = -1, then t = 1|192|02 02, 10 00 01 FF FF, 10 00 01 01 00
write|t = 1 twice|192|02 02, 10 00 01 01 00, 10 00 01 01 00
write|kinds rising, bodies falling|192|02 02, 11 01 01 01 00 01 00, 12 00 00
write|kinds falling, bodies rising|192|02 02, 12 00 00, 11 01 01 01 00 01 00
write|a line twice, another in between|192|02 03, 10 00 01 01 00, 11 01 01 01 00 01 00, 10 00 01 01 00
write|a third line, the second again|192|02 03, 10 00 01 00 01, 10 00 01 01 00, 10 00 01 01 00
write|a third line, between the first and the second|192|02 03, 10 00 01 00 01, 10 00 01 FF FF, 10 00 01 01 00
write|a repeat, then a bad clock|192|02 03, 12 00 01, 12 00 01, 13 00 02
write|a bad clock, then a line not above|192|02 03, 12 00 01, 13 00 02, 12 00 01
write|a line not above, with a bad clock|192|02 02, 13 00 01, 12 00 02
write|a line not above and no room|0|02 02, 13 00 01, 12 00 01
write|17 lines, the sixteenth the fifteenth again|192|08 11, 12 00 00 08+, 12 01 00 07+, 12 01 06
write|16 lines, the last the fifteenth again|192|08 10, 12 00 00 08+, 12 01 00 07+, 12 01 06
write|second line, the first again|192|08 02, 12 00 00, 12 00 00, 12 00 02 06+, 12 01 00 08+
write|ninth sporadic, the eighth again|192|08 09, 10 00 01 00 00 08+, 10 00 01 00 07, 10 00 01 00 09 07+
write|ninth sporadic, the first again|192|08 09, 10 00 01 00 00 08+, 10 00 01 00 00, 10 00 01 00 09 07+
write|second sporadic, the first again|192|08 09, 10 00 01 00 00, 10 00 01 00 00, 10 00 01 00 02 0E+",
    )
}
