// Sheets to sort, as bytes and as values: the lines in rising order, repeats dropped. 'Six lines' are kills, implies, sporadic at 1, implies again, sporadic at 256, kills again.
// A row: sort|name|size|bytes or value|name|value. A sheet value: its clock count and its line count, then its lines, each by its kind and its body.
use crate::rows::rows;
use std::io;

pub fn all(rt: &impl Print) -> io::Result<()> {
    rows(
        rt,
        "#|Sheets to sort
sort|eight clocks, no line|192|01 00 01 00 08
sort|t = 1, then t = 256|192|01 00 01 00 02, 04 00 10 00 00 01 01 00, 04 00 10 00 00 01 00 01
sort|t = 256, then t = 1|192|01 00 01 00 02, 04 00 10 00 00 01 00 01, 04 00 10 00 00 01 01 00
sort|all nine kinds, falling|192|01 00 01 00 03, 04 00 18 00 00 01 02 03, 02 00 17 00 02 01, 02 00 16 00 01 00, 02 00 15 00 00 02, 05 00 14 00 00 01 02 64 00, 02 00 13 00 02 00, 02 00 12 00 01 02, 06 00 11 00 00 01 3C 00 FF FF, 04 00 10 00 00 01 FD FF
sort|six lines, two of them again|192|01 00 01 00 02, 02 00 17 00 01 00, 02 00 12 00 00 01, 04 00 10 00 00 01 01 00, 02 00 12 00 00 01, 04 00 10 00 00 01 00 01, 02 00 17 00 01 00
sort|six lines, just room|33|01 00 01 00 02, 02 00 17 00 01 00, 02 00 12 00 00 01, 04 00 10 00 00 01 01 00, 02 00 12 00 00 01, 04 00 10 00 00 01 00 01, 02 00 17 00 01 00
sort|six lines, room a byte short|32|01 00 01 00 02, 02 00 17 00 01 00, 02 00 12 00 00 01, 04 00 10 00 00 01 01 00, 02 00 12 00 00 01, 04 00 10 00 00 01 00 01, 02 00 17 00 01 00
sort|six lines, no room|0|01 00 01 00 02, 02 00 17 00 01 00, 02 00 12 00 00 01, 04 00 10 00 00 01 01 00, 02 00 12 00 00 01, 04 00 10 00 00 01 00 01, 02 00 17 00 01 00
sort|16 equal lines, room for one|11|01 00 01 00 02, 02 00 12 00 00 01 10*
sort|16 equal lines, room a byte short|10|01 00 01 00 02, 02 00 12 00 00 01 10*
sort|16 lines, sorted, just room|101|01 00 01 00 08, 02 00 12 00 00 00 08+, 02 00 12 00 01 00 08+
sort|16 lines of the longest kind, the last 8 below the first 8|165|01 00 01 00 02, 06 00 11 00 00 01 3C 00 00 F8 10+
sort|no bytes|192|
sort|C = 9|192|01 00 01 00 09
sort|six lines, then one of kind 25|192|01 00 01 00 02, 02 00 17 00 01 00, 02 00 12 00 00 01, 04 00 10 00 00 01 01 00, 02 00 12 00 00 01, 04 00 10 00 00 01 00 01, 02 00 17 00 01 00, 02 00 19 00 00 01
sort|six lines, then a wrong length|192|01 00 01 00 02, 02 00 17 00 01 00, 02 00 12 00 00 01, 04 00 10 00 00 01 01 00, 02 00 12 00 00 01, 04 00 10 00 00 01 00 01, 02 00 17 00 01 00, 03 00 12 00 00 01 00
sort|six lines, then a bad clock|192|01 00 01 00 02, 02 00 17 00 01 00, 02 00 12 00 00 01, 04 00 10 00 00 01 01 00, 02 00 12 00 00 01, 04 00 10 00 00 01 00 01, 02 00 17 00 01 00, 02 00 12 00 00 02
sort|17 lines, 16 of them different|192|01 00 01 00 08, 02 00 12 00 00 00 08+, 02 00 12 00 01 00 08+, 02 00 12 00 01 07
sort|9 sporadic lines, 8 of them different|192|01 00 01 00 02, 04 00 10 00 00 01 FF 00 08+, 04 00 10 00 00 01 FF 00
sort|six lines, then a bad clock, and no room|0|01 00 01 00 02, 02 00 17 00 01 00, 02 00 12 00 00 01, 04 00 10 00 00 01 01 00, 02 00 12 00 00 01, 04 00 10 00 00 01 00 01, 02 00 17 00 01 00, 02 00 12 00 00 02
#|Sheet values to sort
value|no line, another past it|08 00, 17 07 09
value|three lines falling|02 03, 12 00 01, 11 00 00 01 00 00 00, 10 00 01 01 00
value|a line twice|02 03, 12 00 01, 10 00 01 01 00, 12 00 01
value|16 equal lines|02 10, 12 00 01
value|four lines, the first and the last exchanged|08 04, 12 00 03, 12 00 01, 12 00 02, 12 00 00, 12 00 04 04+, 12 01 00 08+
value|C = 0|00 01, 12 00 01
value|17 equal lines|02 11, 12 00 01
value|a bad clock|02 03, 12 00 01, 17 07 09, 10 00 01 01 00
value|9 equal sporadic lines|02 09, 10 00 01 01 00
value|9 sporadic lines|08 09, 10 00 01 00 00 10+",
    )
}
