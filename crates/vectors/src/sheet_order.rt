// Sheets to read: each line above the one before it, by kind and then by the bytes of the body. Of two faults of one line the first decides, of two lines the earlier one's; then repeats at the limits of lines and of sporadic lines, and two lines of a kind that differ from a byte on.
// A row: read|name|bytes or twice|name|kind.
use crate::rows::rows;
use std::io;

pub fn all(rt: &impl Print) -> io::Result<()> {
    rows(
        rt,
        "#|Sheets to read: the order of lines
read|t = 256, then t = 1|01 00 01 00 02, 04 00 10 00 00 01 00 01, 04 00 10 00 00 01 01 00
read|t = 1, then t = 256|01 00 01 00 02, 04 00 10 00 00 01 01 00, 04 00 10 00 00 01 00 01
read|t = 1, then t = -1|01 00 01 00 02, 04 00 10 00 00 01 01 00, 04 00 10 00 00 01 FF FF
read|t = -1, then t = 1|01 00 01 00 02, 04 00 10 00 00 01 FF FF, 04 00 10 00 00 01 01 00
read|t = 1 twice|01 00 01 00 02, 04 00 10 00 00 01 01 00, 04 00 10 00 00 01 01 00
read|kinds rising, bodies falling|01 00 01 00 02, 06 00 11 00 01 01 01 00 01 00, 02 00 12 00 00 00
read|kinds falling, bodies rising|01 00 01 00 02, 02 00 12 00 00 00, 06 00 11 00 01 01 01 00 01 00
read|a line twice, another in between|01 00 01 00 02, 04 00 10 00 00 01 01 00, 06 00 11 00 01 01 01 00 01 00, 04 00 10 00 00 01 01 00
read|a third line, the second again|01 00 01 00 02, 04 00 10 00 00 01 00 01, 04 00 10 00 00 01 01 00, 04 00 10 00 00 01 01 00
read|a third line, between the first and the second|01 00 01 00 02, 04 00 10 00 00 01 00 01, 04 00 10 00 00 01 FF FF, 04 00 10 00 00 01 01 00
read|a repeat, then a bad clock|01 00 01 00 02, 02 00 12 00 00 01, 02 00 12 00 00 01, 02 00 13 00 00 02
read|a bad clock, then a line not above|01 00 01 00 02, 02 00 12 00 00 01, 02 00 13 00 00 02, 02 00 12 00 00 01
read|a line not above, with a bad clock|01 00 01 00 02, 02 00 13 00 00 01, 02 00 12 00 00 02
read|a line not above, of a wrong length|01 00 01 00 02, 02 00 13 00 00 01, 03 00 12 00 00 01 00
read|a line not above, of kind 15|01 00 01 00 02, 02 00 13 00 00 01, 02 00 0F 00 00 01
read|a line not above, torn|01 00 01 00 02, 02 00 13 00 00 01, 02 00 12 00 00
read|a line not above, then a torn one|01 00 01 00 02, 02 00 13 00 00 01, 02 00 12 00 00 01, 02 00
read|seventeenth line, the sixteenth again|01 00 01 00 08, 02 00 12 00 00 00 08+, 02 00 12 00 01 00 08+, 02 00 12 00 01 07
read|second line, the first again|01 00 01 00 08, 02 00 12 00 01 07, 02 00 12 00 01 07
read|ninth sporadic, the eighth again|01 00 01 00 08, 04 00 10 00 00 01 FF 00 08+, 04 00 10 00 00 01 FF 07
read|ninth sporadic, the first again|01 00 01 00 08, 04 00 10 00 00 01 FF 00 08+, 04 00 10 00 00 01 FF 00
read|second sporadic, the first again|01 00 01 00 08, 04 00 10 00 00 01 FF 00, 04 00 10 00 00 01 FF 00
#|Sheets to read: two lines of a kind, C = 3
twice|kind 16, 1 then 2 at each of 4 bytes, 2 then 1 behind it|16
twice|kind 17, 1 then 2 at each of 6 bytes, 2 then 1 behind it|17
twice|kind 18, 1 then 2 at each of 2 bytes, 2 then 1 behind it|18
twice|kind 19, 1 then 2 at each of 2 bytes, 2 then 1 behind it|19
twice|kind 20, 1 then 2 at each of 5 bytes, 2 then 1 behind it|20
twice|kind 21, 1 then 2 at each of 2 bytes, 2 then 1 behind it|21
twice|kind 22, 1 then 2 at each of 2 bytes, 2 then 1 behind it|22
twice|kind 23, 1 then 2 at each of 2 bytes, 2 then 1 behind it|23
twice|kind 24, 1 then 2 at each of 4 bytes, 2 then 1 behind it|24",
    )
}
