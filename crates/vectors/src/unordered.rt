// Sheets to read in any order of their lines, repeats allowed, each written back.
// A row: any|name|bytes, and behind it |lines where the lines are listed.
use crate::rows::rows;
use std::io;

pub fn all(rt: &impl Print) -> io::Result<()> {
    rows(
        rt,
        "#|Sheets to read in any order
any|t = 256, then t = 1|01 00 01 00 02, 04 00 10 00 00 01 00 01, 04 00 10 00 00 01 01 00|lines
any|t = 1, then t = 256|01 00 01 00 02, 04 00 10 00 00 01 01 00, 04 00 10 00 00 01 00 01|lines
any|a repeated line, and a clock in both places|01 00 01 00 08, 02 00 13 00 07 07, 02 00 13 00 07 07|lines
any|kinds falling, a line twice|01 00 01 00 02, 02 00 17 00 00 01, 02 00 12 00 01 00, 02 00 17 00 00 01|lines
any|one clock, no line|01 00 01 00 01
any|16 equal lines|01 00 01 00 02, 02 00 12 00 00 01 10*
any|17 equal lines|01 00 01 00 02, 02 00 12 00 00 01 11*
any|16 lines, the last again|01 00 01 00 08, 02 00 12 00 00 00 08+, 02 00 12 00 01 00 08+, 02 00 12 00 01 07
any|8 equal sporadic lines|01 00 01 00 02, 04 00 10 00 00 01 FF FF 08*
any|9 equal sporadic lines|01 00 01 00 02, 04 00 10 00 00 01 FF FF 09*
any|8 sporadic lines, then 8 others|01 00 01 00 08, 04 00 10 00 00 01 FF 00 08+, 02 00 12 00 00 00 08+
any|8 sporadic lines, 7 others, a ninth sporadic|01 00 01 00 08, 04 00 10 00 00 01 FF 00 08+, 02 00 12 00 00 00 07+, 04 00 10 00 00 01 FF FF
any|8 others, then 8 sporadic lines|01 00 01 00 08, 02 00 12 00 00 00 08+, 04 00 10 00 00 01 FF 00 08+
any|no bytes|
any|kind 2|01 00 02 00 02
any|length 2|02 00 01 00 02 00
any|C = 9|01 00 01 00 09
any|a line not above, torn|01 00 01 00 02, 02 00 13 00 00 01, 02 00 12 00 00
any|a line not above, of kind 15|01 00 01 00 02, 02 00 13 00 00 01, 02 00 0F 00 00 01
any|a line not above, of a wrong length|01 00 01 00 02, 02 00 13 00 00 01, 01 00 12 00 00
any|a line not above, with a bad clock|01 00 01 00 02, 02 00 13 00 00 01, 02 00 12 00 00 02",
    )
}
