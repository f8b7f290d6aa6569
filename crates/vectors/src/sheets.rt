// Sheets to read, each written back.
// A row: read|name|bytes, and behind it |lines where the lines are listed.
use crate::rows::rows;
use std::io;

pub fn all(rt: &impl Print) -> io::Result<()> {
    rows(
        rt,
        "#|Sheets to read
read|the listing|01 00 01 00 02, 05 00 14 00 00 00 01 02 00|lines
read|all nine kinds|01 00 01 00 03, 04 00 10 00 00 01 FD FF, 06 00 11 00 00 01 3C 00 FF FF, 02 00 12 00 01 02, 02 00 13 00 02 00, 05 00 14 00 00 01 02 64 00, 02 00 15 00 00 02, 02 00 16 00 01 00, 02 00 17 00 02 01, 04 00 18 00 00 01 02 03|lines
read|t, p, q and d at their ends|01 00 01 00 01, 04 00 10 00 00 00 00 80, 04 00 10 00 00 00 FF 7F, 06 00 11 00 00 00 00 80 FF 7F, 06 00 11 00 00 00 FF FF 00 00, 05 00 14 00 00 00 00 00 00, 05 00 14 00 00 00 00 FF FF|lines
read|a clock in both places|01 00 01 00 08, 02 00 13 00 07 07, 02 00 15 00 07 07|lines
read|one clock, no line|01 00 01 00 01
read|eight clocks, no line|01 00 01 00 08
#|Sheets to read: how many lines
read|16 lines|01 00 01 00 08, 02 00 12 00 00 00 08+, 02 00 12 00 01 00 08+
read|17 lines|01 00 01 00 08, 02 00 12 00 00 00 08+, 02 00 12 00 01 00 08+, 02 00 12 00 02 00
read|16 lines of the longest kind|01 00 01 00 02, 06 00 11 00 00 01 3C 00 00 00 10+
read|8 sporadic lines|01 00 01 00 08, 04 00 10 00 00 01 FF 00 08+
read|9 sporadic lines|01 00 01 00 08, 04 00 10 00 00 01 FF 00 08+, 04 00 10 00 00 01 FF 08
read|8 sporadic lines, then 8 others|01 00 01 00 08, 04 00 10 00 00 01 FF 00 08+, 02 00 12 00 00 00 08+
read|8 sporadic lines, 7 others, a ninth sporadic|01 00 01 00 08, 04 00 10 00 00 01 FF 00 08+, 02 00 12 00 00 00 07+, 04 00 10 00 00 01 FF 08
read|8 others, then 8 sporadic lines|01 00 01 00 08, 02 00 12 00 00 00 08+, 04 00 10 00 00 01 FF 00 08+",
    )
}
