// The record at each place of some byte strings.
// A row: place|name|at|bytes.
use crate::rows::rows;
use std::io;

pub fn all(rt: &impl Print) -> io::Result<()> {
    rows(
        rt,
        "#|Records at a place
place|no bytes|0|
place|no bytes|1|
place|three bytes|0|00 00 01
place|four bytes, no body|0|00 00 01 00
place|body of one byte missing|0|01 00 01 00
place|length and kind by both bytes|0|00 00 02 01
place|the listing|0|01 00 01 00 02, 05 00 14 00 00 00 01 02 00
place|the listing|1|01 00 01 00 02, 05 00 14 00 00 00 01 02 00
place|the listing|2|01 00 01 00 02, 05 00 14 00 00 00 01 02 00
place|the listing|3|01 00 01 00 02, 05 00 14 00 00 00 01 02 00
place|the listing|4|01 00 01 00 02, 05 00 14 00 00 00 01 02 00
place|the listing|5|01 00 01 00 02, 05 00 14 00 00 00 01 02 00
place|the listing|6|01 00 01 00 02, 05 00 14 00 00 00 01 02 00
place|the listing|7|01 00 01 00 02, 05 00 14 00 00 00 01 02 00
place|the listing|8|01 00 01 00 02, 05 00 14 00 00 00 01 02 00
place|the listing|9|01 00 01 00 02, 05 00 14 00 00 00 01 02 00
place|the listing|10|01 00 01 00 02, 05 00 14 00 00 00 01 02 00
place|the listing|11|01 00 01 00 02, 05 00 14 00 00 00 01 02 00
place|the listing|12|01 00 01 00 02, 05 00 14 00 00 00 01 02 00
place|the listing|13|01 00 01 00 02, 05 00 14 00 00 00 01 02 00
place|the listing|14|01 00 01 00 02, 05 00 14 00 00 00 01 02 00
place|the listing|15|01 00 01 00 02, 05 00 14 00 00 00 01 02 00
place|the listing|18446744073709551615|01 00 01 00 02, 05 00 14 00 00 00 01 02 00",
    )
}
