// Sheets to read of one line of a kind: of which lengths it is taken, and at which bytes of its body a clock stands.
// A row: length|name|kind, clock|name|kind or read|name|bytes.
use crate::rows::rows;
use std::io;

pub fn all(rt: &impl Print) -> io::Result<()> {
    rows(
        rt,
        "#|Sheets to read: the length of a line
length|kind 15 at lengths 0 to 7|15
length|kind 16 at lengths 0 to 7|16
length|kind 17 at lengths 0 to 7|17
length|kind 18 at lengths 0 to 7|18
length|kind 19 at lengths 0 to 7|19
length|kind 20 at lengths 0 to 7|20
length|kind 21 at lengths 0 to 7|21
length|kind 22 at lengths 0 to 7|22
length|kind 23 at lengths 0 to 7|23
length|kind 24 at lengths 0 to 7|24
length|kind 25 at lengths 0 to 7|25
#|Sheets to read: clocks of a line, C = 2
clock|kind 16 with 2 at each of 4 bytes|16
clock|kind 17 with 2 at each of 6 bytes|17
clock|kind 18 with 2 at each of 2 bytes|18
clock|kind 19 with 2 at each of 2 bytes|19
clock|kind 20 with 2 at each of 5 bytes|20
clock|kind 21 with 2 at each of 2 bytes|21
clock|kind 22 with 2 at each of 2 bytes|22
clock|kind 23 with 2 at each of 2 bytes|23
clock|kind 24 with 2 at each of 4 bytes|24
read|0 implies 1|01 00 01 00 02, 02 00 12 00 00 01
read|0 implies 2|01 00 01 00 02, 02 00 12 00 00 02
read|255 implies 0|01 00 01 00 02, 02 00 12 00 FF 00
read|0 delayed by 2 on 0 implies 2|01 00 01 00 02, 05 00 14 00 00 00 02 02 00",
    )
}
