// Numbered instants to read, and the next instant of a run.
// A row: instant|name|clocks|bytes or next|name|held|bytes.
use crate::rows::rows;
use std::io;

fn alone(rt: &impl Print) -> io::Result<()> {
    rows(
        rt,
        "#|Numbered instants to read
instant|number 0|1|05 00 21 00 00 00 01 FD FF
instant|number 1|1|05 00 21 00 01 00 01 FD FF
instant|number 257|1|05 00 21 00 01 01 01 FD FF
instant|number 771, bytes that no tick has|1|05 00 21 00 03 03 01 FD FF
instant|number 4,000|1|05 00 21 00 A0 0F 01 FD FF
instant|number 4,001|1|05 00 21 00 A1 0F 01 FD FF
instant|number 65,535|1|05 00 21 00 FF FF 01 FD FF
instant|listing 1, number 1|2|08 00 21 00 01 00 01 FD FF 00 00 00
instant|C = 8, number 513|8|1A 00 21 00 01 02 00 00 80 01 FF 7F 02 FF FF 00 00 00 01 01 00 02 FD FF 01 34 12 00 FF 00
#|Numbered instants to read: length, kind, tick bytes
instant|kind 33, no body|1|00 00 21 00
instant|kind 33, the number alone|1|02 00 21 00 01 00
instant|kind 33 of kind 32's length|1|03 00 21 00 01 FD FF
instant|kind 33, a byte less|1|04 00 21 00 01 00 01 FD
instant|kind 33, a byte more|1|06 00 21 00 01 00 01 FD FF 00
instant|kind 33, a clock more|1|08 00 21 00 01 00 01 FD FF 00 00 00
instant|kind 32 of kind 33's length|1|05 00 20 00 01 00 01 FD FF
instant|kind 31 of kind 33's length|1|05 00 1F 00 01 00 01 FD FF
instant|kind 34 of kind 33's length|1|05 00 22 00 01 00 01 FD FF
instant|kind 289|1|05 00 21 01 01 00 01 FD FF
instant|tick byte 3|1|05 00 21 00 01 00 03 FD FF
instant|wrong length, tick byte 3|1|06 00 21 00 01 00 03 FD FF 00
instant|a byte short|1|05 00 21 00 01 00 01 FD
instant|a byte after it|1|05 00 21 00 01 00 01 FD FF, 00
instant|C = 0|0|05 00 21 00 01 00 01 FD FF
instant|C = 9|9|05 00 21 00 01 00 01 FD FF",
    )
}

fn next(rt: &impl Print) -> io::Result<()> {
    rows(
        rt,
        "#|The next instant: the number
next|number 1, none held|0|05 00 21 00 01 00 01 FD FF
next|number 0, none held|0|05 00 21 00 00 00 01 FD FF
next|number 2, none held|0|05 00 21 00 02 00 01 FD FF
next|number 257, none held|0|05 00 21 00 01 01 01 FD FF
next|number 1, one held|1|05 00 21 00 01 00 01 FD FF
next|number 2, one held|1|05 00 21 00 02 00 01 FD FF
next|number 3, one held|1|05 00 21 00 03 00 01 FD FF
next|number 256, 255 held|255|05 00 21 00 00 01 01 FD FF
next|number 0, 255 held|255|05 00 21 00 00 00 01 FD FF
next|number 3,999, 3,999 held|3999|05 00 21 00 9F 0F 01 FD FF
next|number 4,000, 3,999 held|3999|05 00 21 00 A0 0F 01 FD FF
next|number 4,001, 3,999 held|3999|05 00 21 00 A1 0F 01 FD FF
next|plain, none held|0|03 00 20 00 01 FD FF
next|plain, 3,999 held|3999|03 00 20 00 01 FD FF
#|The next instant: 12 to 15, then 16, then 19
next|plain, 4,000 held|4000|03 00 20 00 01 FD FF
next|number 4,001, 4,000 held|4000|05 00 21 00 A1 0F 01 FD FF
next|number 1, 4,000 held|4000|05 00 21 00 01 00 01 FD FF
next|number 0, 4,000 held|4000|05 00 21 00 00 00 01 FD FF
next|number 65,535, 65,534 held|65534|05 00 21 00 FF FF 01 FD FF
next|number 0, 65,535 held|65535|05 00 21 00 00 00 01 FD FF
next|number 0, as many held as can be told|18446744073709551615|05 00 21 00 00 00 01 FD FF
next|tick byte 3, 4,000 held|4000|05 00 21 00 01 00 03 FD FF
next|tick byte 3, number 0, none held|0|05 00 21 00 00 00 03 FD FF
next|kind 33 of kind 32's length, none held|0|03 00 21 00 01 FD FF
next|no bytes, 4,000 held|4000|",
    )
}

pub fn all(rt: &impl Print) -> io::Result<()> {
    alone(rt)?;
    next(rt)
}
