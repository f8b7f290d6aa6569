// Instants to read, each written back.
// A row: instant|name|clocks|bytes or eight|name|clocks|bytes.
use crate::rows::rows;
use std::io;

fn records(rt: &impl Print) -> io::Result<()> {
    rows(
        rt,
        "#|Instants to read
instant|listing 1|2|06 00 20 00 01 FD FF 00 00 00
instant|listing 2|2|06 00 20 00 02 FE FF 00 00 00
instant|listing 3|2|06 00 20 00 00 FF FF 01 00 00
instant|listing 4|2|06 00 20 00 00 01 00 00 00 00
instant|listing 5|2|06 00 20 00 00 00 00 00 00 00
instant|C = 1|1|03 00 20 00 02 00 80
instant|C = 8|8|18 00 20 00 00 00 80 01 FF 7F 02 FF FF 00 00 00 01 01 00 02 FD FF 01 34 12 00 FF 00
eight|C = 1, all eight clocks of the value|1|03 00 20 00 01 FF FF
#|Instants to read: the clock count
instant|C = 0|0|03 00 20 00 00 00 00
instant|C = 0, length 0|0|00 00 20 00
instant|C = 9|9|03 00 20 00 00 00 00
instant|C = 255|255|03 00 20 00 00 00 00
instant|C = 0 and no bytes|0|
#|Instants to read: not one record
instant|no bytes|1|
instant|1 byte|1|03
instant|2 bytes|1|03 00
instant|3 bytes|1|03 00 20
instant|no body|1|03 00 20 00
instant|a byte short|1|03 00 20 00 00 00
instant|a byte after it|1|03 00 20 00 00 00 00, 00
instant|two records|1|03 00 20 00 00 00 00, 03 00 20 00 00 00 00
instant|a byte short, kind 31|1|03 00 1F 00 00 00
instant|a byte after it, kind 31|1|03 00 1F 00 00 00 00, 00
instant|a byte after it, tick byte 3|1|03 00 20 00 03 00 00, 00",
    )
}

fn bodies(rt: &impl Print) -> io::Result<()> {
    rows(
        rt,
        "#|Instants to read: kind, length, tick bytes
instant|kind 31|1|03 00 1F 00 00 00 00
instant|kind 34|1|03 00 22 00 00 00 00
instant|kind 288|1|03 00 20 01 00 00 00
instant|a clocks record|1|01 00 01 00 01
instant|kind 31, wrong length|1|00 00 1F 00
instant|length 0|1|00 00 20 00
instant|length 2|1|02 00 20 00 00 00
instant|length 4|1|04 00 20 00 00 00 00 00
instant|length 3 of two clocks|2|03 00 20 00 00 00 00
instant|length 6 of one clock|1|06 00 20 00 00 00 00 00 00 00
instant|wrong length, tick byte 3|1|04 00 20 00 03 00 00 00
instant|tick byte 2|1|03 00 20 00 02 00 00
instant|tick byte 3|1|03 00 20 00 03 00 00
instant|tick byte 255|1|03 00 20 00 FF 00 00
instant|second tick byte 3|2|06 00 20 00 00 00 00 03 00 00
instant|eighth tick byte 3|8|18 00 20 00 00 00 00 00 00 00 00 00 00 00 00 00 00 00 00 00 00 00 00 00 00 03 00 00",
    )
}

pub fn all(rt: &impl Print) -> io::Result<()> {
    records(rt)?;
    bodies(rt)
}
