// Instant values to write.
// A row: fill|name|size|value or double|name|value|value. An instant value: the clock count that it is written with, its kind and its number, then the tick and the tag of each clock.
use crate::rows::rows;
use std::io;

pub fn all(rt: &impl Print) -> io::Result<()> {
    rows(
        rt,
        "#|Instant values to write
fill|listing 1|192|02, 20 00 00, 01 FD FF
fill|listing 1, just room|10|02, 20 00 00, 01 FD FF
fill|listing 1, room a byte short|9|02, 20 00 00, 01 FD FF
fill|listing 1, no room|0|02, 20 00 00, 01 FD FF
fill|its first clock alone|192|01, 20 00 00, 01 FD FF
fill|C = 8, just room|28|08, 20 00 00, 00 00 80, 01 FF 7F, 02 FF FF, 00 00 00 04*, 02 01 00
fill|C = 8, room a byte short|27|08, 20 00 00, 00 00 80, 01 FF 7F, 02 FF FF, 00 00 00 04*, 02 01 00
fill|C = 0|192|00, 20 00 00, 01 FD FF
fill|C = 9|192|09, 20 00 00, 01 FD FF
fill|C = 0 and no room|0|00, 20 00 00, 01 FD FF
#|Instant values to write: numbered
fill|listing 1, number 1|192|02, 21 01 00, 01 FD FF
fill|just room|12|02, 21 01 00, 01 FD FF
fill|room a byte short|11|02, 21 01 00, 01 FD FF
fill|number 0|192|01, 21 00 00, 01 FD FF
fill|number 4,000|192|01, 21 A0 0F, 01 FD FF
fill|number 65,535|192|01, 21 FF FF, 01 FD FF
fill|C = 8, number 513, just room|30|08, 21 01 02, 00 00 80, 01 FF 7F, 02 FF FF, 00 00 00 04*, 02 01 00
fill|C = 8, room for a plain one|28|08, 21 01 02, 00 00 80, 01 FF 7F, 02 FF FF, 00 00 00 04*, 02 01 00
fill|C = 0|192|00, 21 01 02, 00 00 80, 01 FF 7F, 02 FF FF, 00 00 00 04*, 02 01 00
fill|C = 9|192|09, 21 01 02, 00 00 80, 01 FF 7F, 02 FF FF, 00 00 00 04*, 02 01 00
double|numbers 1 and 257|02, 21 01 00, 01 FD FF|02, 21 01 01, 01 FD FF
double|plain and numbered 1|02, 20 00 00, 01 FD FF|02, 21 01 00, 01 FD FF
#|Instant values to write: unused places
double|C = 2, another clock 2|02, 20 00 00, 01 FD FF|02, 20 00 00, 01 FD FF, 00 00 00, 02 05 00
double|C = 2, another clock 7|02, 20 00 00, 01 FD FF|02, 20 00 00, 01 FD FF, 00 00 00 06*, 01 00 80
double|C = 3, another clock 2|03, 20 00 00, 01 FD FF|03, 20 00 00, 01 FD FF, 00 00 00, 02 05 00
double|C = 8, another clock 7|08, 20 00 00, 01 FD FF|08, 20 00 00, 01 FD FF, 00 00 00 06*, 01 00 80",
    )
}
