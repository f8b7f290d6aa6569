// A row of a table is a line of text; its fields are parted by '|'.

// The first field of a row, and the fields behind it, nothing where there is none.
pub fn parted(row: &str) -> (&str, &str) {
    row.split_once('|').unwrap_or((row, ""))
}

// The number that a field tells, 0 where it tells none.
pub fn number_of(field: &str) -> usize {
    field.parse().unwrap_or(0)
}

// The same of a number of one byte.
pub fn byte_of(field: &str) -> u8 {
    field.parse().unwrap_or(0)
}
