// Words compared.
use crate::state::State;
use std::io;

// Whether calls left a state's words as they were.
pub fn compared(rt: &impl Print, before: &State, after: &State) -> io::Result<()> {
    if before == after {
        println!(rt; "  no word changed")
    } else {
        println!(rt; "  words changed")
    }
}
