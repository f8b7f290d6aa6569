// What a run is judged to be.

#[derive(Clone, Copy, Debug, PartialEq, Eq)]
pub enum Verdict {
    Exhausted,
    Broken,
    Holding {
        // How many distinct remainders.
        live: usize,
        // One of them has no obligation, neither of sporadic and delay lines nor of lines that count.
        clear: bool,
    },
}
