// A run of at most 16 instants, in the order in which they happened.
ghost use Rattle.std.specs.Prelude.{◌≤◌, length};

use records::form::Form;
use records::instant::{Instant, Tick};

// There is no heap, so it is an array and a count.
#[derive(Clone, Copy)]
pub struct Run {
    // How many instants it has.
    pub count: usize,
    // Its instants, at the front.
    pub instants: [Instant; 16],
}

// A run that has not begun.
pub fn no_instants() -> Run {
    let instant = Instant {
        form: Form::Plain,
        ticks: [Tick::Idle; 8],
        tags: [0; 8],
    };
    Run {
        count: 0,
        instants: [instant; 16],
    }
}

// A run with one instant more; a seventeenth is left out.
pub fn with_instant(mut r: Run, v: Instant) -> Run {
    if r.count < 16 {
        r.instants[r.count] = v;
        r.count += 1;
    }
    r
}

// The instants of a run, at most 16.
pub(crate) fn instants(run: &Run) -> &[Instant]
    ensures { length result.now ≤ 16 }
{
    &run.instants[..run.count.min(16)]
}
