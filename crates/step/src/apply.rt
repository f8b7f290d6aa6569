// The rows held, by one filling: what each becomes is built in the row after those found.
ghost use Rattle.step.specs.Apply.{Applying, Applied};

use crate::advance::{Next, advance_row};
use crate::filling::Filling;
use lines::plan::Plan;
use remainders::compare::is_duplicate;
use remainders::rows::SIZE;

// Those found from row `to` on, with what each of n rows from row `from` on becomes by a filling that the rules allow; there is room for so many.
pub(crate) fn apply_filling(
    rows: &mut [u32; SIZE],
    from: usize,
    to: usize,
    n: usize,
    found: usize,
    room: usize,
    plan: Plan,
    f: Filling,
) -> Option<usize>
    requires { Applying rows.old from to n found room f }
    ensures { Applied plan f from to n found room result rows.old rows.new }
{
    let mut live = found;
    for k in 0..n {
        match advance_row(rows, from + k, to + live, plan, f) {
            Next::Fails => continue,
            Next::Over => return None,
            Next::Onto => {
                if is_duplicate(rows, to, live, plan.clocks, plan.leaders, plan.precede) {
                    continue;
                }
                if room <= live {
                    return None;
                }
                live += 1;
            }
        }
    }
    Some(live)
}
