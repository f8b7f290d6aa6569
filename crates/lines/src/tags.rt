// The questions of a line asked of several lines, and of all clocks; the numbers of both come from a plan, whose type bounds them.
ghost use Rattle.std.specs.Prelude.{◌≡◌, ℕ, ◌≤◌};
ghost use Rattle.std.specs.Int.Signed.{le_z};
ghost use Rattle.tesl.specs.Lists.{all, below};
ghost use Rattle.tesl.specs.Run.{tag_in};
ghost use Rattle.work.specs.Questions.{tags_hold};
ghost use Rattle.lines.specs.Plan.{plan_lines, relations_from};

use crate::line::tags_hold;
use crate::plan::{NUMBERS, RELATIONS};
use crate::sorted::plan_line;

// What n relations ask of the tags.
pub fn all_tags_hold(lines: &[u32; NUMBERS], n: usize, tags: [i16; 8]) -> bool
    requires { n ≤ 16 }
    ensures { result ≡ all (tags_hold tags) (plan_lines lines.now relations_from n) }
{
    for i in 0..n {
        if !tags_hold(plan_line(lines, RELATIONS + i), tags) {
            return false;
        }
    }
    true
}

// No clock's tag is below its tag at the instant before.
pub fn none_falls(clocks: usize, was: [i16; 8], tags: [i16; 8]) -> bool
    requires { clocks ≤ 8 }
    ensures { result ≡ below clocks (λ (k : ℕ). le_z (tag_in was k) (tag_in tags k)) }
{
    for k in 0..clocks {
        if tags[k] < was[k] {
            return false;
        }
    }
    true
}
