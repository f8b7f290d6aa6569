// A sheet's lines sorted into rows of words, and found again there.
ghost use Rattle.std.specs.Prelude.{cond, ◌≡◌, ◌+◌, ◌<◌};
ghost use Rattle.work.specs.Parts.{is_relation, is_rule, is_delay, is_counted};
ghost use Rattle.lines.specs.LineWords.{line_of_words};
ghost use Rattle.lines.specs.Plan.{plan_rows, plan_line, LineRow, PutPlanLine, PutPart, Preparing, PlanOf};

use crate::leads::precedes;
use crate::line_words::{LineWords, line_of_words, words_of_line};
use crate::plan::{COUNTED, DELAYS, LINE_WIDTH, NUMBERS, Plan, RELATIONS, RULES};
use crate::relevant::flag_line;
use records::line::Line;
use records::sheet::Sheet;

fn is_relation(l: Line) -> bool
    ensures { result ≡ is_relation l }
{
    match l {
        Line::Relation { .. } => true,
        Line::Sporadic { .. }
        | Line::Implies { .. }
        | Line::Excludes { .. }
        | Line::Delayed { .. }
        | Line::Weakly { .. }
        | Line::Strictly { .. }
        | Line::Kills { .. }
        | Line::Counted { .. } => false,
    }
}

// Implies, excludes or kills: what it asks of the ticks of an instant is asked once per filling.
fn is_rule(l: Line) -> bool
    ensures { result ≡ is_rule l }
{
    match l {
        Line::Implies { .. } | Line::Excludes { .. } | Line::Kills { .. } => true,
        Line::Sporadic { .. }
        | Line::Relation { .. }
        | Line::Delayed { .. }
        | Line::Weakly { .. }
        | Line::Strictly { .. }
        | Line::Counted { .. } => false,
    }
}

fn is_delay(l: Line) -> bool
    ensures { result ≡ is_delay l }
{
    match l {
        Line::Delayed { .. } => true,
        Line::Sporadic { .. }
        | Line::Relation { .. }
        | Line::Implies { .. }
        | Line::Excludes { .. }
        | Line::Weakly { .. }
        | Line::Strictly { .. }
        | Line::Kills { .. }
        | Line::Counted { .. } => false,
    }
}

fn is_counted(l: Line) -> bool
    ensures { result ≡ is_counted l }
{
    match l {
        Line::Counted { .. } => true,
        Line::Sporadic { .. }
        | Line::Relation { .. }
        | Line::Implies { .. }
        | Line::Excludes { .. }
        | Line::Delayed { .. }
        | Line::Weakly { .. }
        | Line::Strictly { .. }
        | Line::Kills { .. } => false,
    }
}

// The line of row j.
pub(crate) fn plan_line(lines: &[u32; NUMBERS], j: usize) -> Line
    requires { j < plan_rows }
    ensures { result ≡ plan_line lines.now j }
{
    let at = LINE_WIDTH * j;
    line_of_words(LineWords {
        kind: lines[at],
        a: lines[at + 1],
        b: lines[at + 2],
        d: lines[at + 3],
        x: lines[at + 4],
        y: lines[at + 5],
    })
}

// Stores six words in row j; the other rows stay.
fn put_words(lines: &mut [u32; NUMBERS], j: usize, w: LineWords)
    requires { LineRow lines.old j }
    ensures { PutPlanLine j (line_of_words w) lines.old lines.new }
{
    let at = LINE_WIDTH * j;
    lines[at] = w.kind;
    lines[at + 1] = w.a;
    lines[at + 2] = w.b;
    lines[at + 3] = w.d;
    lines[at + 4] = w.x;
    lines[at + 5] = w.y;
}

// Stores a line's words behind the `count` rows of a part, from row `from` on, if it belongs there; tells how many rows the part has then.
fn put_part(
    lines: &mut [u32; NUMBERS],
    from: usize,
    count: usize,
    belongs: bool,
    w: LineWords,
) -> usize
    requires { LineRow lines.old (from + count) }
    ensures { PutPart from count belongs (line_of_words w) result lines.old lines.new }
{
    if !belongs {
        return count;
    }
    put_words(lines, from + count, w);
    count + 1
}

// What is found out about a sheet once, in one pass over its lines. (`flags`: as `next` in `flag_part`.)
pub fn plan_of(s: Sheet, lines: &mut [u32; NUMBERS]) -> Plan
    requires { Preparing s lines.old }
    ensures { PlanOf s result lines.new }
{
    let mut relations = 0;
    let mut rules = 0;
    let mut delays = 0;
    let mut counted = 0;
    let mut leaders = 0;
    let mut precede = [false; 16];
    let mut named = [false; 8];
    for i in 0..s.count {
        let l = s.lines[i];
        let w = words_of_line(l);
        put_words(lines, i, w);
        relations = put_part(lines, RELATIONS, relations, is_relation(l), w);
        rules = put_part(lines, RULES, rules, is_rule(l), w);
        delays = put_part(lines, DELAYS, delays, is_delay(l), w);
        counted = put_part(lines, COUNTED, counted, is_counted(l), w);
        let leads = precedes(l);
        precede[i] = leads;
        if leads {
            leaders = i + 1;
        }
        let flags = flag_line(l, named);
        named = flags;
    }
    Plan {
        clocks: usize::from(s.clocks),
        relations,
        rules,
        delays,
        counted,
        leaders,
        precede,
        named,
    }
}
