// Which lines have leads, and what a filling asks of the leads and makes of them: once per filling.
ghost use Rattle.std.specs.Prelude.{◌≡◌, ◌≤◌};
ghost use Rattle.work.specs.Parts.{is_precedes};
ghost use Rattle.lines.specs.Begun.{AskedLead, LeadChangesOf};

use crate::plan::NUMBERS;
use crate::sorted::plan_line;
use records::line::Line;
use remainders::clock::ticks_at;

pub(crate) fn precedes(l: Line) -> bool
    ensures { result ≡ is_precedes l }
{
    match l {
        Line::Weakly { .. } | Line::Strictly { .. } => true,
        Line::Sporadic { .. }
        | Line::Relation { .. }
        | Line::Implies { .. }
        | Line::Excludes { .. }
        | Line::Delayed { .. }
        | Line::Kills { .. }
        | Line::Counted { .. } => false,
    }
}

// Of one line the lead that it needs, its tick of A and its tick of B.
#[derive(Clone, Copy)]
struct Ask {
    need: u16,
    gain: u16,
    loss: u16,
}

fn ask_lead(l: Line, ticks: [bool; 8]) -> Ask
    ensures { AskedLead ticks l result.need result.gain result.loss }
{
    match l {
        Line::Weakly { a, b } => {
            let gain = u16::from(ticks_at(ticks, a));
            let loss = u16::from(ticks_at(ticks, b));
            Ask {
                need: loss.saturating_sub(gain),
                gain,
                loss,
            }
        }
        Line::Strictly { a, b } => {
            let loss = u16::from(ticks_at(ticks, b));
            Ask {
                need: loss,
                gain: u16::from(ticks_at(ticks, a)),
                loss,
            }
        }
        Line::Sporadic { .. }
        | Line::Relation { .. }
        | Line::Implies { .. }
        | Line::Excludes { .. }
        | Line::Delayed { .. }
        | Line::Kills { .. }
        | Line::Counted { .. } => Ask {
            need: 0,
            gain: 0,
            loss: 0,
        },
    }
}

// Of each of the first lines the lead that it needs, its ticks of A and its ticks of B. Each is a list of its own in every contract, so it is an array of its own here.
#[derive(Clone, Copy)]
pub struct LeadChanges {
    pub needs: [u16; 16],
    pub gains: [u16; 16],
    pub losses: [u16; 16],
}

// For each of the first `leaders` lines.
pub fn lead_changes(lines: &[u32; NUMBERS], leaders: usize, ticks: [bool; 8]) -> LeadChanges
    requires { leaders ≤ 16 }
    ensures { LeadChangesOf lines.now leaders ticks result.needs result.gains result.losses }
{
    let mut needs = [0u16; 16];
    let mut gains = [0u16; 16];
    let mut losses = [0u16; 16];
    for i in 0..leaders {
        let ask = ask_lead(plan_line(lines, i), ticks);
        needs[i] = ask.need;
        gains[i] = ask.gain;
        losses[i] = ask.loss;
    }
    LeadChanges {
        needs,
        gains,
        losses,
    }
}
