// The same sheet with its lines reversed, and with one repeated: opened by document 01's rules and called beside the sorted one, each due the sorted one's reply.
use crate::tally;
use cases::disorder::{Disordered, repeated, reversed};
use cases::tally::{Tally, count, count_if};
use cases::tape::front;
use judge::answer::Answer;
use judge::monitor::{CallResult, observe, open_base};
use records::refusal::Refusal;
use records::sheet::Sheet;

// How a sheet in another order stands.
#[derive(Clone, Copy)]
pub enum Standing {
    // It was opened and is called.
    Called,
    // It was opened just now, and this refusal is due.
    Refused(Refusal),
    // It isn't called.
    Left,
}

// A sheet in another order.
#[derive(Clone, Copy)]
pub struct Other {
    // How it stands.
    pub standing: Standing,
    // What its last call gave.
    pub given: CallResult,
}

// The sheet in other orders.
#[derive(Clone, Copy)]
pub struct Others {
    // With its lines reversed.
    pub reversed: Other,
    // With one of them repeated.
    pub repeated: Other,
}

// Opens a sheet out of order, if there is one; else it holds what the sorted one gave, and isn't called.
fn opened(is_there: bool, x: Disordered, sorted: CallResult) -> Other {
    if !is_there {
        return Other {
            standing: Standing::Left,
            given: sorted,
        };
    }
    let standing = match x.base {
        None => Standing::Called,
        Some(refusal) => Standing::Refused(refusal),
    };
    Other {
        standing,
        given: open_base(front(&x.tape.bytes, x.tape.len)),
    }
}

// Opens both, the line at a place repeated. A sheet of one line has no other order, and one of no line none to repeat.
pub fn both_opened(sheet: Sheet, i: usize, sorted: CallResult) -> Others {
    Others {
        reversed: opened(1 < sheet.count, reversed(sheet), sorted),
        repeated: opened(0 < sheet.count, repeated(sheet, i), sorted),
    }
}

// Hands one the bytes, if it is called.
fn next(o: Other, bytes: &[u8]) -> Other {
    match o.standing {
        Standing::Called => Other {
            standing: Standing::Called,
            given: observe(o.given.monitor, bytes),
        },
        Standing::Refused(_) | Standing::Left => Other {
            standing: Standing::Left,
            given: o.given,
        },
    }
}

// Hands both the bytes that the sorted sheet's monitor was handed.
pub fn both_next(x: Others, bytes: &[u8]) -> Others {
    Others {
        reversed: next(x.reversed, bytes),
        repeated: next(x.repeated, bytes),
    }
}

// What is counted of a call, where the sorted sheet's monitor replied: due is its reply where the sheet is called, or else the refusal, if any.
fn counted(t: Tally, o: Other, at: usize, sorted: Result<Answer, Refusal>) -> Tally {
    let reply = o.given.reply;
    match o.standing {
        Standing::Called => count_if(reply != sorted, count(t, at), tally::UNLIKE_SORTED),
        Standing::Refused(due) => {
            let t = count_if(due == Refusal::LineKind, t, tally::ANY_BY_KIND);
            let t = count_if(due == Refusal::NinthSporadic, t, tally::ANY_BY_NINTH);
            count_if(reply != Err(due), t, tally::UNLIKE_SORTED)
        }
        Standing::Left => t,
    }
}

// What is counted of a call of both.
pub fn both_counted(t: Tally, x: Others, sorted: Result<Answer, Refusal>) -> Tally {
    let t = counted(t, x.reversed, tally::REVERSED, sorted);
    counted(t, x.repeated, tally::REPEATED, sorted)
}
