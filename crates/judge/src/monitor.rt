// The monitor: opened with a sheet, called instant by instant.
ghost use Rattle.std.specs.Prelude.{◌≡◌};
ghost use Rattle.records.specs.Sheet.{read_by, read_sheet, read_base};
ghost use Rattle.judge.specs.Limits.{monitor_within};
ghost use Rattle.judge.specs.Monitor.{blank_monitor, refused_call};
ghost use Rattle.judge.specs.Promises.{Opened, Observed};

use crate::answer::Answer;
use crate::limits::is_within;
use crate::progress::{observe_rows, progress_of};
use crate::start::begin;
use crate::stored::{read_back, store_held};
use lines::plan::{NUMBERS, plan_of};
use records::number;
use records::order::Order;
use records::refusal::Refusal;
use records::sheet::{Sheet, blank_sheet, read_by};
use remainders::held::Held;
use remainders::remainder::blank_remainder;
use remainders::rows::SIZE;
use step::list::LIST;

// Beside its remainders, of the instants only their number and the last tags; the last answer is what those held say.
#[derive(Clone, Copy)]
pub struct Monitor {
    pub sheet: Sheet,
    pub instants: usize,
    pub tags: [i16; 8],
    pub held: Held,
}

// What a call gives. Why it is refused is a refusal in every call here; `refuse` takes any reason.
#[derive(Clone, Copy)]
pub struct CallResult<E = Refusal> {
    // The answer, or why the call is refused.
    pub reply: Result<Answer, E>,
    // The monitor to call next.
    pub monitor: Monitor,
}

// What stands in a monitor's place where there is none.
pub fn blank_monitor(sheet: Sheet) -> Monitor
    ensures { result ≡ blank_monitor sheet }
{
    Monitor {
        sheet,
        instants: 0,
        tags: [0i16; 8],
        held: Held {
            count: Some(0),
            remainders: [blank_remainder(); 32],
        },
    }
}

// Opens a sheet, its lines in an order and of kinds up to a last one: its number and no monitor, or the answer for no instant and the monitor.
fn open_by(bytes: &[u8], order: Order, last: u16) -> CallResult
    ensures { Opened (read_by order last) bytes.now result }
{
    match read_by(bytes, order, last) {
        Err(refusal) => refuse(refusal, blank_monitor(blank_sheet(0))),
        Ok(sheet) => {
            let mut lines = [0u32; NUMBERS];
            let mut rows = [0u32; SIZE];
            let begun = begin(sheet, &mut lines, &mut rows);
            CallResult {
                reply: Ok(begun.said),
                monitor: read_back(sheet, begun.progress, begun.plan, &rows),
            }
        }
    }
}

// Opens a sheet, its lines in rising order.
pub fn open(bytes: &[u8]) -> CallResult
    ensures { Opened read_sheet bytes.now result }
{
    open_by(bytes, Order::Rising, number::LAST_LINE)
}

// Opens a sheet by document 01's rules: its lines in any order, repeats allowed, of kinds 16 to 23.
pub fn open_base(bytes: &[u8]) -> CallResult
    ensures { Opened read_base bytes.now result }
{
    open_by(bytes, Order::Any, number::LAST_BASE_LINE)
}

// The reason, whatever it is (a refusal, a number), and the monitor as it came.
pub fn refuse<E>(why: E, monitor: Monitor) -> CallResult<E>
    ensures { result ≡ refused_call why monitor }
{
    CallResult {
        reply: Err(why),
        monitor,
    }
}

// Takes an instant: refused, the number and the monitor as it came; accepted, the answer and the monitor after it.
pub fn observe(monitor: Monitor, bytes: &[u8]) -> CallResult
    ensures { Observed monitor bytes.now result }
{
    if !is_within(monitor) {
        return refuse(Refusal::MonitorLimits, monitor);
    }
    let mut lines = [0u32; NUMBERS];
    let plan = plan_of(monitor.sheet, &mut lines);
    let mut rows = [0u32; SIZE];
    store_held(&mut rows, monitor.held.count, monitor.held.remainders);
    let mut list = [false; LIST];
    let progress = progress_of(monitor);
    let told = observe_rows(progress, plan, &lines, bytes, &mut rows, &mut list);
    match told.reply {
        Err(refusal) => refuse(refusal, monitor),
        Ok(_) => CallResult {
            reply: told.reply,
            monitor: read_back(monitor.sheet, told.progress, plan, &rows),
        },
    }
}

// Whether a monitor is within its limits, for those who are handed one.
pub fn within_limits(monitor: Monitor) -> bool
    ensures { result ≡ monitor_within monitor }
{
    is_within(monitor)
}
