// What the panel shows of a monitor.
ghost use Rattle.std.specs.Prelude.{◌≡◌};
ghost use Rattle.panel.specs.Panel.{panel_count};
ghost use Rattle.gateway.specs.Result.{shown_count};
ghost use Rattle.gateway.specs.Inner.{OwingAfter};

use judge::monitor::Monitor;
use logs::log::LastMonitor;
use panel::panel_count;

// How many of those that a monitor holds owe the clock a tick, 32 at most, so nothing is lost; 0 outside its limits.
pub(crate) fn owing_count(monitor: Monitor, clock: u8) -> u8
    ensures { result ≡ shown_count (panel_count clock monitor) }
{
    match panel_count(monitor, clock) {
        Ok(n) => n as u8,
        Err(_) => 0,
    }
}

// How many after a whole log; 0 after a refusal.
pub(crate) fn owing_after(last: LastMonitor, clock: u8) -> u8
    ensures { OwingAfter last clock result }
{
    match last.reply {
        Err(_) => 0,
        Ok(_) => owing_count(last.monitor, clock),
    }
}
