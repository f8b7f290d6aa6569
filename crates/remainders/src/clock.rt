// A clock of a filled instant. A clock past the eighth is idle at tag 0.
ghost use Rattle.std.specs.Prelude.{◌≡◌, true, set};
ghost use Rattle.tesl.specs.Run.{tag_in};
ghost use Rattle.work.specs.Questions.{tick_in};

pub fn ticks_at(ticks: [bool; 8], k: u8) -> bool
    ensures { result ≡ tick_in ticks k }
{
    let i = usize::from(k);
    i < 8 && ticks[i]
}

pub fn clock_tag(tags: [i16; 8], k: u8) -> i16
    ensures { result ≡ tag_in tags k }
{
    let i = usize::from(k);
    if i < 8 { tags[i] } else { 0 }
}

// A number of 16 bits in 64, where products and differences of tags don't wrap.
pub fn wide(x: i16) -> i64
    ensures { result ≡ x }
{
    i64::from(x)
}

// The stopped clocks, with one more.
pub fn stop(mut stopped: [bool; 8], k: u8) -> [bool; 8]
    ensures { result ≡ set stopped k true }
{
    let i = usize::from(k);
    if i < 8 {
        stopped[i] = true;
    }
    stopped
}
