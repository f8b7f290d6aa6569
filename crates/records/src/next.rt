// The next instant of a run: what reading alone takes, held against the instants held.
ghost use Rattle.std.specs.Prelude.{◌≡◌, ◌<◌};
ghost use Rattle.records.specs.Outcome.{outcome_of};
ghost use Rattle.records.specs.Instant.{instant_read};
ghost use Rattle.records.specs.Next.{is_next, read_next};

use crate::form::Form;
use crate::instant::{Instant, read_instant};
use crate::number;
use crate::refusal::Refusal;

// Whether a record of a form may follow so many instants: a number is one above them.
fn is_next(form: Form, held: usize) -> bool
    requires { held < 4000 }
    ensures { result ≡ is_next held form }
{
    match form {
        Form::Plain => true,
        Form::Numbered(n) => usize::from(n) == held + 1,
    }
}

// The instant of a clock count that a byte string holds, where so many are held: 4 and 12 to 15 as reading alone gives them, then 16, then 19.
pub fn read_next(bytes: &[u8], clocks: u8, held: usize) -> Result<Instant, Refusal>
    ensures { outcome_of result ≡ instant_read (read_next clocks held bytes.now) }
{
    let instant = read_instant(bytes, clocks)?;
    if number::MAX_INSTANTS <= held {
        return Err(Refusal::InstantsHeld);
    }
    if !is_next(instant.form, held) {
        return Err(Refusal::NotNext);
    }
    Ok(instant)
}
