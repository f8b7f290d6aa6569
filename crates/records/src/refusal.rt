// Why a sheet, an instant, a value or a call is refused. Each reason has one number, by which C, the programs and the documents know it.
ghost use Rattle.std.specs.Prelude.{◌≡◌};
ghost use Rattle.records.specs.Refusal.{refusal_number};

#[derive(Clone, Copy, Debug, PartialEq, Eq)]
pub enum Refusal {
    // 1: a record of the sheet is torn.
    TornSheet,
    // 2: the sheet does not begin with its clocks.
    NotClocks,
    // 3: the body of the clocks is not one byte.
    ClocksLength,
    // 4: no clock, or more than eight.
    ClockCount,
    // 5: no kind of line.
    LineKind,
    // 6: a body that hasn't its kind's length.
    LineLength,
    // 7: a clock that the sheet does not have.
    ClockNumber,
    // 8: a line after sixteen.
    SeventeenthLine,
    // 9: a sporadic line after eight.
    NinthSporadic,
    // 10: a buffer that is too short.
    ShortBuffer,
    // 11: a monitor outside its limits.
    MonitorLimits,
    // 12: not one whole record.
    NotOneRecord,
    // 13: no kind of instant.
    NotInstant,
    // 14: a body that hasn't its kind's length.
    InstantLength,
    // 15: a tick that is none of idle, tick and unseen.
    TickByte,
    // 16: an instant after 4,000.
    InstantsHeld,
    // 17: a line that is not above the one before it.
    NotAbove,
    // 18: a line that counts to 0.
    NoCount,
    // 19: a number that is not the next.
    NotNext,
}

// A refusal's number.
impl From<Refusal> for u8 {
    ghost from_gives = { λ refusal number. number ≡ refusal_number refusal };

    fn from(refusal: Refusal) -> u8 {
        match refusal {
            Refusal::TornSheet => 1,
            Refusal::NotClocks => 2,
            Refusal::ClocksLength => 3,
            Refusal::ClockCount => 4,
            Refusal::LineKind => 5,
            Refusal::LineLength => 6,
            Refusal::ClockNumber => 7,
            Refusal::SeventeenthLine => 8,
            Refusal::NinthSporadic => 9,
            Refusal::ShortBuffer => 10,
            Refusal::MonitorLimits => 11,
            Refusal::NotOneRecord => 12,
            Refusal::NotInstant => 13,
            Refusal::InstantLength => 14,
            Refusal::TickByte => 15,
            Refusal::InstantsHeld => 16,
            Refusal::NotAbove => 17,
            Refusal::NoCount => 18,
            Refusal::NotNext => 19,
        }
    }
}
