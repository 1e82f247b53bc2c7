// The refusals of document 01's list and of the requests of document 02 that landed, and the number of each.
#![tactic(auto)]

ghost use Rattle.std.specs.Prelude.{◌≡◌};
ghost use Rattle.refusal.specs.Refusals.{number_of};

// Why a call is refused. The comment gives the papers' word for it ("Trade's word").
#[derive(Clone, Copy, Debug, PartialEq, Eq)]
pub enum Refusal {
    // misfit
    SizeMismatch,
    // no address
    OutOfRange,
    // no register
    UnmappedRegister,
    // wrong way
    AccessViolation,
    // no clock
    InvalidClock,
    // live buffer
    ActiveBuffer,
    // bad framing
    FramingError,
    // bad trailer
    BadTrailer,
    // bad record
    BadRecord,
    // function on
    FunctionActive,
    // bad ramp
    InvalidRamp,
    // overtaken
    NoDownload,
    // not your seat
    PermissionDenied,
}

// Its number.
impl From<Refusal> for u8 {
    ghost from_gives = { λ refusal number. number ≡ number_of refusal };

    fn from(refusal: Refusal) -> u8 {
        match refusal {
            Refusal::SizeMismatch => 1,
            Refusal::OutOfRange => 2,
            Refusal::UnmappedRegister => 3,
            Refusal::AccessViolation => 4,
            Refusal::InvalidClock => 5,
            Refusal::ActiveBuffer => 6,
            Refusal::FramingError => 7,
            Refusal::BadTrailer => 8,
            Refusal::BadRecord => 9,
            Refusal::FunctionActive => 10,
            Refusal::InvalidRamp => 11,
            Refusal::NoDownload => 12,
            Refusal::PermissionDenied => 13,
        }
    }
}
