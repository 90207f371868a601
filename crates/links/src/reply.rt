// What the entries of this crate answer.
ghost use Rattle.std.specs.Prelude.{◌≡◌, Some};
ghost use Rattle.links.specs.Reasons.{number_of, refusal_text};

use std::fmt;

// The reasons of document 01's table, each with its number there: 1 to 8 for a table, 9 for a list, 10 to 12 for a question, 20 to 26 for a link file, 27 for the
// listing program.
#[derive(Clone, Copy, Debug, PartialEq, Eq)]
pub enum Reason {
    NotFours = 1,
    TooManyLinks = 2,
    NotThatManyGauges = 3,
    UnknownGauge = 4,
    SameGauge = 5,
    EndBeforeBegin = 6,
    TooLate = 7,
    SharedHour = 8,
    TooFewRows = 9,
    UnknownMember = 10,
    TooFewMembers = 11,
    NoSpan = 12,
    CutOff = 20,
    WrongKind = 21,
    WrongLength = 22,
    WrongCount = 23,
    BytesBehind = 24,
    TooFewNumbers = 25,
    TooFewBytes = 26,
    TooLargeInput = 27,
}

impl Reason {
    // The refusal for this reason at a place.
    pub fn at(self, place: usize) -> Refusal
        ensures { result ≡ record { reason = self; place = place } }
    {
        Refusal {
            reason: self,
            place,
        }
    }
}

impl From<Reason> for u32 {
    ghost from_gives = { λ reason number. number ≡ number_of reason };

    fn from(reason: Reason) -> u32 {
        reason as u32
    }
}

// Why there is no answer: the reason, and its place.
#[derive(Clone, Copy, Debug, PartialEq, Eq)]
pub struct Refusal {
    pub reason: Reason,
    pub place: usize,
}

// `refused`, the number of the reason and the place.
impl fmt::Display for Refusal {
    ghost output = { λ why. Some (refusal_text why) };

    fn fmt<W: fmt::Write>(&self, f: &mut fmt::Formatter<W>) -> fmt::Result {
        write!(f, "refused {} {}", u32::from(self.reason), self.place)
    }
}
