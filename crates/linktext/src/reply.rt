// What packing answers.
ghost use Rattle.std.specs.Prelude.{◌≡◌, Some};
ghost use Rattle.linktext.specs.Faults.{fault_number, refusal_text};

use links::reply::Reason;
use std::fmt;

// Why a text is refused: its first line is not the gauge count, a line is no link, a number has no room in 32 bits, the text is too long, or its table is refused.
#[derive(Clone, Copy, Debug, PartialEq, Eq)]
pub enum TextFault {
    NoGauges,
    NoLink,
    TooLarge,
    TooLong,
    Table(Reason),
}

impl TextFault {
    // The refusal for this reason in a line.
    pub(crate) fn in_line(self, line: usize) -> TextRefusal
        ensures { result ≡ record { fault = self; line = line } }
    {
        TextRefusal { fault: self, line }
    }
}

// The number of the reason.
impl From<TextFault> for u32 {
    ghost from_gives = { λ fault number. number ≡ fault_number fault };

    fn from(fault: TextFault) -> u32 {
        match fault {
            TextFault::NoGauges => 91,
            TextFault::NoLink => 92,
            TextFault::TooLarge => 93,
            TextFault::TooLong => 94,
            TextFault::Table(reason) => u32::from(reason),
        }
    }
}

// Why there is no link file, and the line of the text, counted from 1.
#[derive(Clone, Copy, Debug, PartialEq, Eq)]
pub struct TextRefusal {
    pub fault: TextFault,
    pub line: usize,
}

// `refused`, the number of the reason, and the line.
impl fmt::Display for TextRefusal {
    ghost output = { λ why. Some (refusal_text why) };

    fn fmt<W: fmt::Write>(&self, f: &mut fmt::Formatter<W>) -> fmt::Result {
        write!(f, "refused {} line {}", u32::from(self.fault), self.line)
    }
}
