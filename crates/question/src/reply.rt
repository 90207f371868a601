// What the question answers.
ghost use Rattle.std.specs.Prelude.{Some};
ghost use Rattle.question.specs.Answers.{verdict_text};

use std::fmt;

// A verdict with its cause: the pair that isn't joined throughout, the new begin, the new end, the further gauge; or a group.
#[derive(Clone, Copy, Debug, PartialEq, Eq)]
pub enum Verdict {
    Missing(u32, u32),
    Earlier(u64),
    Later(u64),
    Further(u32),
    Group,
}

// The verdict in words.
impl fmt::Display for Verdict {
    ghost output = { λ verdict. Some (verdict_text verdict) };

    fn fmt<W: fmt::Write>(&self, f: &mut fmt::Formatter<W>) -> fmt::Result {
        match *self {
            Verdict::Missing(lower, higher) => write!(f, "lacks pair {lower}, {higher}"),
            Verdict::Earlier(begin) => write!(f, "can begin at {begin}"),
            Verdict::Later(end) => write!(f, "can end at {end}"),
            Verdict::Further(gauge) => write!(f, "gauge {gauge} fits"),
            Verdict::Group => write!(f, "a group"),
        }
    }
}
