// The records of a link file, one at a time.
ghost use Rattle.std.specs.Prelude.{◌≡◌, ◌≤◌, length};
ghost use Rattle.links.specs.Replies.{fault_of};
ghost use Rattle.linkfile.specs.Records.{length_of};
ghost use Rattle.linkfile.specs.Reading.{frame_fault};
ghost use Rattle.linkfile.specs.Steps.{kind_number, Decodes, one_of, RecordOf};

use crate::number::number;
use links::reply::{Reason, Refusal};

// The kinds of records, each with its number.
#[derive(Clone, Copy, Debug, PartialEq, Eq)]
pub(crate) enum Kind {
    Opening = 1,
    Link = 2,
    Closing = 3,
}

// A number that no kind has.
#[derive(Clone, Copy, Debug, PartialEq, Eq)]
pub(crate) struct UnknownKind;

impl TryFrom<u32> for Kind {
    type Error = UnknownKind;

    ghost try_from_gives = { Decodes };

    fn try_from(number: u32) -> Result<Kind, UnknownKind> {
        match number {
            1 => Ok(Kind::Opening),
            2 => Ok(Kind::Link),
            3 => Ok(Kind::Closing),
            0 | 4.. => Err(UnknownKind),
        }
    }
}

impl From<Kind> for u32 {
    ghost from_gives = { λ kind number. number ≡ kind_number kind };

    fn from(kind: Kind) -> u32 {
        kind as u32
    }
}

impl Kind {
    // The length that a record of the kind has: the bytes after it, the kind included.
    pub(crate) fn length(self) -> u32
        ensures { result ≡ length_of (kind_number self) }
    {
        match self {
            Kind::Opening => 4,
            Kind::Link => 14,
            Kind::Closing => 6,
        }
    }
}

// A record: its kind, and the place after it.
#[derive(Clone, Copy, Debug, PartialEq, Eq)]
pub(crate) struct Record {
    pub(crate) kind: Kind,
    pub(crate) next: usize,
}

// The tests of every record before its kind.
fn frame(bytes: &[u8], at: usize) -> Result<(), Refusal>
    requires { at ≤ length bytes.now }
    ensures { fault_of result ≡ frame_fault bytes.now at }
{
    let left = bytes.len() - at;
    if left < 4 {
        return Err(Reason::CutOff.at(at));
    }
    let size = number::<4>(bytes, at) as usize;
    if left - 4 < size {
        return Err(Reason::CutOff.at(at));
    }
    if size < 2 {
        return Err(Reason::WrongLength.at(at));
    }
    Ok(())
}

// The record at a place, which has one of the allowed kinds.
pub(crate) fn read_record(bytes: &[u8], at: usize, allowed: &[Kind]) -> Result<Record, Refusal>
    requires { at ≤ length bytes.now }
    ensures { RecordOf bytes.now (one_of allowed.now) at result }
{
    frame(bytes, at)?;
    let Ok(kind) = Kind::try_from(number::<2>(bytes, at + 4)) else {
        return Err(Reason::WrongKind.at(at));
    };
    if !allowed.contains(&kind) {
        return Err(Reason::WrongKind.at(at));
    }
    if number::<4>(bytes, at) != kind.length() {
        return Err(Reason::WrongLength.at(at));
    }
    let next = at + 4 + kind.length() as usize;
    Ok(Record { kind, next })
}
