// What a walk over pairs hands on.
ghost use Rattle.std.specs.Prelude.{◌≡◌, min, max};

// The hours from one to another, both included.
#[derive(Clone, Copy, Debug, PartialEq, Eq)]
pub struct Hours {
    pub from: u64,
    pub upto: u64,
}

impl Hours {
    // The hours that both have in common.
    pub(crate) fn common(self, other: Hours) -> Hours
        ensures { (result.from ≡ max self.from other.from) × (result.upto ≡ min self.upto other.upto) }
    {
        Hours {
            from: self.from.max(other.from),
            upto: self.upto.min(other.upto),
        }
    }
}

// A pair of gauges that no link covers, the lower gauge first.
#[derive(Clone, Copy, Debug, PartialEq, Eq)]
pub struct Unjoined {
    pub lower: u32,
    pub higher: u32,
}
