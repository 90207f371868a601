// The pairs of gauges that some runs join.
ghost use Rattle.gauges.specs.Flags.{Tells};
ghost use Rattle.sweep.specs.Near.{HasPair, Tops};

use crate::search::links;
use gauges::members::Members;

// The pairs as a graph, and the set of the gauges that have one.
#[derive(Drop)]
pub(crate) struct Pairs {
    pub near: [u64; 64],
    pub tops: u64,
    ghost all: { ∥ Tops near tops ∥₁ },
}

impl Pairs {
    // Whether one of the pairs is in the set. Only a gauge of tops has one at all.
    pub(crate) fn has_pair(&self, set: u64) -> bool
        ensures { Tells result (HasPair self.now.near set) }
    {
        for u in (Members {
            left: set & self.tops,
        }) {
            if links(&self.near, u) & set != 0 {
                return true;
            }
        }
        false
    }
}
