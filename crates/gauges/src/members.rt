// The gauges of a set, one after another.
ghost use Rattle.std.specs.Int.Count.{ones};
ghost use Rattle.std.specs.Iterator.{at_most};
ghost use Rattle.gauges.specs.Members.{Takes};

use crate::{lowest, only};

// The gauges of the set `left`, the lowest first.
#[derive(Clone, Copy)]
pub struct Members {
    pub left: u64,
}

impl Iterator for Members {
    type Item = u32;

    ghost next_gives = { Takes };

    ghost remaining = { λ s. at_most (ones s.left) };

    fn next(&mut self) -> Option<u32> {
        if self.left == 0 {
            return None;
        }
        let k = lowest(self.left);
        self.left = self.left & !only(k);
        Some(k)
    }
}
