// Chains of links of the same pair, so that a link is held against those of its own pair alone.
ghost use Rattle.std.specs.Prelude.{◌≡◌, ◌+◌, ◌<◌};
ghost use Rattle.links.specs.Links.{count};
ghost use Rattle.links.specs.Chains.{pair_at, pair_of, Placed, Chained, Next, EarlierClash};

use crate::clash;
use crate::link::link_at;

// Of each pair of gauges the number of the latest link passed, and of each link passed that of the latest one before it of the same pair. The numbers are one
// up, and 0 is none: walking a chain back waits for one load after another, and those of an `Option<u16>` take longer.
#[derive(Drop)]
pub(crate) struct Chains {
    pub(crate) previous: [u32; 2048],
    pub(crate) latest: [u32; 4096],
}

// The place of the pair of gauges u and v in `latest`, which has a row of 64 for each lower gauge of a pair.
fn pair_at(u: u32, v: u32) -> usize
    requires { (u < 64) × (v < 64) }
    ensures { result ≡ pair_at u v }
{
    if u < v {
        64 * (u as usize) + v as usize
    } else {
        64 * (v as usize) + u as usize
    }
}

// The place of the pair of link i.
pub(crate) fn pair_of(numbers: &[u32], i: usize) -> usize
    requires { (i < count numbers.now) × Placed numbers.now i }
    ensures { result ≡ pair_of numbers.now i }
{
    let link = link_at(numbers, i);
    pair_at(link.one, link.other)
}

impl Chains {
    // The latest link below i that is of the same two gauges as link i and shares an hour with it.
    // Only the chain of link i's pair is gone through, from its latest link back: no other link is of these gauges.
    pub(crate) fn earlier_clash(&self, numbers: &[u32], i: usize) -> Option<usize>
        requires { Next numbers.now self.now i }
        ensures { EarlierClash numbers.now i result }
    {
        let mut from = self.latest[pair_of(numbers, i)];
        while 0 < from {
            let j = from as usize - 1;
            if clash(numbers, j, i) {
                return Some(j);
            }
            from = self.previous[j];
        }
        None
    }

    // Enters link i, which was passed, into the chain of its pair.
    pub(crate) fn enter(&mut self, numbers: &[u32], i: usize)
        requires { Next numbers.now self.old i }
        ensures { Chained numbers.now self.new (i + 1) }
    {
        let pair = pair_of(numbers, i);
        self.previous[i] = self.latest[pair];
        self.latest[pair] = i as u32 + 1;
    }
}
