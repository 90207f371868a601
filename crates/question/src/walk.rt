// The walks over the pairs of members, and over further gauges.
ghost use Rattle.std.specs.Prelude.{◌≤◌, ◌<◌, ◌^◌};
ghost use Rattle.gauges.specs.Flags.{Tells};
ghost use Rattle.question.specs.Verdicts.{PairOf};
ghost use Rattle.question.specs.Walks.{Walkable, Just, Beside, ReachOf, Near, LowestOrNone};

use crate::reach::{Hours, Unjoined};
use gauges::below;
use gauges::members::Members;
use links::covering;

// The table and the span that a question is about. The links of one pair share no hour.
#[derive(Clone, Copy)]
pub(crate) struct Asked<'a> {
    pub numbers: &'a [u32],
    pub begin: u64,
    pub end: u64,
    ghost walkable: { Walkable numbers.now begin end },
    ghost in_64_bits: { end < 2 ^ 64 },
}

impl Asked<'_> {
    // How far the link reaches that covers the span for gauges u and v.
    fn hours_of_pair(&self, u: u32, v: u32) -> Result<Hours, Unjoined>
        ensures { ReachOf self.now.numbers.now self.now.begin self.now.end (Just u v) result }
    {
        match covering(self.numbers, u, v, self.begin, self.end) {
            Some(i) => Ok(Hours {
                from: self.numbers[4 * i] as u64,
                upto: self.numbers[4 * i + 1] as u64,
            }),
            None => Err(Unjoined {
                lower: u,
                higher: v,
            }),
        }
    }

    // How far the links of gauge u and each of the others reach together, the lowest of the others first.
    fn hours_of_gauge(&self, u: u32, others: u64) -> Result<Hours, Unjoined>
        ensures { ReachOf self.now.numbers.now self.now.begin self.now.end (Beside u others) result }
    {
        let mut hours = Hours {
            from: 0,
            upto: u64::MAX,
        };
        for v in (Members { left: others }) {
            hours = hours.common(self.hours_of_pair(u, v)?);
        }
        Ok(hours)
    }

    // How far the links of all pairs of members reach together, in the order of the lower gauge and then of the higher.
    pub(crate) fn hours_of_set(&self, members: u64) -> Result<Hours, Unjoined>
        ensures { ReachOf self.now.numbers.now self.now.begin self.now.end (PairOf members) result }
    {
        let mut hours = Hours {
            from: 0,
            upto: u64::MAX,
        };
        let mut rest = Members { left: members };
        while let Some(u) = rest.next() {
            hours = hours.common(self.hours_of_gauge(u, rest.left)?);
        }
        Ok(hours)
    }

    // Whether gauge k is joined to every member throughout the span.
    fn is_near(&self, k: u32, members: u64) -> bool
        ensures { Tells result (Near self.now.numbers.now members self.now.begin self.now.end k) }
    {
        for u in (Members { left: members }) {
            if covering(self.numbers, u, k, self.begin, self.end).is_none() {
                return false;
            }
        }
        true
    }

    // The lowest gauge that is no member and is joined to every member throughout.
    pub(crate) fn lowest_further(&self, gauges: u32, members: u64) -> Option<u32>
        requires { gauges ≤ 64 }
        ensures { LowestOrNone self.now.numbers.now gauges members self.now.begin self.now.end result }
    {
        for k in (Members {
            left: below(gauges) & !members,
        }) {
            if self.is_near(k, members) {
                return Some(k);
            }
        }
        None
    }
}
