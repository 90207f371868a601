// The search for the maximal sets of one span, by Bron and Kerbosch's method with a pivot, on the graph of the gauges that runs cover throughout it.
ghost use Rattle.std.specs.Prelude.{◌≡◌, ◌<◌};
ghost use Rattle.gauges.specs.Flags.{Tells};
ghost use Rattle.sweep.specs.Store.{Adds};
ghost use Rattle.sweep.specs.Near.{near};
ghost use Rattle.sweep.specs.Search.{Worth, PivotOf, Ready, Wanted};

use crate::pairs::Pairs;
use crate::store::{Full, Row, append};
use gauges::members::Members;
use gauges::{lowest, only, size};

// The gauges that gauge k is linked to.
pub(crate) fn links(adj: &[u64; 64], k: u32) -> u64
    requires { k < 64 }
    ensures { result ≡ near adj.now k }
{
    adj[k as usize]
}

// What is sought on a span: sets that have at least so many gauges, one of the pairs whose run begins with the span, and one of those whose run ends with it.
#[derive(Clone, Copy)]
pub(crate) struct Sought<'a> {
    pub begin: u64,
    pub end: u64,
    pub least: u32,
    pub fresh: &'a Pairs,
    pub ending: &'a Pairs,
}

impl Sought<'_> {
    // Whether the set has enough gauges and a pair of either kind.
    fn worth(&self, set: u64) -> bool
        ensures { Tells result (Worth self.now set) }
    {
        if size(set) < self.least {
            return false;
        }
        self.ending.has_pair(set) && self.fresh.has_pair(set)
    }
}

// A gauge of p or q that is linked to as many gauges of p as any: the last such, so that sets are found in rising order where many tie.
fn pivot(adj: &[u64; 64], p: u64, q: u64) -> u32
    requires { p ≡ 0 → ⊥ }
    ensures { PivotOf p q result }
{
    let mut best = lowest(p);
    let mut most = 0;
    for k in (Members { left: p | q }) {
        let n = size(p & links(adj, k));
        if most <= n {
            most = n;
            best = k;
        }
    }
    best
}

// Puts each maximal set below the node (r, p, q) that is sought, with its span, behind the rows found, which have none of them.
pub(crate) fn search(
    adj: &[u64; 64],
    sought: &Sought,
    r: u64,
    p: u64,
    q: u64,
    rows: &mut [u64],
    count: usize,
) -> Result<usize, Full>
    requires { Ready adj.now sought.now r p q rows.old count }
    ensures { Adds (Wanted adj.now sought.now r p q) rows.old count rows.new result }
{
    // A gauge of q could be added to r, so r is not maximal.
    if p == 0 && q != 0 {
        return Ok(count);
    }
    // Each set below is part of r | p.
    if !sought.worth(r | p) {
        return Ok(count);
    }
    if p == 0 {
        let row = Row {
            begin: sought.begin,
            end: sought.end,
            members: r,
        };
        return append(row, rows, count);
    }
    let k = pivot(adj, p, q);
    let mut cand = p;
    let mut gone = q;
    let mut found = count;
    // A maximal set has the pivot or a gauge that is not linked to it, so only those are tried.
    for v in (Members {
        left: p & !links(adj, k),
    }) {
        let one = only(v);
        let close = links(adj, v);
        found = search(
            adj,
            sought,
            r | one,
            cand & close,
            gone & close,
            rows,
            found,
        )?;
        cand &= !one;
        gone |= one;
    }
    Ok(found)
}
