// Graphs of gauges: row i is the set of the gauges that gauge i is linked to.
ghost use Rattle.std.specs.Prelude.{◌<◌};
ghost use Rattle.gauges.specs.Flags.{Tells};
ghost use Rattle.links.specs.Links.{count};
ghost use Rattle.sweep.specs.Graphs.{TwoGauges, SamePair, Won, Lost, Drawn, Shows, Drawable, BothIn, Reaches, LastEnd, PairIn, Counted};

use crate::line::run_at;
use crate::pairs::Pairs;
use crate::search::links;
use gauges::{has, only};

// Links gauges u and v.
fn link(adj: &mut [u64; 64], u: u32, v: u32)
    requires { TwoGauges u v }
    ensures { Won adj.old adj.new (SamePair u v) }
{
    // Both rows are read before one is written, since a compiler can't tell that they are two.
    let near_u = links(adj, u) | only(v);
    let near_v = links(adj, v) | only(u);
    adj[u as usize] = near_u;
    adj[v as usize] = near_v;
}

// Unlinks gauges u and v.
fn unlink(adj: &mut [u64; 64], u: u32, v: u32)
    requires { TwoGauges u v }
    ensures { Lost adj.old adj.new (SamePair u v) }
{
    let near_u = links(adj, u) & !only(v);
    let near_v = links(adj, v) & !only(u);
    adj[u as usize] = near_u;
    adj[v as usize] = near_v;
}

// Which runs have both gauges in a set: none, one alone, or more than one.
#[derive(Clone, Copy)]
pub(crate) enum Inner {
    NoRun,
    OneRun(u32),
    Several,
}

// Whether both gauges of run r are in the set.
fn is_inside(runs: &[u32], r: u32, set: u64) -> bool
    requires { r < count runs.now }
    ensures { Tells result (PairIn runs.now r set) }
{
    let run = run_at(runs, r);
    has(set, run.one) && has(set, run.other)
}

// Some runs of a table, whose numbers stand in a part of a line. Each is of two gauges below 64.
#[derive(Clone, Copy)]
pub(crate) struct Part<'a> {
    pub runs: &'a [u32],
    pub line: &'a [u32],
    ghost drawable: { Drawable runs.now line.now },
}

impl Part<'_> {
    // The graph of these runs.
    pub(crate) fn graph(&self) -> [u64; 64]
        ensures { Shows result (Drawn self.now.runs.now self.now.line.now) }
    {
        let mut adj = [0u64; 64];
        for &r in self.line {
            let run = run_at(self.runs, r);
            link(&mut adj, run.one, run.other);
        }
        adj
    }

    // Unlinks the gauges of these runs.
    pub(crate) fn erase_from(&self, adj: &mut [u64; 64])
        ensures { Lost adj.old adj.new (Drawn self.now.runs.now self.now.line.now) }
    {
        for &r in self.line {
            let run = run_at(self.runs, r);
            unlink(adj, run.one, run.other);
        }
    }

    // The gauges of these runs.
    fn tops(&self) -> u64
        ensures { BothIn self.now.runs.now self.now.line.now result }
    {
        let mut set = 0;
        for &r in self.line {
            let run = run_at(self.runs, r);
            set |= only(run.one) | only(run.other);
        }
        set
    }

    // The pairs of these runs.
    pub(crate) fn pairs(&self) -> Pairs
        ensures { Shows result.near (Drawn self.now.runs.now self.now.line.now) }
    {
        Pairs {
            near: self.graph(),
            tops: self.tops(),
        }
    }

    // The gauges of these runs, and every gauge that is linked to both gauges of one of them.
    pub(crate) fn reach(&self, adj: &[u64; 64]) -> u64
        ensures { Reaches self.now.runs.now self.now.line.now adj.now result }
    {
        let mut set = self.tops();
        for &r in self.line {
            let run = run_at(self.runs, r);
            set |= links(adj, run.one) & links(adj, run.other);
        }
        set
    }

    // An hour after which none of these runs ends: the last of their ends.
    pub(crate) fn last_end(&self) -> u32
        ensures { LastEnd self.now.runs.now self.now.line.now result }
    {
        let mut last = 0;
        for &r in self.line {
            last = last.max(run_at(self.runs, r).end);
        }
        last
    }

    // Which of these runs have both gauges in the set.
    pub(crate) fn count_inner(&self, set: u64) -> Inner
        ensures { Counted self.now.runs.now self.now.line.now set result }
    {
        let mut inner = Inner::NoRun;
        for &r in self.line {
            if is_inside(self.runs, r, set) {
                let Inner::NoRun = inner else {
                    return Inner::Several;
                };
                inner = Inner::OneRun(r);
            }
        }
        inner
    }
}
