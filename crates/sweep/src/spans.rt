// The groups of one span, of one begin and of a whole table. A sweep goes through the begins of the runs in rising order; at each it keeps the runs that stand at
// that hour in a line by their ends, and goes through those ends in rising order.
ghost use Rattle.sweep.specs.Store.{Tidy, Grows, Loose, Adds, Unseen, Past, BegunBefore};
ghost use Rattle.sweep.specs.Graphs.{Counted};
ghost use Rattle.sweep.specs.Spans.{ShownFrom, ShownOver, AtSpan, AtHour, AtBegin, AtTable};
ghost use Rattle.sweep.specs.Shown.{Shown};

use crate::block::settle;
use crate::graph::{Inner, Part};
use crate::line::{drop_ended, enter_all, run_at};
use crate::pairs::Pairs;
use crate::search::{Sought, links, search};
use crate::store::Full;
use gauges::only;

// What stays as it is while the ends of one begin pass: that begin, the least size, the pairs whose runs begin then, the gauges that matter, and an hour after which none of
// those runs ends.
#[derive(Drop)]
pub(crate) struct Hour {
    pub begin: u32,
    pub least: u32,
    pub fresh: Pairs,
    pub wide: u64,
    pub last: u32,
}

// Puts the groups of the span from the hour to y behind the rows found, which have none of them. `ending` are the runs that end at y, and `inner` says which of them are among
// the gauges that matter; a group has the pair of one of these. So there is none if no run is; and if one alone is, every group has its two gauges, and the search starts from
// these.
fn find_sets(
    ending: &Part<'_>,
    inner: Inner,
    hour: &Hour,
    y: u32,
    adj: &[u64; 64],
    rows: &mut [u64],
    count: usize,
) -> Result<usize, Full>
    requires { AtSpan ending.now.runs.now ending.now.line.now hour.now.begin y adj.now hour.now.fresh.near hour.now.wide
        × Counted ending.now.runs.now ending.now.line.now hour.now.wide inner × Loose rows.old count × Unseen rows.old count hour.now.begin y }
    ensures { Adds (ShownOver ending.now.runs.now hour.now.least hour.now.begin y) rows.old count rows.new result }
{
    let (clique, open) = match inner {
        Inner::NoRun => return Ok(count),
        Inner::OneRun(r) => {
            let run = run_at(ending.runs, r);
            let both = only(run.one) | only(run.other);
            let close = links(adj, run.one) & links(adj, run.other) & hour.wide;
            (both, close)
        }
        Inner::Several => (0, hour.wide),
    };
    let pairs = ending.pairs();
    let sought = Sought {
        begin: hour.begin as u64,
        end: y as u64,
        least: hour.least,
        fresh: &hour.fresh,
        ending: &pairs,
    };
    search(adj, &sought, clique, open, 0, rows, count)
}

// Puts the groups of the span from the hour to y among the rows found, whose spans stand before it. `ending` are the runs that end at y. Where none of
// these matters there is no group, and nothing is put in order. The rows stand in order where room ran out too.
fn one_span(
    ending: &Part<'_>,
    hour: &Hour,
    y: u32,
    adj: &[u64; 64],
    rows: &mut [u64],
    count: usize,
) -> Result<usize, Full>
    requires { AtSpan ending.now.runs.now ending.now.line.now hour.now.begin y adj.now hour.now.fresh.near hour.now.wide × Tidy rows.old count × Past rows.old count hour.now.begin y }
    ensures { Grows (ShownOver ending.now.runs.now hour.now.least hour.now.begin y) rows.old count rows.new result }
{
    let inner = ending.count_inner(hour.wide);
    if let Inner::NoRun = inner {
        return Ok(count);
    }
    let found = find_sets(ending, inner, hour, y, adj, rows, count);
    let end = found.unwrap_or(rows.len() / 3);
    settle(&mut rows[3 * count..3 * end], hour.begin as u64, y as u64);
    found
}

// Puts the groups that begin at the hour among the rows found, one end after another. The runs that stand at it are lent in rising order of their ends.
fn spans(
    standing: &Part<'_>,
    hour: &Hour,
    adj: &mut [u64; 64],
    rows: &mut [u64],
    count: usize,
) -> Result<usize, Full>
    requires { AtHour standing.now.runs.now standing.now.line.now hour.now adj.old × Tidy rows.old count × BegunBefore rows.old count hour.now.begin }
    ensures { Grows (ShownFrom standing.now.runs.now hour.now.least hour.now.begin) rows.old count rows.new result }
{
    let Part { runs, line } = *standing;
    let mut found = count;
    let mut a = 0;
    while a < line.len() {
        let y = run_at(runs, line[a]).end;
        if hour.last < y {
            return Ok(found);
        }
        let b = drop_ended(runs, line, a, line.len(), y + 1);
        let ending = Part {
            runs,
            line: &line[a..b],
        };
        found = one_span(&ending, hour, y, &*adj, rows, found)?;
        ending.erase_from(adj);
        a = b;
    }
    Ok(found)
}

// Puts the groups that begin at x among the rows found. The runs that stand at x and those that begin then are lent.
fn starts(
    runs: &[u32],
    standing: &[u32],
    beginning: &[u32],
    x: u32,
    least: u32,
    rows: &mut [u64],
    count: usize,
) -> Result<usize, Full>
    requires { AtBegin runs.now standing.now beginning.now x × Tidy rows.old count × BegunBefore rows.old count x }
    ensures { Grows (ShownFrom runs.now least x) rows.old count rows.new result }
{
    let standing = Part {
        runs,
        line: standing,
    };
    let beginning = Part {
        runs,
        line: beginning,
    };
    let mut adj = standing.graph();
    let hour = Hour {
        begin: x,
        least,
        fresh: beginning.pairs(),
        wide: beginning.reach(&adj),
        last: beginning.last_end(),
    };
    spans(&standing, &hour, &mut adj, rows, count)
}

// Puts the groups of the table among no rows, one begin after another. `order` has the runs in rising order of their begins; in the line the runs that stand
// at the hour are kept, from `head` on.
pub(crate) fn begins(
    runs: &[u32],
    order: &[u32],
    line: &mut [u32],
    least: u32,
    rows: &mut [u64],
) -> Result<usize, Full>
    requires { AtTable runs.now order.now line.old }
    ensures { Grows (Shown runs.now least) rows.old 0 rows.new result }
{
    let mut found = 0;
    let all = runs.len() / 4;
    let mut head = 0;
    let mut i = 0;
    while i < all {
        let x = run_at(runs, order[i]).begin;
        head = drop_ended(runs, &*line, head, i, x);
        let next = enter_all(runs, order, line, head, i, x);
        found = starts(
            runs,
            &line[head..next],
            &order[i..next],
            x,
            least,
            rows,
            found,
        )?;
        i = next;
    }
    Ok(found)
}
