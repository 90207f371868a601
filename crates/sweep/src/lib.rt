// The lister: the groups of a table of spans. Inside the crate a four of the table is called a run, since a span is what a group has.
#![tactic(auto)]

mod block;
mod graph;
mod line;
mod pairs;
pub mod reply;
mod search;
mod spans;
mod store;

ghost use Rattle.cliques.specs.Buffers.{Cleared};
ghost use Rattle.sweep.specs.Replies.{Sweeping};

use links::check_spans;
use reply::Unlisted;
use spans::begins;

// Sets every number of the whole rows to 0.
fn clear(rows: &mut [u64])
    ensures { Cleared rows.old rows.new }
{
    let whole = rows.len() / 3;
    rows[..3 * whole].fill(0);
}

// Lists the groups of a table of spans that have at least so many gauges in the lent rows, three numbers a row: begin, end, members; by begin, then end, then
// members; and answers how many there are. With too little room for them the whole rows are 0.
pub fn list(spans: &[u32], least: u32, rows: &mut [u64]) -> Result<usize, Unlisted>
    ensures { Sweeping spans.now least rows.old result rows.new }
{
    let mut order = [0u32; 2048];
    if check_spans(spans, &mut order).is_err() {
        return Err(Unlisted::NotSpans);
    }
    let mut line = [0u32; 2048];
    match begins(spans, &order, &mut line, least, rows) {
        Ok(count) => Ok(count),
        Err(_) => {
            clear(rows);
            Err(Unlisted::Full)
        }
    }
}
