// The entries over a slice of link records. Each replies what the entry over numbers replies to the records' numbers in order.
// `lay_out` has the one loop over the records; an entry is an array, a call of `lay_out`, and a call of the entry over numbers.
#![tactic(auto)]

ghost use Rattle.std.specs.Prelude.{◌≡◌, ◌+◌, ◌≤◌, length};
ghost use Rattle.links.specs.Faults.{table_fault};
ghost use Rattle.links.specs.Replies.{fault_of};
ghost use Rattle.groups.specs.Replies.{Listing};
ghost use Rattle.question.specs.Answers.{said_of, Right};
ghost use Rattle.linkfile.specs.Replies.{Writes};
ghost use Rattle.records.specs.Flat.{flat};
ghost use Rattle.records.specs.Copies.{laid, LaidOut};

use links::MOST_LINKS;
use links::reply::{Reason, Refusal};
use question::reply::Verdict;

// A link: gauges u and v rose together at every hour from b to e.
#[derive(Clone, Copy, Debug, PartialEq, Eq)]
pub struct Link {
    pub b: u32,
    pub e: u32,
    pub u: u32,
    pub v: u32,
}

// The record's numbers go to the four places from `at` on.
fn put(link: Link, at: usize, numbers: &mut [u32])
    requires { at + 4 ≤ length numbers.old }
    ensures { numbers.new ≡ laid numbers.old at link }
{
    numbers[at..at + 4].copy_from_slice(&[link.b, link.e, link.u, link.v]);
}

// The records' numbers go to the front of the array, and the answer is how many numbers these are. More than 2,048 records are refused, and nothing is copied.
fn lay_out(links: &[Link], numbers: &mut [u32; 8192]) -> Result<usize, Refusal>
    ensures { LaidOut links.now numbers.old numbers.new result }
{
    if MOST_LINKS < links.len() {
        return Err(Reason::TooManyLinks.at(0));
    }
    for i in 0..links.len() {
        put(links[i], 4 * i, numbers);
    }
    Ok(4 * links.len())
}

// Whether the records, with this gauge count, are a table: the first of reasons 2 to 8 that holds, with its place.
pub fn check(links: &[Link], gauges: u32) -> Result<(), Refusal>
    ensures { fault_of result ≡ table_fault (flat links.now) gauges }
{
    let mut numbers = [0; 8192];
    let n = lay_out(links, &mut numbers)?;
    links::check(&numbers[..n], gauges)
}

// Lists the groups of the table in the lent rows, as `groups::list` does.
pub fn list(links: &[Link], gauges: u32, rows: &mut [u64]) -> Result<usize, Refusal>
    ensures { Listing (flat links.now) gauges rows.old result rows.new }
{
    let mut numbers = [0; 8192];
    let n = lay_out(links, &mut numbers)?;
    groups::list(&numbers[..n], gauges, rows)
}

// The question about one group: is it a group of the table, and if not, why, as `question::ask` answers it.
pub fn ask(
    links: &[Link],
    gauges: u32,
    members: u64,
    begin: u64,
    end: u64,
) -> Result<Verdict, Refusal>
    ensures { Right (flat links.now) gauges members begin end (said_of result) }
{
    let mut numbers = [0; 8192];
    let n = lay_out(links, &mut numbers)?;
    question::ask(&numbers[..n], gauges, members, begin, end)
}

// Writes the link file of the table into the lent bytes, as `linkfile::write` does.
pub fn write(links: &[Link], gauges: u32, bytes: &mut [u8]) -> Result<usize, Refusal>
    ensures { Writes (flat links.now) gauges bytes.old bytes.new result }
{
    let mut numbers = [0; 8192];
    let n = lay_out(links, &mut numbers)?;
    linkfile::write(&numbers[..n], gauges, bytes)
}
