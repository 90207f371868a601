// The table of links: the check of it, as a whole, by its head and as a table of spans, and the pair test. A link is four of the lent numbers, b, e, u, v:
// gauges u and v rose together at every hour from b to e.
#![tactic(auto)]

mod chains;
mod link;
mod order;
pub mod reply;
mod spans;

ghost use Rattle.std.specs.Prelude.{◌≡◌, ◌≤◌, ◌<◌};
ghost use Rattle.gauges.specs.Flags.{Tells};
ghost use Rattle.links.specs.Links.{count, begins, ends, one, other, Of, Clash, Covers};
ghost use Rattle.links.specs.Faults.{link_fault, links_fault, head_fault, table_fault};
ghost use Rattle.links.specs.Replies.{fault_of, CoverOf, SpansChecked};
ghost use Rattle.links.specs.Chains.{Chained, AtLink};

use chains::Chains;
use link::{Link, link_at};
use order::by_begin;
use reply::{Reason, Refusal};
use spans::lines_up;

// The most links a table holds.
pub const MOST_LINKS: usize = 2048;

// The most gauges, and the last hour.
const MOST_GAUGES: u32 = 64;

const LAST_HOUR: u32 = 2147483647;

// Whether link i is one of gauges u and v, in either order.
fn is_of(numbers: &[u32], i: usize, u: u32, v: u32) -> bool
    requires { i < count numbers.now }
    ensures { Tells result (Of numbers.now i u v) }
{
    let Link { one, other, .. } = link_at(numbers, i);
    if one == u {
        other == v
    } else if one == v {
        other == u
    } else {
        false
    }
}

// Whether links i and j, which are of the same two gauges, share an hour.
fn clash(numbers: &[u32], i: usize, j: usize) -> bool
    requires { (i < count numbers.now) × (j < count numbers.now) × Of numbers.now i (one numbers.now j) (other numbers.now j) }
    ensures { Tells result (Clash numbers.now i j) }
{
    let one = link_at(numbers, i);
    let other = link_at(numbers, j);
    let from = one.begin.max(other.begin);
    let upto = one.end.min(other.end);
    from <= upto
}

// The first of reasons 4 to 8 that link i is refused for.
fn check_link(numbers: &[u32], gauges: u32, chains: &Chains, i: usize) -> Result<(), Refusal>
    requires { AtLink numbers.now gauges chains.now i }
    ensures { fault_of result ≡ link_fault numbers.now gauges i }
{
    let Link {
        begin,
        end,
        one: u,
        other: v,
    } = link_at(numbers, i);
    if gauges <= u {
        return Err(Reason::UnknownGauge.at(i));
    }
    if gauges <= v {
        return Err(Reason::UnknownGauge.at(i));
    }
    if u == v {
        return Err(Reason::SameGauge.at(i));
    }
    if end < begin {
        return Err(Reason::EndBeforeBegin.at(i));
    }
    if LAST_HOUR < end {
        return Err(Reason::TooLate.at(i));
    }
    if chains.earlier_clash(numbers, i).is_some() {
        return Err(Reason::SharedHour.at(i));
    }
    Ok(())
}

// The first fault of the links, from number 0 up. Each link passed is entered into the chain of its pair; the chains are empty at first.
fn check_each(numbers: &[u32], gauges: u32, chains: &mut Chains) -> Result<(), Refusal>
    requires { (gauges ≤ 64) × Chained numbers.now chains.old 0 }
    ensures { fault_of result ≡ links_fault numbers.now gauges (count numbers.now) }
{
    for i in 0..numbers.len() / 4 {
        check_link(numbers, gauges, &*chains, i)?;
        chains.enter(numbers, i);
    }
    Ok(())
}

// The first fault of the links, with room for their chains: a place for each two gauges, and one for each link. It is a call of its own, and so are the others that
// have large arrays, so that these are given back before a list makes its own.
#[inline(never)]
fn check_links(numbers: &[u32], gauges: u32) -> Result<(), Refusal>
    requires { (count numbers.now ≤ 2048) × (gauges ≤ 64) }
    ensures { fault_of result ≡ links_fault numbers.now gauges (count numbers.now) }
{
    let mut chains = Chains {
        previous: [0; 2048],
        latest: [0; 4096],
    };
    check_each(numbers, gauges, &mut chains)
}

// Whether the table as a whole passes: the first of reasons 1 to 3 that holds. Its links are not looked at.
pub fn check_head(numbers: &[u32], gauges: u32) -> Result<(), Refusal>
    ensures { fault_of result ≡ head_fault numbers.now gauges }
{
    if 0 < numbers.len() % 4 {
        return Err(Reason::NotFours.at(0));
    }
    if MOST_LINKS < numbers.len() / 4 {
        return Err(Reason::TooManyLinks.at(0));
    }
    if gauges == 0 {
        return Err(Reason::NotThatManyGauges.at(0));
    }
    if MOST_GAUGES < gauges {
        return Err(Reason::NotThatManyGauges.at(0));
    }
    Ok(())
}

// Whether the numbers, with this gauge count, are a table: the first of reasons 1 to 8 that holds, with its place.
pub fn check(numbers: &[u32], gauges: u32) -> Result<(), Refusal>
    ensures { fault_of result ≡ table_fault numbers.now gauges }
{
    check_head(numbers, gauges)?;
    check_links(numbers, gauges)
}

// Whether the numbers are a table of spans, as the lister takes it: the first reason, with its place, for which a table of 64 gauges is refused. If they are one, the
// lent line has the spans in order of their begins then, unless they are more than its places. Refused, the line is unchanged.
pub fn check_spans(numbers: &[u32], line: &mut [u32]) -> Result<(), Refusal>
    ensures { SpansChecked numbers.now line.old result line.new }
{
    if lines_up(numbers, line) {
        return Ok(());
    }
    check(numbers, MOST_GAUGES)?;
    by_begin(numbers, line);
    Ok(())
}

// Whether link i joins gauges u and v throughout the hours from begin to end.
fn covers(numbers: &[u32], i: usize, u: u32, v: u32, begin: u64, end: u64) -> bool
    requires { i < count numbers.now }
    ensures { Tells result (Covers numbers.now u v begin end i) }
{
    if end < begin {
        return false;
    }
    // One hour at a time: the end is not looked at where the begin says no.
    if begin < link_at(numbers, i).begin as u64 {
        return false;
    }
    if (link_at(numbers, i).end as u64) < end {
        return false;
    }
    is_of(numbers, i, u, v)
}

// The pair test: the last link that joins gauges u and v throughout the hours from begin to end, or that they are not joined throughout. It is a call of its own, since its loop
// is what a question's time goes to, and copied into each walk of the question it took up to twice as long.
#[inline(never)]
pub fn covering(numbers: &[u32], u: u32, v: u32, begin: u64, end: u64) -> Option<usize>
    ensures { CoverOf numbers.now u v begin end result }
{
    for i in (0..numbers.len() / 4).rev() {
        if covers(numbers, i, u, v, begin, end) {
            return Some(i);
        }
    }
    None
}
