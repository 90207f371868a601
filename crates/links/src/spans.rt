// A quick test of tables of spans. That it says yes of tables of spans alone is promised; where it says no, the check says why.
ghost use Rattle.std.specs.Prelude.{true, ◌≡◌, ◌<◌};
ghost use Rattle.links.specs.Links.{count, Apart};
ghost use Rattle.links.specs.Spans.{Formed, AllFormed, Passes, Lined, LinesUp, Spans};

use crate::chains::pair_of;
use crate::link::{Link, link_at};
use crate::order::{by_begin, hand_over};
use crate::{LAST_HOUR, MOST_GAUGES, MOST_LINKS};

// Whether span i is of two gauges below 64, and ends no sooner than it begins and at a permitted hour.
fn is_formed(numbers: &[u32], i: usize) -> bool
    requires { i < count numbers.now }
    ensures { result ≡ true → Formed numbers.now i }
{
    let Link {
        begin,
        end,
        one: u,
        other: v,
    } = link_at(numbers, i);
    u < MOST_GAUGES && v < MOST_GAUGES && u != v && begin <= end && end <= LAST_HOUR
}

// Whether all spans are so.
fn are_formed(numbers: &[u32]) -> bool
    ensures { result ≡ true → AllFormed numbers.now }
{
    (0..numbers.len() / 4).all(|i| is_formed(numbers, i))
}

// Whether no two spans of one pair share an hour. They are gone through by begin, so that each need only be held against the latest of its pair: `free` has, of
// each pair, the hour after the end of that one, and 0 at first.
fn are_apart(numbers: &[u32], line: &[u32], free: &mut [u32]) -> bool
    requires { Passes numbers.now line.now free.old }
    ensures { result ≡ true → Apart numbers.now }
{
    for &i in line {
        let i = i as usize;
        let pair = pair_of(numbers, i);
        let link = link_at(numbers, i);
        if link.begin < free[pair] {
            return false;
        }
        free[pair] = link.end + 1;
    }
    true
}

// Whether the numbers, whose spans stand in the line by begin if it has room for them, are a table of spans.
#[inline(never)]
fn are_spans(numbers: &[u32], line: &[u32]) -> bool
    requires { Lined numbers.now line.now }
    ensures { result ≡ true → Spans numbers.now }
{
    let links = numbers.len() / 4;
    if 0 < numbers.len() % 4 || MOST_LINKS < links || line.len() < links {
        return false;
    }
    if !are_formed(numbers) {
        return false;
    }
    let mut free = [0u32; 4096];
    are_apart(numbers, &line[..links], &mut free)
}

// Whether the numbers are a table of spans, which then stand in the lent line by begin, if it has room for them. Where this says no, the line is unchanged.
#[inline(never)]
pub(crate) fn lines_up(numbers: &[u32], line: &mut [u32]) -> bool
    ensures { LinesUp numbers.now line.old result line.new }
{
    let mut found = [0u32; 2048];
    by_begin(numbers, &mut found);
    if !are_spans(numbers, &found) {
        return false;
    }
    hand_over(&found[..numbers.len() / 4], line);
    true
}
