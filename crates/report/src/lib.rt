// The listing as a whole: from the bytes of a link file to the text that document 01 has for them.
#![tactic(auto)]

ghost use Rattle.lines.specs.Replies.{Puts};
ghost use Rattle.lines.specs.Text.{refusal_of};
ghost use Rattle.links.specs.Reasons.{number_of};
ghost use Rattle.report.specs.Replies.{Prints, PrintsTable};

use groups::list;
use linkfile::read;
use links::reply::{Reason, Refusal};

// The most bytes of input that are read as a file.
const LARGEST: usize = 40960;

// Puts the line of a refusal at the start of `out`.
fn refuse(why: Refusal, out: &mut [u8]) -> Option<usize>
    ensures { Puts (refusal_of (number_of why.reason) why.place) out.old 0 result out.new }
{
    lines::refusal(u32::from(why.reason), why.place as u64, out, 0)
}

// Puts the list of the groups of a table at the start of `out`, or the line of its refusal. There is room for 2,048 rows.
fn table(numbers: &[u32], gauges: u32, out: &mut [u8]) -> Option<usize>
    ensures { PrintsTable numbers.now gauges out.old result out.new }
{
    let mut rows = [0u64; 6144];
    match list(numbers, gauges, &mut rows) {
        Err(why) => refuse(why, out),
        Ok(count) => lines::list(&rows[..3 * count], out, 0),
    }
}

// Puts the listing of a link file at the start of `out`: the list of its groups, or the line of the first reason to refuse it. There is room for 2,048 links.
pub fn listing(input: &[u8], out: &mut [u8]) -> Option<usize>
    ensures { Prints input.now out.old result out.new }
{
    if LARGEST < input.len() {
        return refuse(Reason::TooLargeInput.at(0), out);
    }
    let mut numbers = [0u32; 8192];
    match read(input, &mut numbers) {
        Err(why) => refuse(why, out),
        Ok(counts) => table(&numbers[..4 * counts.links], counts.gauges, out),
    }
}
