// The entries for programs in C, in Rust and in other languages, which `exports_c` exports. Each makes one call of the entry that it is named after, and puts the
// reply into five lent numbers: the reason of a refusal, its place, the answer, and the two values that an answer may carry.
#![tactic(auto)]

ghost use Rattle.std.specs.Prelude.{◌≡◌, ◌∷◌, MatchResult};
ghost use Rattle.exports.specs.Numbers.{refusal_numbers, answer_numbers, verdict_numbers};
ghost use Rattle.exports.specs.Replies.{Checks, Lists, Asks, Reads, Writes, Prints};

use linkfile::reply::Counts;
use links::reply::Refusal;
use question::reply::Verdict;

// The last three numbers of a reply are an answer and the two values that it may carry. Of an accepted table there is nothing to say.
fn accepted(_: ()) -> [u64; 3]
    ensures { 0 ∷ 0 ∷ result ≡ answer_numbers 0 0 0 }
{
    [0, 0, 0]
}

// A count of groups or a length, which carries no value.
fn alone(answer: usize) -> [u64; 3]
    ensures { 0 ∷ 0 ∷ result ≡ answer_numbers answer 0 0 }
{
    [answer as u64, 0, 0]
}

// A verdict and its cause.
fn with_cause(verdict: Verdict) -> [u64; 3]
    ensures { 0 ∷ 0 ∷ result ≡ verdict_numbers verdict }
{
    match verdict {
        Verdict::Missing(lower, higher) => [1, lower as u64, higher as u64],
        Verdict::Earlier(begin) => [2, begin, 0],
        Verdict::Later(end) => [3, end, 0],
        Verdict::Further(gauge) => [4, gauge as u64, 0],
        Verdict::Group => [5, 0, 0],
    }
}

// The count of links of a file, and its gauge count.
fn with_gauges(counts: Counts) -> [u64; 3]
    ensures { 0 ∷ 0 ∷ result ≡ answer_numbers counts.links counts.gauges 0 }
{
    [counts.links as u64, counts.gauges as u64, 0]
}

// The five numbers of a reply.
fn told(reply: Result<[u64; 3], Refusal>) -> [u64; 5]
    ensures { MatchResult reply (λ answer. result ≡ 0 ∷ 0 ∷ answer) (λ why. result ≡ refusal_numbers why) }
{
    match reply {
        Ok(values) => {
            let [answer, first, second] = values;
            [0, 0, answer, first, second]
        }
        Err(why) => [u32::from(why.reason) as u64, why.place as u64, 0, 0, 0],
    }
}

// The check of a table: `links::check`.
pub fn jointrise_check(numbers: &[u32], gauges: u32, reply: &mut [u64; 5])
    ensures { Checks numbers.now gauges reply.new }
{
    *reply = told(links::check(numbers, gauges).map(accepted));
}

// The list of the groups: `groups::list`.
pub fn jointrise_list(numbers: &[u32], gauges: u32, rows: &mut [u64], reply: &mut [u64; 5])
    ensures { Lists numbers.now gauges rows.old rows.new reply.new }
{
    *reply = told(groups::list(numbers, gauges, rows).map(alone));
}

// The question about one group: `question::ask`.
pub fn jointrise_ask(
    numbers: &[u32],
    gauges: u32,
    members: u64,
    begin: u64,
    end: u64,
    reply: &mut [u64; 5],
)
    ensures { Asks numbers.now gauges members begin end reply.new }
{
    *reply = told(question::ask(numbers, gauges, members, begin, end).map(with_cause));
}

// The reader of the link file: `linkfile::read`.
pub fn jointrise_read(bytes: &[u8], numbers: &mut [u32], reply: &mut [u64; 5])
    ensures { Reads bytes.now numbers.old numbers.new reply.new }
{
    *reply = told(linkfile::read(bytes, numbers).map(with_gauges));
}

// The writer of the link file: `linkfile::write`.
pub fn jointrise_write(numbers: &[u32], gauges: u32, bytes: &mut [u8], reply: &mut [u64; 5])
    ensures { Writes numbers.now gauges bytes.old bytes.new reply.new }
{
    *reply = told(linkfile::write(numbers, gauges, bytes).map(alone));
}

// The listing of a link file as text: `report::listing`.
pub fn jointrise_listing(input: &[u8], out: &mut [u8], reply: &mut [u64; 5])
    ensures { Prints input.now out.old out.new reply.new }
{
    let length = report::listing(input, out).unwrap_or(0);
    *reply = told(Ok(alone(length)));
}
