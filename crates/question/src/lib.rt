// The question about one group: is it a group, and if not, why.
#![tactic(auto)]

mod reach;
pub mod reply;
mod walk;

ghost use Rattle.std.specs.Prelude.{◌≡◌};
ghost use Rattle.links.specs.Faults.{no_fault};
ghost use Rattle.links.specs.Replies.{fault_of};
ghost use Rattle.question.specs.Refusals.{question_fault};
ghost use Rattle.question.specs.Verdicts.{FirstVerdict};
ghost use Rattle.question.specs.Answers.{number_of, values_of, said_of, Right};

use links::reply::{Reason, Refusal};
use reply::Verdict;
use walk::Asked;

// The first verdict that holds, of a question that is not refused.
fn verdict(numbers: &[u32], gauges: u32, members: u64, begin: u64, end: u64) -> Verdict
    requires { question_fault numbers.now gauges members begin end ≡ no_fault }
    ensures { FirstVerdict numbers.now gauges members begin end (number_of result) (values_of result) }
{
    let asked = Asked {
        numbers,
        begin,
        end,
    };
    match asked.hours_of_set(members) {
        Err(pair) => Verdict::Missing(pair.lower, pair.higher),
        Ok(hours) => {
            if hours.from < begin {
                return Verdict::Earlier(hours.from);
            }
            if end < hours.upto {
                return Verdict::Later(hours.upto);
            }
            if let Some(k) = asked.lowest_further(gauges, members) {
                return Verdict::Further(k);
            }
            Verdict::Group
        }
    }
}

// The first of reasons 1 to 8, 10, 11 and 12 that the question is refused for.
fn refuse(numbers: &[u32], gauges: u32, members: u64, begin: u64, end: u64) -> Result<(), Refusal>
    ensures { fault_of result ≡ question_fault numbers.now gauges members begin end }
{
    links::check(numbers, gauges)?;
    if members & !gauges::below(gauges) != 0 {
        return Err(Reason::UnknownMember.at(0));
    }
    if gauges::size(members) < 2 {
        return Err(Reason::TooFewMembers.at(0));
    }
    if end < begin {
        return Err(Reason::NoSpan.at(0));
    }
    Ok(())
}

// The question: is this set of members, over the hours from begin to end, a group of the table, and if not, why.
pub fn ask(
    numbers: &[u32],
    gauges: u32,
    members: u64,
    begin: u64,
    end: u64,
) -> Result<Verdict, Refusal>
    ensures { Right numbers.now gauges members begin end (said_of result) }
{
    refuse(numbers, gauges, members, begin, end)?;
    Ok(verdict(numbers, gauges, members, begin, end))
}
