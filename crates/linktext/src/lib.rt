// Packing a table that is written as text into a link file.
#![tactic(auto)]

pub mod reply;
mod text;

ghost use Rattle.std.specs.Prelude.{◌≡◌, ◌≤◌};
ghost use Rattle.links.specs.Reasons.{number_of};
ghost use Rattle.linktext.specs.Replies.{line_in, Packs};

use linkfile::write;
use links::reply::{Reason, Refusal};
use reply::{TextFault, TextRefusal};
use text::table;

// A text of more bytes than this is refused.
const LONGEST: usize = 131072;

// The refusal of a text for its table: its line is that of a link, or else the first.
fn in_text(why: Refusal) -> TextRefusal
    requires { why.place ≤ 2048 }
    ensures { result ≡ record { fault = TextFault.Table why.reason; line = line_in (number_of why.reason) why.place } }
{
    let line = match why.reason {
        Reason::UnknownGauge
        | Reason::SameGauge
        | Reason::EndBeforeBegin
        | Reason::TooLate
        | Reason::SharedHour => why.place + 2,
        _ => 1,
    };
    TextFault::Table(why.reason).in_line(line)
}

// Packs a text into a link file in the lent bytes: its length, or the first reason to refuse the text, and its line.
pub fn pack(text: &[u8], file: &mut [u8]) -> Result<usize, TextRefusal>
    ensures { Packs text.now file.old result file.new }
{
    if LONGEST < text.len() {
        return Err(TextFault::TooLong.in_line(1));
    }
    let mut numbers = [0u32; 8192];
    let found = table(text, &mut numbers)?;
    write(&numbers[..4 * found.links], found.gauges, file).map_err(in_text)
}
