// The replies as text: the line above the rows, the line of a row, the line of a refusal and a whole list, each put at a place of lent bytes.
#![tactic(auto)]

mod headers;
mod lists;
mod piece;
mod refusals;
mod rows;
mod write;

ghost use Rattle.lines.specs.Text.{header_of, row_of, refusal_of, list_of};
ghost use Rattle.lines.specs.Replies.{Puts};

use headers::Header;
use lists::List;
use piece::put;
use refusals::Refusal;
use rows::Row;

// Puts `groups`, the count and a line feed at `at`.
pub fn header(count: u64, out: &mut [u8], at: usize) -> Option<usize>
    ensures { Puts (header_of count) out.old at result out.new }
{
    put(&Header { count }, out, at)
}

// Puts begin, end, the gauges ascending and a line feed at `at`.
pub fn row(begin: u64, end: u64, members: u64, out: &mut [u8], at: usize) -> Option<usize>
    ensures { Puts (row_of begin end members) out.old at result out.new }
{
    put(&Row::from([begin, end, members]), out, at)
}

// Puts `refused`, the reason, the place and a line feed at `at`.
pub fn refusal(reason: u32, place: u64, out: &mut [u8], at: usize) -> Option<usize>
    ensures { Puts (refusal_of reason place) out.old at result out.new }
{
    put(&Refusal { reason, place }, out, at)
}

// Puts a whole list at `at`: the line above the rows, and a line for each row that lies whole in `rows`, three numbers a row.
pub fn list(rows: &[u64], out: &mut [u8], at: usize) -> Option<usize>
    ensures { Puts (list_of rows.now) out.old at result out.new }
{
    put(&List { numbers: rows }, out, at)
}
