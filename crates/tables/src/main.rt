// Lists the groups of tables of document 01 and prints what the list answers: the number of groups and a line a row (begin, end, members), or the refusal; then
// what the lister answers of some tables of spans, and the checks of a table's head and of spans.
#![tactic(auto)]

use groups::list;
use links::reply::Refusal;
use links::{check_head, check_spans};
use std::fmt;
use std::fmt::Write;
use sweep::reply::Unlisted;

// The file descriptor of standard output.
const STDOUT: i32 = 1;

// Standard output. What can't be written is passed over.
#[derive(Clone, Copy)]
struct Out;

impl Write for Out {
    fn write_str(&mut self, text: &str) -> fmt::Result {
        io::write_all(STDOUT, text.as_bytes());
        Ok(())
    }
}

// Seven pairs of six gauges over one span: three groups, which are not found in the order of the list.
const BAY: [u32; 28] = [
    0, 9, 2, 4, 0, 9, 2, 5, 0, 9, 0, 5, 0, 9, 1, 4, 0, 9, 1, 2, 0, 9, 3, 5, 0, 9, 2, 3,
];

// The first `count` rows, a line each.
fn show_rows(out: &mut Out, rows: &[u64], count: usize) -> fmt::Result {
    for row in rows.chunks_exact(3).take(count) {
        writeln!(out, "{} {} {}", row[0], row[1], row[2])?;
    }
    Ok(())
}

fn show(out: &mut Out, numbers: &[u32], gauges: u32, rows: &mut [u64]) -> fmt::Result {
    match list(numbers, gauges, rows) {
        Ok(count) => {
            writeln!(out, "groups {count}")?;
            show_rows(out, rows, count)
        }
        Err(why) => writeln!(out, "{why}"),
    }
}

// What the lister itself answers.
fn show_spans(out: &mut Out, spans: &[u32], least: u32, rows: &mut [u64]) -> fmt::Result {
    match sweep::list(spans, least, rows) {
        Ok(count) => {
            writeln!(out, "spans {count}")?;
            show_rows(out, rows, count)
        }
        Err(Unlisted::Full) => writeln!(out, "full"),
        Err(Unlisted::NotSpans) => writeln!(out, "no spans"),
    }
}

// A table of spans with the least sizes three and two, the second with too few rows; two tables that are none; no spans; and the least sizes that show nothing and everything, the
// last with no room.
fn show_all_spans(out: &mut Out, spans: &[u32]) -> fmt::Result {
    let mut rows = [0u64; 9];
    show_spans(out, spans, 3, &mut rows)?;
    show_spans(out, spans, 2, &mut rows)?;
    show_spans(out, &[0, 5, 0, 1, 5, 9, 1, 0], 2, &mut rows)?;
    show_spans(out, &[0, 2147483648, 0, 1], 2, &mut rows)?;
    show_spans(out, &[], 2, &mut rows)?;
    show_spans(out, spans, 65, &mut rows)?;
    show_spans(out, &[4, 4, 0, 1], 0, &mut rows)?;
    let mut none = [7u64; 2];
    show_spans(out, &[4, 4, 0, 1], 2, &mut none)
}

fn show_checked(out: &mut Out, checked: Result<(), Refusal>) -> fmt::Result {
    match checked {
        Ok(()) => writeln!(out, "passed"),
        Err(why) => writeln!(out, "{why}"),
    }
}

// The two other checks: of a table as a whole, and of spans, with a line that has room for them and with one that has none.
fn show_checks(out: &mut Out, spans: &[u32]) -> fmt::Result {
    show_checked(out, check_head(spans, 64))?;
    show_checked(out, check_head(spans, 65))?;
    show_checked(out, check_head(&[9, 1, 70, 70, 0], 64))?;
    let mut line = [7u32; 5];
    show_checked(out, check_spans(&[6, 9, 1, 0, 0, 5, 0, 1], &mut line))?;
    writeln!(out, "{} {} {}", line[0], line[1], line[2])?;
    show_checked(out, check_spans(&[0, 5, 0, 1, 6, 9, 2, 64], &mut line))?;
    writeln!(out, "{} {} {}", line[0], line[1], line[2])?;
    let mut short = [7u32; 1];
    show_checked(out, check_spans(spans, &mut short))?;
    writeln!(out, "{} 0 0", short[0])
}

// All pairs of 64 gauges, linked from hour 0 to 9.
fn all_pairs(numbers: &mut [u32; 8064]) {
    let mut links = numbers.as_chunks_mut::<4>().0.iter_mut();
    for v in 0..64 {
        for u in 0..v {
            if let Some(link) = links.next() {
                *link = [0, 9, u, v];
            }
        }
    }
}

fn show_every(out: &mut Out) -> fmt::Result {
    let t = [
        1, 9, 0, 1, 3, 12, 1, 2, 5, 14, 0, 2, 7, 20, 2, 3, 10, 18, 1, 3,
    ];
    let mut rows = [0u64; 30];
    show(out, &t, 4, &mut rows)?;
    let mut few = [7u64; 20];
    show(out, &t, 4, &mut few)?;
    writeln!(out, "{} {} {}", few[0], few[17], few[18])?;
    show(out, &[0, 5, 0, 1, 6, 9, 0, 1], 4, &mut rows)?;
    show(out, &[6, 9, 1, 0, 0, 5, 0, 1], 4, &mut rows)?;
    show(out, &BAY, 6, &mut rows)?;
    let mut three = [0u64; 9];
    show(out, &BAY, 6, &mut three)?;
    show(out, &[0, 5, 0, 1, 5, 9, 1, 0], 4, &mut rows)?;
    show(out, &[0, 1, 0, 63], 64, &mut rows)?;
    show(out, &[0, 1, 0, 63], 63, &mut rows)?;
    show_all_spans(out, &t)?;
    show_checks(out, &t)?;
    let mut complete = [0u32; 8064];
    all_pairs(&mut complete);
    show(out, &complete, 64, &mut rows)
}

// Nothing that a write answers stops the program.
fn main() {
    let _ = show_every(&mut Out);
}
