// Lends table T as link records to the check, the list, the question and the writer, and then a table in which a pair has an hour twice. It prints what each answers.
#![tactic(auto)]

use links::reply::Refusal;
use records::Link;
use std::fmt;
use std::fmt::Write;

// The file descriptor of standard output.
const STDOUT: i32 = 1;

// Standard output. What can't be written is passed over.
#[derive(Clone, Copy)]
struct Out;

impl Write for Out {
    fn write_str(&mut self, text: &str) -> fmt::Result {
        io::write_all(STDOUT, text.as_bytes());
        Ok(())
    }
}

// What an entry answers, behind some words; or its refusal.
fn show_answer<T: fmt::Display + Drop>(
    out: &mut Out,
    words: &str,
    answer: Result<T, Refusal>,
) -> fmt::Result {
    match answer {
        Ok(answer) => writeln!(out, "{words}{answer}"),
        Err(why) => writeln!(out, "{why}"),
    }
}

// Each number, behind a space.
fn show_numbers(out: &mut Out, numbers: &[u64]) -> fmt::Result {
    for number in numbers {
        write!(out, " {number}")?;
    }
    writeln!(out)
}

// Each byte, in hexadecimal. Its two digits are one write, where `{:02x}` would make two of a byte below 16; `Out` keeps nothing back, so the order stands.
fn show_bytes(out: &mut Out, bytes: &[u8]) -> fmt::Result {
    for byte in bytes {
        io::print_hex(STDOUT, u64::from(*byte), 2);
    }
    writeln!(out)
}

// What each entry answers of a table of 4 gauges; the question is about gauges 0 and 1 over the hours 5 to 9. The lent memory is ones.
fn show(out: &mut Out, links: &[Link]) -> fmt::Result {
    let mut rows = [1u64; 24];
    let mut bytes = [1u8; 120];
    show_answer(out, "", records::check(links, 4).map(|()| "accepted"))?;
    show_answer(out, "groups ", records::list(links, 4, &mut rows))?;
    show_numbers(out, &rows)?;
    show_answer(out, "", records::ask(links, 4, 0b11, 5, 9))?;
    show_answer(out, "written ", records::write(links, 4, &mut bytes))?;
    show_bytes(out, &bytes)
}

fn link(b: u32, e: u32, u: u32, v: u32) -> Link {
    Link { b, e, u, v }
}

fn show_all(out: &mut Out) -> fmt::Result {
    let one = link(1, 9, 0, 1);
    let two = link(3, 12, 1, 2);
    let three = link(5, 14, 0, 2);
    let four = link(7, 20, 2, 3);
    show(out, &[one, two, three, four, link(10, 18, 1, 3)])?;
    // The last link shares hour 9 with the first, its gauges turned.
    show(out, &[one, two, three, four, link(9, 18, 1, 0)])
}

// Nothing that a write answers stops the program.
fn main() {
    let _ = show_all(&mut Out);
}
