// Writes the link file of case P2 of document 01, with 2 gauges, and reads it back: whole, without its last byte, and empty. It prints a line for each.
#![tactic(auto)]

use linkfile::reply::Counts;
use links::reply::Refusal;
use std::fmt;
use std::fmt::Write;

// The file descriptor of standard output.
const STDOUT: i32 = 1;

// Standard output. What can't be written is passed over.
#[derive(Clone, Copy)]
struct Out;

impl Write for Out {
    fn write_str(&mut self, text: &str) -> fmt::Result {
        io::write_all(STDOUT, text.as_bytes());
        Ok(())
    }
}

// The length of the file.
fn show_written(out: &mut Out, written: Result<usize, Refusal>) -> fmt::Result {
    match written {
        Ok(length) => writeln!(out, "written {length}"),
        Err(why) => writeln!(out, "{why}"),
    }
}

// The gauge count and the count of links.
fn show_read(out: &mut Out, read: Result<Counts, Refusal>) -> fmt::Result {
    match read {
        Ok(counts) => writeln!(out, "read {} {}", counts.gauges, counts.links),
        Err(why) => writeln!(out, "{why}"),
    }
}

// Each byte, in hexadecimal. Its two digits are one write, where `{:02x}` would make two of a byte below 16; `Out` keeps nothing back, so the order stands.
fn show_bytes(out: &mut Out, bytes: &[u8]) -> fmt::Result {
    for byte in bytes {
        io::print_hex(STDOUT, u64::from(*byte), 2);
    }
    writeln!(out)
}

fn show_all(out: &mut Out) -> fmt::Result {
    let mut file = [0u8; 36];
    let mut numbers = [0u32; 4];
    show_written(out, linkfile::write(&[4, 4, 0, 1], 2, &mut file))?;
    show_bytes(out, &file)?;
    show_read(out, linkfile::read(&file, &mut numbers))?;
    let [begin, end, one, other] = numbers;
    writeln!(out, "link {begin} {end} {one} {other}")?;
    show_read(out, linkfile::read(&file[..35], &mut numbers))?;
    show_read(out, linkfile::read(&file[..0], &mut numbers))
}

// Nothing that a write answers stops the program.
fn main() {
    let _ = show_all(&mut Out);
}
