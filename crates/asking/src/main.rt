// Asks the questions of P10 about table T, and one for each other answer, and writes a line for each answer.
#![tactic(auto)]

use std::fmt;
use std::fmt::Write;

// The file descriptor of standard output.
const STDOUT: i32 = 1;

// Standard output. What can't be written is passed over.
#[derive(Clone, Copy)]
struct Out;

impl Write for Out {
    fn write_str(&mut self, text: &str) -> fmt::Result {
        io::write_all(STDOUT, text.as_bytes());
        Ok(())
    }
}

fn ask(out: &mut Out, numbers: &[u32], members: u64, begin: u64, end: u64) -> fmt::Result {
    match question::ask(numbers, 4, members, begin, end) {
        Ok(verdict) => writeln!(out, "{verdict}"),
        Err(why) => writeln!(out, "{why}"),
    }
}

fn show_all(out: &mut Out) -> fmt::Result {
    let table: [u32; 20] = [
        1, 9, 0, 1, 3, 12, 1, 2, 5, 14, 0, 2, 7, 20, 2, 3, 10, 18, 1, 3,
    ];
    // P10: {0, 1} over 5 to 9, {0, 2} over 5 to 9, {0, 1} over 6 to 12.
    ask(out, &table, 0b11, 5, 9)?;
    ask(out, &table, 0b101, 5, 9)?;
    ask(out, &table, 0b11, 6, 12)?;
    // {0, 1, 2} over 5 to 9; {0, 2} up to the last of all 64-bit hours.
    ask(out, &table, 0b111, 5, 9)?;
    ask(out, &table, 0b101, 5, !0)?;
    // Gauge 4 of 4; one member; a begin after the end; one hour.
    ask(out, &table, 0b10011, 5, 9)?;
    ask(out, &table, 0b100, 5, 9)?;
    ask(out, &table, 0b11, 9, 8)?;
    ask(out, &table, 0b11, 9, 9)?;
    // Three gauges linked over one span: {0, 1} lacks gauge 2.
    let triangle: [u32; 12] = [0, 5, 0, 1, 0, 5, 1, 2, 0, 5, 0, 2];
    ask(out, &triangle, 0b11, 0, 5)?;
    // Two links of one pair that share hour 5.
    let twice: [u32; 8] = [0, 5, 0, 1, 5, 9, 1, 0];
    ask(out, &twice, 0b11, 0, 5)
}

// Nothing that a write answers stops the program.
fn main() {
    let _ = show_all(&mut Out);
}
