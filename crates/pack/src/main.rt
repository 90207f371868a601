// The packing program: reads a table as text from standard input and writes its link file to standard output. Text that is no table is refused on standard error,
// with a reason and the line, and then nothing is written to standard output.
#![tactic(auto)]

use linktext::pack;
use std::fmt;
use std::fmt::Write;

// The file descriptors of the standard streams.
const STDIN: i32 = 0;

const STDOUT: i32 = 1;

const STDERR: i32 = 2;

// Standard error. What can't be written is passed over.
#[derive(Clone, Copy)]
struct Errors;

impl Write for Errors {
    fn write_str(&mut self, text: &str) -> fmt::Result {
        io::write_all(STDERR, text.as_bytes());
        Ok(())
    }
}

// One byte more is read than a text may have, so that a longer one is seen to be one. There is room for every file.
fn main() {
    let mut text = [0u8; 131073];
    let size = io::read_full(STDIN, &mut text);
    let mut file = [0u8; 36882];
    match pack(&text[..size], &mut file) {
        Ok(length) => {
            io::write_all(STDOUT, &file[..length]);
        }
        Err(why) => {
            let _ = writeln!(Errors, "{why}");
        }
    }
}
