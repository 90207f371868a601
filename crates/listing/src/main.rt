// The listing program: reads a link file from standard input and prints the list of its groups, or the line of its refusal.
#![tactic(auto)]

ghost use Rattle.std.specs.Prelude.{◌≤◌, length};
ghost use Rattle.listing.specs.Printing.{Printed};

use report::listing;

// The file descriptors of the standard streams.
const STDIN: i32 = 0;

const STDOUT: i32 = 1;

// Makes the text for the input and answers its length. The buffer has room for every text.
fn made(input: &[u8], text: &mut [u8]) -> usize
    requires { 440332 ≤ length text.old }
    ensures { Printed input.now text.new result }
{
    listing(input, text).unwrap_or(0)
}

// One byte more is read than a file may have, so that a longer input is seen to be one. A read that fails counts as the end of the input; a write that fails ends
// the program.
fn main() {
    let mut input = [0u8; 40961];
    let size = io::read_full(STDIN, &mut input);
    let mut text = [0u8; 440332];
    let length = made(&input[..size], &mut text);
    io::write_all(STDOUT, &text[..length]);
}
