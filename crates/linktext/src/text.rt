// Reading a table as text from its front: what stands there and the text behind it, or why it is none.
ghost use Rattle.std.specs.Prelude.{List, ℕ, [], ◌≡◌, ◌≤◌, length};
ghost use Rattle.std.specs.List.{prefix_len};
ghost use Rattle.linktext.specs.Texts.{is_space, behind_spaces, digits_from, leading, ended, line_of, links_from, read_text};
ghost use Rattle.linktext.specs.Steps.{figure_in, line_in, parsed_in, Few};

use crate::reply::{TextFault, TextRefusal};
use linkfile::reply::Counts;
use links::MOST_LINKS;
use links::reply::Reason;

// The largest number that there is room for, in 32 bits.
const LARGEST: u64 = u32::MAX as u64;

// A number, and the text behind it.
#[derive(Clone, Copy)]
struct Number<'a> {
    value: u32,
    rest: &'a [u8],
}

fn is_space(b: u8) -> bool
    ensures { result ≡ is_space b }
{
    matches!(b, b' ' | b'\t' | b'\r')
}

// How many spaces a text begins with.
fn spaces(text: &[u8]) -> usize
    ensures { result ≡ prefix_len is_space text.now }
{
    text.iter().take_while(|b| is_space(**b)).count()
}

// The text behind its leading spaces.
fn behind_spaces(text: &[u8]) -> &[u8]
    ensures { result.now ≡ behind_spaces text.now }
{
    &text[spaces(text)..]
}

// The number of the leading digits.
fn digits(text: &[u8]) -> Result<Number<'_>, TextFault>
    ensures { figure_in result ≡ digits_from 0 text.now }
{
    let mut value = 0;
    let mut rest = text;
    while let [b, behind @ ..] = rest {
        if !b.is_ascii_digit() {
            break;
        }
        value = value * 10 + u64::from(*b - b'0');
        if LARGEST < value {
            return Err(TextFault::TooLarge);
        }
        rest = behind;
    }
    Ok(Number {
        value: value as u32,
        rest,
    })
}

// The number that a text begins with, if it begins with a digit.
fn leading(text: &[u8]) -> Result<Number<'_>, TextFault>
    ensures { figure_in result ≡ leading text.now }
{
    match text {
        [b, ..] if b.is_ascii_digit() => digits(text),
        _ => Err(TextFault::NoLink),
    }
}

// The rest of a line behind its last number: spaces, and a line feed or the end of the text.
fn end_of_line(text: &[u8]) -> Result<&[u8], TextFault>
    ensures { (ns : List ℕ) → line_in ns result ≡ ended ns (behind_spaces text.now) }
{
    let end = behind_spaces(text);
    match end {
        [] => Ok(end),
        [b'\n', rest @ ..] => Ok(rest),
        _ => Err(TextFault::NoLink),
    }
}

// Takes the numbers of a line, as many as there is room for.
fn line<'a>(text: &'a [u8], numbers: &mut [u32]) -> Result<&'a [u8], TextFault>
    ensures { line_in numbers.new result ≡ line_of (length numbers.old) [] text.now }
{
    let mut rest = text;
    for number in numbers.iter_mut() {
        let found = leading(behind_spaces(rest))?;
        *number = found.value;
        rest = found.rest;
    }
    end_of_line(rest)
}

// Takes the lines of the links.
fn links(text: &[u8], gauges: u32, numbers: &mut [u32]) -> Result<Counts, TextRefusal>
    requires { 8192 ≤ length numbers.old }
    ensures read { parsed_in numbers.new result ≡ links_from gauges 2048 [] text.now }
    ensures few { Few result }
{
    let mut rest = text;
    for links in 0..MOST_LINKS {
        if rest.is_empty() {
            return Ok(Counts { gauges, links });
        }
        match line(rest, &mut numbers[4 * links..4 * links + 4]) {
            Ok(behind) => rest = behind,
            Err(fault) => return Err(fault.in_line(links + 2)),
        }
    }
    if rest.is_empty() {
        return Ok(Counts {
            gauges,
            links: MOST_LINKS,
        });
    }
    Err(TextFault::Table(Reason::TooManyLinks).in_line(MOST_LINKS + 2))
}

// Takes the numbers of a table, four a link, to the front of the lent ones.
pub(crate) fn table(text: &[u8], numbers: &mut [u32]) -> Result<Counts, TextRefusal>
    requires { 8192 ≤ length numbers.old }
    ensures read { parsed_in numbers.new result ≡ read_text text.now }
    ensures few { Few result }
{
    let no_gauges = TextFault::NoGauges.in_line(1);
    let Some(count) = text.strip_prefix(b"gauges ") else {
        return Err(no_gauges);
    };
    let mut first = [0];
    let Ok(rest) = line(count, &mut first) else {
        return Err(no_gauges);
    };
    links(rest, first[0], numbers)
}
