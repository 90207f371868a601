// The link file: its reader and its writer. The reader goes over the bytes twice: the first time it tests every record and counts the links, the second time it
// takes their numbers, so a file that is refused leaves the lent numbers as they were.
#![tactic(auto)]

mod kinds;
mod number;
pub mod reply;

ghost use Rattle.std.specs.Prelude.{◌≡◌, ◌+◌, ◌*◌, ◌≤◌, ◌<◌, length};
ghost use Rattle.links.specs.Links.{count};
ghost use Rattle.linkfile.specs.Steps.{Put, RecordAt, kind_number};
ghost use Rattle.linkfile.specs.Files.{head_of, link_record, link_records, file_of};
ghost use Rattle.linkfile.specs.Reading.{accepted, ◌then◌, closing_fault, read_of, link_at, numbers_of};
ghost use Rattle.linkfile.specs.Replies.{outcome_of, Reads, Writes};

use kinds::{Kind, read_record};
use links::reply::{Reason, Refusal};
use number::{number, put};
use reply::Counts;

// The tests of the closing record, which ends the file.
fn closing(bytes: &[u8], at: usize, next: usize, counts: Counts) -> Result<Counts, Refusal>
    requires { RecordAt bytes.now 3 at next }
    ensures { outcome_of result ≡ (closing_fault bytes.now at counts.links then accepted counts.gauges counts.links) }
{
    let count = number::<4>(bytes, at + 6) as usize;
    if count != counts.links {
        return Err(Reason::WrongCount.at(at));
    }
    if next < bytes.len() {
        return Err(Reason::BytesBehind.at(next));
    }
    Ok(counts)
}

// The first pass: what the reader answers, with room for so many links.
fn survey(bytes: &[u8], room: usize) -> Result<Counts, Refusal>
    ensures { outcome_of result ≡ read_of bytes.now room }
{
    read_record(bytes, 0, &[Kind::Opening])?;
    let gauges = number::<2>(bytes, 6);
    let mut at = 8;
    let mut links = 0;
    loop {
        let found = read_record(bytes, at, &[Kind::Link, Kind::Closing])?;
        if found.kind == Kind::Closing {
            return closing(bytes, at, found.next, Counts { gauges, links });
        }
        if links == room {
            return Err(Reason::TooFewNumbers.at(at));
        }
        at = found.next;
        links += 1;
    }
}

// The numbers of link k of a file. The opening record has 8 bytes, and each link record 18.
fn take_link(bytes: &[u8], k: usize, numbers: &mut [u32])
    requires { (18 * k + 26 ≤ length bytes.now) × (4 * k + 4 ≤ length numbers.old) }
    ensures { Put numbers.old (4 * k) (link_at bytes.now (8 + 18 * k)) numbers.new }
{
    let at = 8 + 18 * k;
    numbers[4 * k..4 * k + 4].copy_from_slice(&[
        number::<4>(bytes, at + 6),
        number::<4>(bytes, at + 10),
        number::<2>(bytes, at + 14),
        number::<2>(bytes, at + 16),
    ]);
}

// The second pass: the numbers of the links of a file that the first pass accepts, four a link. The lent numbers are those of these links alone.
fn take(bytes: &[u8], numbers: &mut [u32])
    requires { 18 * count numbers.old + 18 ≤ length bytes.now }
    ensures { Put numbers.old 0 (numbers_of bytes.now (count numbers.old)) numbers.new }
{
    for k in 0..numbers.len() / 4 {
        take_link(bytes, k, numbers);
    }
}

// Reads a link file into the lent numbers: the gauge count and the count of links, or the first of reasons 20 to 25 that holds, with its offset.
pub fn read(bytes: &[u8], numbers: &mut [u32]) -> Result<Counts, Refusal>
    ensures { Reads bytes.now numbers.old numbers.new result }
{
    let counts = survey(bytes, numbers.len() / 4)?;
    take(bytes, &mut numbers[..4 * counts.links]);
    Ok(counts)
}

// Puts the length and the kind of a record at a place.
fn put_head(bytes: &mut [u8], at: usize, kind: Kind)
    requires { at + 6 ≤ length bytes.old }
    ensures { Put bytes.old at (head_of (kind_number kind)) bytes.new }
{
    put::<4>(bytes, at, kind.length());
    put::<2>(bytes, at + 4, u32::from(kind));
}

// Puts the record of link i at its place.
fn put_link(numbers: &[u32], i: usize, bytes: &mut [u8])
    requires { (i < count numbers.now) × (18 * i + 26 ≤ length bytes.old) }
    ensures { Put bytes.old (8 + 18 * i) (link_record numbers.now i) bytes.new }
{
    let at = 8 + 18 * i;
    put_head(bytes, at, Kind::Link);
    put::<4>(bytes, at + 6, numbers[4 * i]);
    put::<4>(bytes, at + 10, numbers[4 * i + 1]);
    put::<2>(bytes, at + 14, numbers[4 * i + 2]);
    put::<2>(bytes, at + 16, numbers[4 * i + 3]);
}

// Puts the records of the links behind the opening record.
fn put_links(numbers: &[u32], bytes: &mut [u8])
    requires { 18 * count numbers.now + 8 ≤ length bytes.old }
    ensures { Put bytes.old 8 (link_records numbers.now (count numbers.now)) bytes.new }
{
    for i in 0..numbers.len() / 4 {
        put_link(numbers, i, bytes);
    }
}

// Puts the file of a table, all of it.
fn put_file(numbers: &[u32], gauges: u32, bytes: &mut [u8])
    requires { (count numbers.now ≤ 2048) × (18 * count numbers.now + 18 ≤ length bytes.old) }
    ensures { Put bytes.old 0 (file_of numbers.now gauges) bytes.new }
{
    let links = numbers.len() / 4;
    put_head(bytes, 0, Kind::Opening);
    put::<2>(bytes, 6, gauges);
    put_links(numbers, bytes);
    let at = 8 + 18 * links;
    put_head(bytes, at, Kind::Closing);
    put::<4>(bytes, at + 6, links as u32);
}

// Writes the link file of a table into the lent bytes: its length, or the first of reasons 1 to 8 and 26 that holds, with its place.
pub fn write(numbers: &[u32], gauges: u32, bytes: &mut [u8]) -> Result<usize, Refusal>
    ensures { Writes numbers.now gauges bytes.old bytes.new result }
{
    links::check(numbers, gauges)?;
    let links = numbers.len() / 4;
    let size = 18 * links + 18;
    if bytes.len() < size {
        return Err(Reason::TooFewBytes.at(0));
    }
    put_file(numbers, gauges, bytes);
    Ok(size)
}
