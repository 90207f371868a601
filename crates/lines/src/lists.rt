// A whole list: the line above the rows, and the lines of all whole rows.
ghost use Rattle.std.specs.Prelude.{◌≡◌, ◌+◌, ◌/◌, ◌≤◌, length};
ghost use Rattle.lines.specs.Text.{rows_of, list_of};
ghost use Rattle.lines.specs.Pieces.{Adds, Fits};

use crate::headers::Header;
use crate::piece::Piece;
use crate::rows::Row;
use crate::write::Writer;

// The numbers of the rows, three a row.
#[derive(Clone, Copy)]
pub(crate) struct List<'a> {
    pub(crate) numbers: &'a [u64],
}

// Whether the lines of all whole rows fit into so many bytes. The bytes left are counted down, since a sum of the lengths might pass the largest number.
fn rows_fit(numbers: &[u64], room: usize) -> bool
    ensures { Fits (rows_of numbers.now (length numbers.now / 3)) room result }
{
    let (rows, _) = numbers.as_chunks::<3>();
    let mut left = room;
    for &row in rows {
        let size = Row::from(row).length();
        if left < size {
            return false;
        }
        left -= size;
    }
    true
}

// Puts the lines of all whole rows.
fn put_rows(numbers: &[u64], to: &mut Writer)
    requires { to.old.at + length (rows_of numbers.now (length numbers.now / 3)) ≤ length to.old.out.now }
    ensures { Adds (rows_of numbers.now (length numbers.now / 3)) to.old to.new }
{
    let (rows, _) = numbers.as_chunks::<3>();
    for &row in rows {
        Row::from(row).put(to);
    }
}

impl List<'_> {
    // The line above the rows.
    fn header(&self) -> Header
        ensures { result.count ≡ length self.now.numbers.now / 3 }
    {
        let count = (self.numbers.len() / 3) as u64;
        Header { count }
    }
}

impl Piece for List<'_> {
    ghost text = { λ l. list_of l.numbers.now };

    fn fits(&self, room: usize) -> bool {
        let first = self.header().length();
        first <= room && rows_fit(self.numbers, room - first)
    }

    fn put(&self, to: &mut Writer) {
        self.header().put(to);
        put_rows(self.numbers, to);
    }
}
