// The line of a row of a list.
ghost use Rattle.std.specs.Prelude.{◌≡◌, length};
ghost use Rattle.lines.specs.Text.{row_of, row_at};

use crate::piece::Piece;
use crate::write::{Writer, decimal_length, gauges_length};

// A group: its begin, its end and its gauges.
#[derive(Clone, Copy)]
pub(crate) struct Row {
    pub(crate) begin: u64,
    pub(crate) end: u64,
    pub(crate) members: u64,
}

impl Row {
    #[tactic(auto, using(crate::proofs::LineSizes::row_size))]
    pub(crate) fn length(&self) -> usize
        ensures { result ≡ length (row_of self.now.begin self.now.end self.now.members) }
    {
        let span = decimal_length(self.begin) + 1 + decimal_length(self.end);
        span + 1 + gauges_length(self.members) + 1
    }
}

// The three numbers of a row in a list.
impl From<[u64; 3]> for Row {
    ghost from_gives = { λ numbers row. row_of row.begin row.end row.members ≡ row_at numbers 0 };

    fn from(numbers: [u64; 3]) -> Row {
        let [begin, end, members] = numbers;
        Row {
            begin,
            end,
            members,
        }
    }
}

impl Piece for Row {
    ghost text = { λ r. row_of r.begin r.end r.members };

    fn fits(&self, room: usize) -> bool {
        self.length() <= room
    }

    #[tactic(auto, using(crate::proofs::LineSizes::row_size))]
    fn put(&self, to: &mut Writer) {
        to.decimal(self.begin);
        to.byte(b' ');
        to.decimal(self.end);
        to.byte(b' ');
        to.gauges(self.members);
        to.byte(b'\n');
    }
}
