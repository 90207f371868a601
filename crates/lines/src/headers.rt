// The line above the rows of a list.
ghost use Rattle.std.specs.Prelude.{◌≡◌, length};
ghost use Rattle.lines.specs.Text.{header_of};

use crate::piece::Piece;
use crate::write::{Writer, decimal_length};

// How many rows there are.
#[derive(Clone, Copy)]
pub(crate) struct Header {
    pub(crate) count: u64,
}

impl Header {
    #[tactic(auto, using(crate::proofs::LineSizes::header_size))]
    pub(crate) fn length(&self) -> usize
        ensures { result ≡ length (header_of self.now.count) }
    {
        7 + decimal_length(self.count) + 1
    }
}

impl Piece for Header {
    ghost text = { λ h. header_of h.count };

    fn fits(&self, room: usize) -> bool {
        self.length() <= room
    }

    #[tactic(auto, using(crate::proofs::LineSizes::header_size))]
    fn put(&self, to: &mut Writer) {
        to.word(b"groups ");
        to.decimal(self.count);
        to.byte(b'\n');
    }
}
