// The line of a refusal.
ghost use Rattle.std.specs.Prelude.{◌≡◌, length};
ghost use Rattle.lines.specs.Text.{refusal_of};

use crate::piece::Piece;
use crate::write::{Writer, decimal_length};

// The reason of a refusal, and its place.
#[derive(Clone, Copy)]
pub(crate) struct Refusal {
    pub(crate) reason: u32,
    pub(crate) place: u64,
}

impl Refusal {
    #[tactic(auto, using(crate::proofs::LineSizes::refusal_size))]
    fn length(&self) -> usize
        ensures { result ≡ length (refusal_of self.now.reason self.now.place) }
    {
        8 + decimal_length(self.reason as u64) + 1 + decimal_length(self.place) + 1
    }
}

impl Piece for Refusal {
    ghost text = { λ r. refusal_of r.reason r.place };

    fn fits(&self, room: usize) -> bool {
        self.length() <= room
    }

    #[tactic(auto, using(crate::proofs::LineSizes::refusal_size))]
    fn put(&self, to: &mut Writer) {
        to.word(b"refused ");
        to.decimal(self.reason as u64);
        to.byte(b' ');
        to.decimal(self.place);
        to.byte(b'\n');
    }
}
