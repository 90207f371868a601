// What is put whole or not at all: a line, or a whole list.
ghost use Rattle.std.specs.Prelude.{List, ℕ, ◌+◌, ◌≤◌, length};
ghost use Rattle.lines.specs.Replies.{Puts};
ghost use Rattle.lines.specs.Pieces.{Adds, Fits};

use crate::write::Writer;

// Something that has a text.
pub(crate) trait Piece {
    ghost text: { Self → List ℕ };

    // Whether the text fits into so many bytes.
    fn fits(&self, room: usize) -> bool
        ensures { Fits (text self.now) room result };

    // Puts the text, for which there is room.
    fn put(&self, to: &mut Writer)
        requires { to.old.at + length (text self.now) ≤ length to.old.out.now }
        ensures { Adds (text self.now) to.old to.new };
}

// Puts the text at `at` if it fits there. The answer is the place behind it.
pub(crate) fn put<P: Piece>(piece: &P, out: &mut [u8], at: usize) -> Option<usize>
    ensures { Puts (P.text piece.now) out.old at result out.new }
{
    let room = out.len().checked_sub(at)?;
    if !piece.fits(room) {
        return None;
    }
    let mut to = Writer { out, at };
    piece.put(&mut to);
    Some(to.at)
}
