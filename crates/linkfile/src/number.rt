// Numbers of W bytes, lowest byte first.
ghost use Rattle.std.specs.Prelude.{◌+◌, ◌≤◌, length};
ghost use Rattle.linkfile.specs.Numbers.{bytes_of};
ghost use Rattle.linkfile.specs.Steps.{Number, Put};

// The number of the W bytes from a place.
pub(crate) fn number<const W: usize>(bytes: &[u8], at: usize) -> u32
    requires fits { W ≤ 4 }
    requires inside { at + W ≤ length bytes.now }
    ensures { Number W bytes.now at result }
{
    let mut four = [0; 4];
    four[..W].copy_from_slice(&bytes[at..at + W]);
    u32::from_le_bytes(four)
}

// Puts the W lowest bytes of a number at a place.
pub(crate) fn put<const W: usize>(bytes: &mut [u8], at: usize, n: u32)
    requires fits { W ≤ 4 }
    requires inside { at + W ≤ length bytes.old }
    ensures { Put bytes.old at (bytes_of W n) bytes.new }
{
    bytes[at..at + W].copy_from_slice(&n.to_le_bytes()[..W]);
}
