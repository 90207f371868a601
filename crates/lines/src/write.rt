// Pieces of text: how long they are, and putting them one behind the other into lent bytes.
ghost use Rattle.std.specs.Prelude.{◌≡◌, [], ◌∷◌, ◌+◌, ◌-◌, ◌≤◌, ◌<◌, length};
ghost use Rattle.lines.specs.Text.{decimal, gauges_text};
ghost use Rattle.lines.specs.Pieces.{Adds, Counts, more};

use gauges::has;

// The gauges are numbered below this: a set has a bit for each.
const GAUGES: u32 = u64::BITS;

// How many digits n has.
pub(crate) fn decimal_length(n: u64) -> usize
    ensures { Counts (decimal n) 20 result }
{
    n.checked_ilog10().unwrap_or(0) as usize + 1
}

// The length of the gauges' text with gauge k, if it is `len` without.
fn gauge_length(members: u64, k: u32, len: usize) -> usize
    requires { len ≤ 1000 }
    ensures { result ≡ len + length (more members k len) }
{
    if has(members, k) {
        let digits = decimal_length(k as u64);
        if len == 0 { digits } else { len + 1 + digits }
    } else {
        len
    }
}

// How long the text of these gauges is.
pub(crate) fn gauges_length(members: u64) -> usize
    ensures { Counts (gauges_text members) 192 result }
{
    let mut len = 0;
    for k in 0..GAUGES {
        len = gauge_length(members, k, len);
    }
    len
}

// Lent bytes, and the place where the next piece of text goes.
#[derive(Drop)]
pub(crate) struct Writer<'a> {
    pub(crate) out: &'a mut [u8],
    pub(crate) at: usize,
}

impl Writer<'_> {
    // Puts one byte.
    pub(crate) fn byte(&mut self, b: u8)
        requires { self.old.at < length self.old.out.now }
        ensures { Adds (b ∷ []) self.old self.new }
    {
        self.out[self.at] = b;
        self.at += 1;
    }

    // Puts a text.
    pub(crate) fn word(&mut self, text: &[u8])
        requires { self.old.at + length text.now ≤ length self.old.out.now }
        ensures { Adds text.now self.old self.new }
    {
        let end = self.at + text.len();
        self.out[self.at..end].copy_from_slice(text);
        self.at = end;
    }

    // Puts n in decimal, from its last digit to its first.
    pub(crate) fn decimal(&mut self, n: u64)
        requires { self.old.at + length (decimal n) ≤ length self.old.out.now }
        ensures { Adds (decimal n) self.old self.new }
    {
        let end = self.at + decimal_length(n);
        let mut rest = n;
        for place in (self.at..end).rev() {
            self.out[place] = b'0' + (rest % 10) as u8;
            rest /= 10;
        }
        self.at = end;
    }

    // Puts gauge k, if it is one of the members, behind the gauges below it, whose text begins at `from`.
    fn gauge(&mut self, members: u64, k: u32, from: usize)
        requires { (from ≤ self.old.at) × (self.old.at + length (more members k (self.old.at - from)) ≤ length self.old.out.now) }
        ensures { Adds (more members k (self.old.at - from)) self.old self.new }
    {
        if has(members, k) {
            if from != self.at {
                self.byte(b',');
            }
            self.decimal(k as u64);
        }
    }

    // Puts the gauges, parted by commas.
    pub(crate) fn gauges(&mut self, members: u64)
        requires { self.old.at + length (gauges_text members) ≤ length self.old.out.now }
        ensures { Adds (gauges_text members) self.old self.new }
    {
        let from = self.at;
        for k in 0..GAUGES {
            self.gauge(members, k, from);
        }
    }
}
