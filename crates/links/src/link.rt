// A link of a table: four of the lent numbers.
ghost use Rattle.std.specs.Prelude.{◌<◌};
ghost use Rattle.links.specs.Links.{count};
ghost use Rattle.links.specs.LinkAt.{IsLink};

// Gauges `one` and `other` rose together at every hour from begin to end.
#[derive(Clone, Copy, Debug, PartialEq, Eq)]
pub(crate) struct Link {
    pub begin: u32,
    pub end: u32,
    pub one: u32,
    pub other: u32,
}

// Link i of the table.
pub(crate) fn link_at(numbers: &[u32], i: usize) -> Link
    requires { i < count numbers.now }
    ensures { IsLink numbers.now i result }
{
    Link {
        begin: numbers[4 * i],
        end: numbers[4 * i + 1],
        one: numbers[4 * i + 2],
        other: numbers[4 * i + 3],
    }
}
