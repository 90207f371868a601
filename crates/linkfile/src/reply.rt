// What the reader answers of a file that it accepts: the gauge count, and the count of links.
#[derive(Clone, Copy, Debug, PartialEq, Eq)]
pub struct Counts {
    pub gauges: u32,
    pub links: usize,
}
