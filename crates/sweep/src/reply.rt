// What the lister answers where there is no list.

// Why there is none: the numbers are no table of spans, or it has more groups than whole rows were lent.
#[derive(Clone, Copy, Debug, PartialEq, Eq)]
pub enum Unlisted {
    NotSpans,
    Full,
}
