// What there is to say of a table: the members of its smallest ring from the lowest on, or without a ring the rank of
// each channel. No Result: neither of the two is a failure.
#[derive(Debug, PartialEq, Eq, Drop)]
pub enum Verdict {
    Ring(Vec<u16>),
    Ranks(Vec<u16>),
}
