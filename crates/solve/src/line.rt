// A line of a plan: the row of a case, the slot that it is given, and its charge there.
#[derive(Clone, Copy, PartialEq, Eq, Debug)]
pub struct Line {
    pub row: usize,
    pub slot: usize,
    pub charge: i64,
}
