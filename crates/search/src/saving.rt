// A saved entry: a row of the working sheet, and its set before a change.
#[derive(Clone, Copy)]
pub struct Saved {
    pub row: usize,
    pub slots: u64,
}
