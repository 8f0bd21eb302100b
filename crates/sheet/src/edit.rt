// The five edits of a sheet, with their arguments as a caller wrote them.
#[derive(Clone, Copy, PartialEq, Eq, Debug)]
pub enum Edit {
    // put a case with this need and allowed set into an empty row
    Enter(usize, u64, u64),
    // empty a row
    Withdraw(usize),
    // replace the allowed set of the case in a row
    Allow(usize, u64),
    // open a slot at this price, or change its price
    Price(usize, i64),
    // close an open slot
    Close(usize),
}
