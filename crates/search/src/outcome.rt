// What a search came to.
#[derive(Clone, Copy)]
pub struct Outcome {
    // the visited part-plans
    pub steps: u64,
    // the times that a plan became the best
    pub betterings: u64,
    // the slots of the best plan so far, case by case
    pub best: Option<[usize; 16]>,
    // the step limit ended the search before it was through
    pub stopped: bool,
}
