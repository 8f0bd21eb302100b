// What a solve answers where it is not refused.

// The best plan of a solve, whose lines stand in the plan list: its total, how many part-plans were visited, and how
// often a cheaper plan was found.
#[derive(Clone, Copy, PartialEq, Eq, Debug)]
pub struct Best {
    pub total: i64,
    pub steps: u64,
    pub betterings: u64,
}

#[derive(Clone, Copy, PartialEq, Eq, Debug)]
pub enum Answer {
    // the search ended by itself: this is the cheapest plan
    Cheapest(Best),
    // the step limit stopped the search: this is the best plan so far
    Stopped(Best),
    // the step limit stopped the search before it met a plan, after so many steps
    StoppedEmpty(u64),
}
