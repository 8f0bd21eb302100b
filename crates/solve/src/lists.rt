use crate::line::Line;
use search::{Decision, Saved};

// The lists that a solve is lent: one for the lines of its plan, and two that it works in.
#[derive(Drop)]
pub struct Lists<'a> {
    pub plan: &'a mut [Line],
    pub saved: &'a mut [Saved],
    pub decisions: &'a mut [Decision],
}
