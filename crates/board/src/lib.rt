// The board: a sheet that is settled or on trial, and all the calls that it takes.
// Every call of a past promises its exact answer, and that it carries any past of the board on:
// whatever calls left the board as it is at entry, those and this call leave it as it is at exit.
#![tactic(auto)]

mod calls;
mod log;
mod settled;
mod trial;

pub use calls::Calls;
pub use log::{Board, Call, Reply};
pub use settled::Settled;
pub use trial::Trial;
