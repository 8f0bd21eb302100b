ghost use Rattle.std.specs.Prelude.{◌≤◌};
ghost use Rattle.stack.specs.Entries.{room};

mod ops;

use crate::deciding::Decision;
use crate::tally::Tally;
use crate::trail::Trail;
use stack::Stack;

// Where a search stands.
#[derive(Drop)]
pub(crate) struct Exploration<'a> {
    // the step limit
    pub(crate) limit: u64,
    pub(crate) trail: Trail<'a>,
    // the part-plans that were asked and not left, the latest first
    pub(crate) decisions: Stack<'a, Decision>,
    // the slots of the visited part-plan, in its first places
    pub(crate) plan: [usize; 16],
    pub(crate) tally: Tally,
    ghost limited: { tally.steps ≤ limit },
    ghost stepwise: { tally.betterings ≤ tally.steps },
    ghost wide: { 16 ≤ room decisions },
    ghost under: { decisions.height ≤ trail.sheet.count },
}
