ghost use Rattle.std.specs.Prelude.{◌≤◌};
ghost use Rattle.stack.specs.Entries.{held, room};
ghost use Rattle.search.specs.Saves.{Through, through_prop};

mod ops;

use crate::saving::Saved;
use planning::WorkingSheet;
use stack::Stack;

// The working sheet of a search, and the saved entries that put its sets back, the latest first.
#[derive(Drop)]
pub(crate) struct Trail<'a> {
    pub(crate) sheet: WorkingSheet,
    pub(crate) saved: Stack<'a, Saved>,
    ghost wide: { 1024 ≤ room saved },
    ghost through: { Through sheet.opened (held saved) sheet.sets } by { through_prop sheet.opened (held saved) sheet.sets },
}
