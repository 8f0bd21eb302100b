// The case of a row. Its ranges are facts of the type, so that no code after this tests for them.
ghost use Rattle.std.specs.Prelude.{◌<◌, ◌≤◌};

use slot_set::SlotSet;

mod ops;

// A case: how much power it needs, in tenths of a kilowatt-hour, and the slots that its family accepts.
#[derive(Clone, Copy)]
pub struct Case {
    need: u32,
    allowed: SlotSet,
    ghost needs_some: { 0 < need },
    ghost needs_at_most: { need ≤ 20000 },
    ghost allows_some: { 0 < allowed.word },
}
