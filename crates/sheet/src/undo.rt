// What undoes one accepted edit: the row or the slot that it changed, and what that held before.
ghost use Rattle.std.specs.Prelude.{◌≡◌, None};
ghost use Rattle.sheet.specs.declared.undo.Undo.TheVariants.{Row};

use crate::case::Case;
use crate::slot_price::SlotPrice;

#[derive(Clone, Copy)]
pub enum Undo {
    Row(usize, Option<Case>),
    Slot(usize, Option<SlotPrice>),
}

// A blank, for the places of a fixed list that hold no entry.
impl Default for Undo {
    ghost is_default = { λ u. u ≡ Row 0 None };

    fn default() -> Undo {
        Undo::Row(0, None)
    }
}
