ghost use Rattle.std.specs.Prelude.{◌≡◌, ◌≤◌, length};
ghost use Rattle.planning.specs.Invariants.{Open, PricedSlots, Needed};

mod ops;

// What a pruner is given: the standing cases in row order, each with its row, its need and a working set,
// and the prices. A working set is a part of the case's usable set. The first `count` places are taken.
#[derive(Clone, Copy)]
pub struct WorkingSheet {
    pub count: usize,
    pub rows: [usize; 16],
    pub needs: [u64; 16],
    pub sets: [u64; 16],
    pub prices: [i64; 64],
    // the slots that are open
    pub opened: u64,
    ghost places: { length needs ≡ 16 },
    ghost sized: { length sets ≡ 16 },
    ghost few: { count ≤ 16 },
    ghost needed: { Needed count needs },
    ghost priced: { PricedSlots opened prices },
    // no working set holds a closed slot, so that no pruner tests for a missing price
    ghost usable: { Open opened sets },
}
