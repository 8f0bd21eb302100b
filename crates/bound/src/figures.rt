ghost use Rattle.std.specs.Prelude.{◌≤◌};
ghost use Rattle.tariff.specs.Charges.{Within};
ghost use Rattle.bound.specs.Tables.{AllSmall};

// What the bound under each choice of a slot for a free case is worked out from. Ranks count from 0.
#[derive(Clone, Copy)]
pub(crate) struct Figures {
    // how many cases are free
    pub(crate) cases: usize,
    // the charges of the fixed cases
    pub(crate) fixed: i64,
    // running sums: each free case in the slot of its own rank, the next case in that slot, and each case in the next slot
    pub(crate) level: [i64; 17],
    pub(crate) lower: [i64; 17],
    pub(crate) upper: [i64; 17],
    // how many free cases stand before each case, and how many of their slots before each slot
    pub(crate) ranks: [usize; 16],
    pub(crate) slots: [usize; 64],
    ghost few: { cases ≤ 16 },
    // small enough that no sum of them wraps
    ghost small_fixed: { Within 16000000000000 fixed },
    ghost small_level: { AllSmall level },
    ghost small_lower: { AllSmall lower },
    ghost small_upper: { AllSmall upper },
}
