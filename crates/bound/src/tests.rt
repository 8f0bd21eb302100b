// Bound on the boards that were worked out by hand, with the plain tariff.
use crate::Bound;
use planning::{WorkingSheet, ask};
use sheet::Sheet;
use tariff::Plain;

// Slots 2, 4, 6, 7, 8 and 9.
const SIX: u64 = 0x3d4;

// Nine cases: three with one slot each, six that share six slots.
fn nine() -> WorkingSheet {
    let mut sheet = Sheet::new();
    for price in [
        (1, 20),
        (2, 5),
        (3, 15),
        (4, 25),
        (5, 15),
        (6, 10),
        (7, 5),
        (8, 15),
        (9, 10),
    ] {
        let _ = sheet.price(price.0, price.1);
    }
    for case in [
        (0, 2, 2),
        (1, 4, 8),
        (2, 3, 32),
        (3, 2, SIX),
        (4, 3, SIX),
        (5, 4, SIX),
        (6, 3, SIX),
        (7, 5, SIX),
        (8, 6, SIX),
    ] {
        let _ = sheet.enter(case.0, case.1, case.2);
    }
    WorkingSheet::new(&sheet)
}

// The new set of a case, and the empty set where the pruner is dead.
fn new_set(work: &WorkingSheet, ceiling: i64, case: usize) -> u64 {
    match ask(&Bound, &Plain, ceiling, work) {
        Some(sets) if case < 16 => sets[case],
        _ => 0,
    }
}

#[test]
fn nine_cases(rt: HostRuntime) {
    let work = nine();
    assert!(rt; work.count == 9 && ask(&Bound, &Plain, 364, &work).is_none());
    assert!(rt; ask(&Bound, &Plain, 365, &work).is_some());
    assert!(rt; new_set(&work, 389, 5) & 16 == 0 && new_set(&work, 390, 5) & 16 == 16);
    assert!(rt; new_set(&work, 394, 3) & 4 == 0 && new_set(&work, 395, 3) & 4 == 4);
    assert!(rt; new_set(&work, 365, 0) == 2 && new_set(&work, i64::MAX, 8) == SIX);
}

// Needs 3 and 2, slots 0, 1, 2 at 1, 2, 4: the bound is 7, and 14 with row 0 in slot 2.
#[test]
fn two_cases_and_three_slots(rt: HostRuntime) {
    let mut sheet = Sheet::new();
    for price in [(0, 1), (1, 2), (2, 4)] {
        let _ = sheet.price(price.0, price.1);
    }
    let _ = sheet.enter(0, 3, 7);
    let _ = sheet.enter(1, 2, 7);
    let work = WorkingSheet::new(&sheet);
    assert!(rt; ask(&Bound, &Plain, 6, &work).is_none() && ask(&Bound, &Plain, 7, &work).is_some());
    assert!(rt; new_set(&work, 13, 0) & 4 == 0 && new_set(&work, 14, 0) & 4 == 4);
    assert!(rt; ask(&Bound, &Plain, 100, &work.narrowed(0, 0)).is_none());
}

// No case: the bound is 0.
#[test]
fn no_case(rt: HostRuntime) {
    let work = WorkingSheet::new(&Sheet::new());
    assert!(rt;
        ask(&Bound, &Plain, 0, &work).is_some() && ask(&Bound, &Plain, -1, &work).is_none()
    );
}
