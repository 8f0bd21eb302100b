// Every pruner and some piles on small boards, with the plain tariff.
use crate::distinct::Distinct;
use crate::sum::Sum;
use planning::{Pile, Pruner, WorkingSheet, ask};
use sheet::Sheet;
use tariff::Plain;

// A sheet with these cases (need, allowed set) from row 0 on, and these slots (slot, price) open.
fn board(cases: &[(u64, u64)], prices: &[(usize, i64)]) -> WorkingSheet {
    let mut sheet = Sheet::new();
    for (slot, price) in prices {
        let _ = sheet.price(*slot, *price);
    }
    for (row, (need, allowed)) in cases.iter().enumerate() {
        let _ = sheet.enter(row, *need, *allowed);
    }
    WorkingSheet::new(&sheet)
}

fn dies<P: Pruner>(pruner: &P, ceiling: i64, work: &WorkingSheet) -> bool {
    ask(pruner, &Plain, ceiling, work).is_none()
}

fn gives<P: Pruner>(pruner: &P, ceiling: i64, work: &WorkingSheet, sets: &[u64]) -> bool {
    ask(pruner, &Plain, ceiling, work).is_some_and(|next| &next[..work.count] == sets)
}

#[test]
fn distinct_strikes_what_one_case_needs(rt: HostRuntime) {
    let prices = [(0, 10), (1, -4), (2, 4)];
    assert!(rt; gives(&Distinct, 0, &board(&[(2, 1), (3, 7)], &prices), &[1, 6]));
    assert!(rt; gives(&Distinct, 0, &board(&[(2, 3), (3, 3)], &prices), &[3, 3]));
    assert!(rt;
        gives(
            &Distinct,
            0,
            &board(&[(2, 1), (3, 3), (1, 7)], &prices),
            &[1, 2, 6],
        )
    );
    assert!(rt; dies(&Distinct, 0, &board(&[(2, 1), (3, 1)], &prices)));
}

#[test]
fn distinct_at_the_edges(rt: HostRuntime) {
    let prices = [(0, 10), (63, 0)];
    assert!(rt; gives(&Distinct, 0, &board(&[], &prices), &[]));
    assert!(rt; dies(&Distinct, 0, &board(&[(2, 2)], &prices)));
    assert!(rt;
        gives(
            &Distinct,
            0,
            &board(&[(1, u64::MAX), (1, 1 << 63)], &prices),
            &[1, 1 << 63],
        )
    );
    assert!(rt;
        dies(
            &Distinct,
            0,
            &board(&[(1, 3), (1, 7)], &prices).narrowed(1, 0),
        )
    );
}

#[test]
fn piles_go_on_from_the_first(rt: HostRuntime) {
    let prices = [(0, 10), (1, -4), (2, 4)];
    let twice = Pile {
        first: Distinct,
        second: Distinct,
    };
    assert!(rt;
        gives(
            &twice,
            0,
            &board(&[(2, 1), (3, 3), (1, 7)], &prices),
            &[1, 2, 4],
        )
    );
    let thrice = Pile {
        first: twice,
        second: Distinct,
    };
    assert!(rt;
        gives(
            &thrice,
            0,
            &board(&[(2, 1), (3, 3), (1, 7)], &prices),
            &[1, 2, 4],
        )
    );
    assert!(rt; dies(&thrice, 0, &board(&[(2, 1), (3, 3), (1, 3)], &prices)));
}

// Needs 2 and 3, slots 0 and 1 at 10 and 4: the least charges are 8 and 12.
#[test]
fn sum_strikes_above_the_ceiling(rt: HostRuntime) {
    let work = board(&[(2, 3), (3, 3)], &[(0, 10), (1, 4)]);
    assert!(rt; gives(&Sum, 38, &work, &[3, 3]) && gives(&Sum, 37, &work, &[3, 2]));
    assert!(rt; gives(&Sum, 32, &work, &[3, 2]) && gives(&Sum, 31, &work, &[2, 2]));
    assert!(rt; gives(&Sum, 20, &work, &[2, 2]) && dies(&Sum, 19, &work));
    assert!(rt; gives(&Sum, i64::MAX, &work, &[3, 3]) && dies(&Sum, i64::MIN, &work));
    assert!(rt; dies(&Sum, i64::MAX, &work.narrowed(1, 0)));
}

#[test]
fn sum_with_equal_and_negative_charges(rt: HostRuntime) {
    let equal = board(&[(1, 3), (1, 3)], &[(0, 3), (1, 3)]);
    assert!(rt; gives(&Sum, 6, &equal, &[3, 3]) && dies(&Sum, 5, &equal));
    let signed = board(&[(2, 3)], &[(0, -5), (1, 5)]);
    assert!(rt; gives(&Sum, 10, &signed, &[3]) && gives(&Sum, 9, &signed, &[1]));
    assert!(rt; gives(&Sum, -10, &signed, &[1]) && dies(&Sum, -11, &signed));
    let none = board(&[], &[(0, 3)]);
    assert!(rt; gives(&Sum, 0, &none, &[]) && dies(&Sum, -1, &none));
}

#[test]
fn piles_of_both(rt: HostRuntime) {
    let work = board(&[(2, 3), (3, 3)], &[(0, 10), (1, 4)]);
    assert!(rt;
        gives(
            &Pile {
                first: Distinct,
                second: Sum,
            },
            31,
            &work,
            &[2, 2],
        )
    );
    assert!(rt;
        dies(
            &Pile {
                first: Sum,
                second: Distinct,
            },
            31,
            &work,
        )
    );
    assert!(rt;
        gives(
            &Pile {
                first: Sum,
                second: Distinct,
            },
            32,
            &work,
            &[1, 2],
        )
    );
}
