ghost use Rattle.std.specs.Prelude.{◌≡◌, ℕ, ◌+◌, ◌<◌, ◌≤◌, [], ◌∷◌, ◌++◌, map, take, pos, bit_and, slice_index, slice_set};
ghost use Rattle.std.specs.Option.{option_map, unwrap_or};
ghost use Rattle.slot_set.specs.Sets.{has, keep};
ghost use Rattle.sheet.specs.Contents.{contents, entry, amount, is_open};
ghost use Rattle.planning.specs.Invariants.{Open};
ghost use Rattle.planning.specs.Standing.{standing_from, placed, rows_of, needs_of, usable_sets, prices_of};
ghost use Rattle.planning.specs.Working.{sets_in};

use crate::working_sheet::WorkingSheet;
use sheet::{Case, Sheet, SlotPrice};

impl WorkingSheet {
    // The standing cases of a sheet, each with its usable set.
    pub fn new(sheet: &Sheet) -> WorkingSheet
        ensures rows { take result.count result.rows ≡ rows_of (contents sheet.now) }
        ensures needs { take result.count result.needs ≡ needs_of (contents sheet.now) }
        ensures sets { sets_in result ≡ usable_sets (contents sheet.now) }
        ensures prices { result.prices ≡ prices_of (contents sheet.now) }
        ensures opened { (slot : ℕ) → has result.opened slot ≡ is_open (contents sheet.now) slot }
    {
        without_cases(sheet).with_rows(sheet.rows())
    }

    // The rows of the standing cases.
    pub fn rows(&self) -> &[usize]
        ensures { result.now ≡ take self.now.count self.now.rows }
    {
        &self.rows[..self.count]
    }

    // Their needs.
    pub fn needs(&self) -> &[u64]
        ensures { result.now ≡ take self.now.count self.now.needs }
    {
        &self.needs[..self.count]
    }

    // Their working sets.
    pub fn sets(&self) -> &[u64]
        ensures { result.now ≡ sets_in self.now }
    {
        &self.sets[..self.count]
    }

    // One working set narrowed to a part of it: to what it has in common with a word. The others stay.
    #[tactic(auto, using(crate::proofs::WorkingTables::open_narrowed))]
    pub fn narrowed(self, case: usize, word: u64) -> WorkingSheet
        ensures sets { result.sets ≡ slice_set self.sets case (bit_and (slice_index self.sets case) word) }
        ensures rows { result.rows ≡ self.rows }
        ensures needs { result.needs ≡ self.needs }
        ensures prices { result.prices ≡ self.prices }
        ensures count { result.count ≡ self.count }
        ensures opened { result.opened ≡ self.opened }
    {
        self.with_sets(narrow_set(self.sets, case, word))
    }

    // The same cases with other sets, which hold no closed slot.
    pub(crate) fn with_sets(&self, sets: [u64; 16]) -> WorkingSheet
        requires { Open self.now.opened sets }
        ensures sets { result.sets ≡ sets }
        ensures count { result.count ≡ self.now.count }
        ensures needs { result.needs ≡ self.now.needs }
        ensures rows { result.rows ≡ self.now.rows }
        ensures prices { result.prices ≡ self.now.prices }
        ensures opened { result.opened ≡ self.now.opened }
    {
        WorkingSheet {
            count: self.count,
            rows: self.rows,
            needs: self.needs,
            sets,
            prices: self.prices,
            opened: self.opened,
        }
    }

    // All rows of a table, for a working sheet that has no case yet.
    fn with_rows(self, rows: &[Option<Case>; 16]) -> WorkingSheet
        requires { self.count ≡ 0 }
        ensures rows { take result.count result.rows ≡ map (λ c. c.row) (standing_from 0 (map (option_map entry) rows.now)) }
        ensures needs { take result.count result.needs ≡ map (λ c. c.entry.need) (standing_from 0 (map (option_map entry) rows.now)) }
        ensures sets { sets_in result ≡ map (λ c. keep (has self.opened) c.entry.allowed) (standing_from 0 (map (option_map entry) rows.now)) }
        ensures prices { result.prices ≡ self.prices }
        ensures opened { result.opened ≡ self.opened }
    {
        let mut work = self;
        for (row, case) in rows.iter().enumerate() {
            work = work.with_row(row, *case);
        }
        work
    }

    // One row more, whether it holds a case or not.
    fn with_row(self, row: usize, case: Option<Case>) -> WorkingSheet
        requires { self.count < 16 }
        ensures count { result.count ≤ self.count + 1 }
        ensures rows { take result.count result.rows ≡ take self.count self.rows ++ map (λ c. c.row) (placed row (option_map entry case)) }
        ensures needs { take result.count result.needs ≡ take self.count self.needs ++ map (λ c. c.entry.need) (placed row (option_map entry case)) }
        ensures sets { sets_in result ≡ sets_in self ++ map (λ c. keep (has self.opened) c.entry.allowed) (placed row (option_map entry case)) }
        ensures prices { result.prices ≡ self.prices }
        ensures opened { result.opened ≡ self.opened }
    {
        match case {
            Some(case) => self.with_case(row, case),
            None => self,
        }
    }

    // One standing case more, with its usable set.
    fn with_case(self, row: usize, case: Case) -> WorkingSheet
        requires { self.count < 16 }
        ensures count { result.count ≡ self.count + 1 }
        ensures rows { take result.count result.rows ≡ take self.count self.rows ++ (row ∷ []) }
        ensures needs { take result.count result.needs ≡ take self.count self.needs ++ ((entry case).need ∷ []) }
        ensures sets { sets_in result ≡ sets_in self ++ (keep (has self.opened) (entry case).allowed ∷ []) }
        ensures prices { result.prices ≡ self.prices }
        ensures opened { result.opened ≡ self.opened }
    {
        let WorkingSheet {
            count,
            mut rows,
            mut needs,
            mut sets,
            prices,
            opened,
        } = self;
        rows[count] = row;
        needs[count] = case.need();
        sets[count] = u64::from(case.allowed()) & opened;
        WorkingSheet {
            count: count + 1,
            rows,
            needs,
            sets,
            prices,
            opened,
        }
    }
}

#[tactic(auto, using(std::proofs::lemmas::List::set_past))]
fn narrow_set(mut sets: [u64; 16], case: usize, word: u64) -> [u64; 16]
    ensures { result ≡ slice_set sets case (bit_and (slice_index sets case) word) }
{
    if case < 16 {
        sets[case] &= word;
    }
    sets
}

// The slots and prices of a sheet, and no case yet.
fn without_cases(sheet: &Sheet) -> WorkingSheet
    ensures count { result.count ≡ 0 }
    ensures prices { result.prices ≡ prices_of (contents sheet.now) }
    ensures opened { (slot : ℕ) → has result.opened slot ≡ is_open (contents sheet.now) slot }
{
    let prices = prices_in(sheet.slots());
    let opened = sheet.open_slots().into();
    WorkingSheet {
        count: 0,
        rows: [0; 16],
        needs: [0; 16],
        sets: [0; 16],
        prices,
        opened,
    }
}

// The price of each slot, and 0 for a closed one.
fn prices_in(slots: &[Option<SlotPrice>; 64]) -> [i64; 64]
    ensures { result ≡ map (λ o. unwrap_or (option_map amount o) (pos 0)) slots.now }
{
    let mut prices = [0; 64];
    for (number, slot) in slots.iter().enumerate() {
        prices[number] = price_or_zero(*slot);
    }
    prices
}

fn price_or_zero(slot: Option<SlotPrice>) -> i64
    ensures { result ≡ unwrap_or (option_map amount slot) (pos 0) }
{
    slot.map_or(0, |price| price.amount())
}
