// The ceiling of a search, and a guard that puts it back.
#![tactic(auto)]

ghost use Rattle.std.specs.Prelude.{◌≡◌};

// The ceiling record: the one number that a plan's total must not exceed.
#[derive(Clone, Copy)]
pub struct Ceiling {
    pub value: i64,
}

// A search may tighten the ceiling through this guard. When the guard is dropped the record reads as it did at entry.
pub struct CeilingGuard<'a> {
    held: &'a mut Ceiling,
    // the value at entry
    entry: i64,
}

impl<'a> CeilingGuard<'a> {
    pub fn over(lent: &'a mut Ceiling) -> CeilingGuard<'a>
        ensures value { result.held.now ≡ lent.old }
        ensures entry { result.entry ≡ lent.old.value }
        ensures name { result.held.ghost_name ≡ lent.entry.ghost_name }
    {
        let entry = lent.value;
        CeilingGuard { held: lent, entry }
    }

    // Sets the ceiling, and keeps what it will be put back to.
    pub fn tighten(&mut self, to: i64)
        ensures value { self.new.held.now.value ≡ to }
        ensures entry { self.new.entry ≡ self.old.entry }
        ensures name { self.new.held.ghost_name ≡ self.old.held.ghost_name }
    {
        self.held.value = to;
    }

    pub fn value(&self) -> i64
        ensures { result ≡ self.now.held.now.value }
    {
        self.held.value
    }
}

impl Drop for CeilingGuard<'_> {
    fn drop(self)
        ensures { self.exit.0.now.value ≡ self.exit.1.0 }
    {
        self.held.value = self.entry;
        let CeilingGuard { held: _, entry: _ } = self;
    }
}
