ghost use Rattle.std.specs.Prelude.{◌≡◌, ◌<◌};
ghost use Rattle.search.specs.Frames.{after_slot};

// An open decision: a part-plan that was asked and not left.
#[derive(Clone, Copy)]
pub struct Decision {
    // how many saved entries there were before the part-plan was entered
    pub mark: usize,
    // the lowest slot that is not tried yet for its next case
    pub next: usize,
}

impl Decision {
    // The decision once a slot is tried.
    pub(crate) fn tried(self, slot: usize) -> Decision
        requires { slot < 64 }
        ensures { result ≡ after_slot self slot }
    {
        Decision {
            mark: self.mark,
            next: slot + 1,
        }
    }
}
