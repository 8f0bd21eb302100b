// A settled board: no trial stands.
ghost use Rattle.std.specs.Prelude.{◌≡◌};
ghost use Rattle.board.specs.Past.{Past.New, Phase.Outside, Taken.Begins, leaves, called, CarriesOn};
ghost use Rattle.board.specs.Views.{settled_view, trial_view};

use crate::calls::Calls;
use crate::trial::Trial;
use arrayvec::ArrayVec;
use refusal::Refusal;
use sheet::{Edit, Sheet};

#[derive(Drop)]
pub struct Settled {
    pub(crate) sheet: Sheet,
}

impl Settled {
    // A new board: empty rows, closed slots. Every past begins with it.
    pub fn new() -> Settled
        ensures { settled_view result ≡ leaves New }
    {
        Settled {
            sheet: Sheet::new(),
        }
    }

    // Begins a trial. There is no settled board to call while it stands.
    pub fn begin(self) -> Trial
        ensures left { trial_view result ≡ called Begins (settled_view self) }
        ensures past { CarriesOn Begins (settled_view self) (trial_view result) }
    {
        Trial {
            sheet: self.sheet,
            journal: ArrayVec::new(),
        }
    }
}

impl Calls for Settled {
    ghost phase = { λ _. Outside };

    ghost view = { settled_view };

    fn edit(&mut self, edit: Edit) -> Result<(), Refusal> {
        self.sheet.apply(edit)
    }

    fn sheet(&self) -> &Sheet {
        &self.sheet
    }
}
