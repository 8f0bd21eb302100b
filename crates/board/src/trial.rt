// A board on trial: a settled board's sheet with the memory of the edits made since.
ghost use Rattle.std.specs.Prelude.{◌≡◌};
ghost use Rattle.sheet.specs.Edits.{answer};
ghost use Rattle.board.specs.Past.{Phase.Inside, Taken.Edits, Taken.Keeps, Taken.Reverts, Taken.TakesBack, called, edit_refusal, back_refusal, CarriesOn};
ghost use Rattle.board.specs.Views.{settled_view, trial_view};

use crate::calls::Calls;
use crate::settled::Settled;
use arrayvec::ArrayVec;
use refusal::Refusal;
use sheet::{Edit, Sheet, Undo};

// A trial: edits that can be taken back one by one, kept together or reverted together.
// It is not `Drop`: a trial cannot be forgotten, only kept or reverted.
pub struct Trial {
    pub(crate) sheet: Sheet,
    // what undoes each remembered edit, in the order in which they were made
    pub(crate) journal: ArrayVec<Undo, 64>,
}

impl Trial {
    // Undoes the latest remembered edit, and forgets it.
    pub fn take_back(&mut self) -> Result<(), Refusal>
        ensures said { result ≡ answer (back_refusal (trial_view self.old).older) }
        ensures left { trial_view self.new ≡ called TakesBack (trial_view self.old) }
        ensures past { CarriesOn TakesBack (trial_view self.old) (trial_view self.new) }
    {
        let Some(latest) = self.journal.pop() else {
            return Err(Refusal::NothingToTakeBack);
        };
        self.sheet.undo(latest);
        Ok(())
    }

    // Ends the trial, and goes on with the sheet as it is.
    pub fn keep(self) -> Settled
        ensures left { settled_view result ≡ called Keeps (trial_view self) }
        ensures past { CarriesOn Keeps (trial_view self) (settled_view result) }
    {
        let Trial { sheet, journal: _ } = self;
        Settled { sheet }
    }

    // Ends the trial, and goes on with the sheet as it was when the trial began.
    pub fn revert(self) -> Settled
        ensures left { settled_view result ≡ called Reverts (trial_view self) }
        ensures past { CarriesOn Reverts (trial_view self) (settled_view result) }
    {
        let Trial {
            mut sheet,
            mut journal,
        } = self;
        while let Some(entry) = journal.pop() {
            sheet.undo(entry);
        }
        Settled { sheet }
    }
}

impl Calls for Trial {
    ghost phase = { λ _. Inside };

    ghost view = { trial_view };

    // Makes the edit and remembers it, unless it is refused. Where the journal has no room,
    // the edit is undone again, so that a full trial is the last of the checks.
    #[tactic(auto, using(crate::proofs::Remembering::remembering))]
    fn edit(&mut self, edit: Edit) -> Result<(), Refusal> {
        let undo = self.sheet.undo_of(edit);
        self.sheet.apply(edit)?;
        if let Err(full) = self.journal.try_push(undo) {
            self.sheet.undo(full.element());
            return Err(Refusal::TrialFull);
        }
        Ok(())
    }

    fn sheet(&self) -> &Sheet {
        &self.sheet
    }
}
