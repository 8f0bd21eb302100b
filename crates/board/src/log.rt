// A board in either phase, one call of its log, and the replay of a whole log.
ghost use Rattle.std.specs.Prelude.{◌≡◌};
ghost use Rattle.board.specs.declared.log.Board.TheVariants.{Settled as BoardSettled, Trial as BoardTrial};
ghost use Rattle.board.specs.Past.{Phase.Outside, Phase.Inside, Past.New, Taken.Reverts, called};
ghost use Rattle.sheet.specs.Edits.{answer};
ghost use Rattle.board.specs.Log.{Story, stands, story, ends, told, history, said, outcome, owed, owed_in, performed, performed_in};
ghost use Rattle.board.specs.Views.{settled_view, trial_view};

use crate::calls::Calls;
use crate::settled::Settled;
use crate::trial::Trial;
use refusal::Refusal;
use sheet::{Case, Edit, Sheet, SlotPrice};

// One call of a past, with its arguments as a caller wrote them.
#[derive(Clone, Copy, PartialEq, Eq, Debug)]
pub enum Call {
    Make(Edit),
    // the case in a row
    AskCase(usize),
    // the price of a slot
    AskPrice(usize),
    Begin,
    Keep,
    Revert,
    TakeBack,
}

// What a board says to a call.
#[derive(Clone, Copy)]
pub enum Reply {
    Done,
    Refused(Refusal),
    Case(Option<Case>),
    Price(Option<SlotPrice>),
    // a trial stands from now on
    Begun,
    // the board is settled again
    Ended,
    // no call for the phase that the board is in; nothing is changed
    NotTaken,
}

// What a call that can be refused returned, as a reply.
impl From<Result<(), Refusal>> for Reply {
    ghost from_gives = { λ returned reply. (q : _) → returned ≡ answer q → said reply ≡ outcome q };

    fn from(returned: Result<(), Refusal>) -> Reply {
        match returned {
            Ok(()) => Reply::Done,
            Err(refusal) => Reply::Refused(refusal),
        }
    }
}

// A board in either phase.
pub enum Board {
    Settled(Settled),
    Trial(Trial),
}

impl Board {
    // A new board, which is settled.
    pub fn new() -> Board
        ensures { stands result ≡ ends (story New) }
    {
        Board::Settled(Settled::new())
    }

    // Performs one call of a past, and answers it. Each phase has a function, so that only what stands is moved: a board is large
    // where a trial stands.
    #[tactic(auto, using(crate::proofs::Telling::told_stands))]
    pub fn perform(self, call: Call) -> (Board, Reply)
        ensures said { said result.1 ≡ owed (stands self) call }
        ensures left { stands result.0 ≡ performed (stands self) call }
        ensures past { (st : Story) → ends st ≡ stands self → ends (told st call) ≡ stands result.0 }
    {
        match self {
            Board::Settled(settled) => perform_settled(settled, call),
            Board::Trial(trial) => perform_trial(trial, call),
        }
    }

    // Ends whatever stands, for a caller that leaves: a trial is reverted.
    pub fn settle(self) -> Settled
        ensures { elim self [ BoardSettled b ↦ result ≡ b | BoardTrial t ↦ settled_view result ≡ called Reverts (trial_view t) ] }
    {
        match self {
            Board::Settled(settled) => settled,
            Board::Trial(trial) => trial.revert(),
        }
    }

    // The board that any list of calls leaves, from a new one: how a board is brought back from its log.
    pub fn replay(calls: &[Call]) -> Board
        ensures { stands result ≡ ends (history calls.now) }
    {
        calls
            .iter()
            .fold(Board::new(), |board, call| board.perform(*call).0)
    }
}

fn perform_settled(mut settled: Settled, call: Call) -> (Board, Reply)
    ensures said { said result.1 ≡ owed_in Outside (settled_view settled) call }
    ensures left { stands result.0 ≡ performed_in Outside (settled_view settled) call }
{
    let reply = match call {
        Call::Make(edit) => settled.edit(edit).into(),
        Call::AskCase(row) => Reply::Case(settled.case(row)),
        Call::AskPrice(slot) => Reply::Price(settled.price_of(slot)),
        Call::Begin => return (Board::Trial(settled.begin()), Reply::Begun),
        Call::Keep | Call::Revert | Call::TakeBack => Reply::NotTaken,
    };
    (Board::Settled(settled), reply)
}

fn perform_trial(mut trial: Trial, call: Call) -> (Board, Reply)
    ensures said { said result.1 ≡ owed_in Inside (trial_view trial) call }
    ensures left { stands result.0 ≡ performed_in Inside (trial_view trial) call }
{
    let reply = match call {
        Call::Make(edit) => trial.edit(edit).into(),
        Call::AskCase(row) => Reply::Case(trial.case(row)),
        Call::AskPrice(slot) => Reply::Price(trial.price_of(slot)),
        Call::TakeBack => trial.take_back().into(),
        Call::Begin => Reply::NotTaken,
        Call::Keep => return (Board::Settled(trial.keep()), Reply::Ended),
        Call::Revert => return (Board::Settled(trial.revert()), Reply::Ended),
    };
    (Board::Trial(trial), reply)
}

impl Calls for Board {
    ghost phase = { λ b. (stands b).phase };

    ghost view = { λ b. (stands b).left };

    fn edit(&mut self, edit: Edit) -> Result<(), Refusal> {
        match self {
            Board::Settled(settled) => settled.edit(edit),
            Board::Trial(trial) => trial.edit(edit),
        }
    }

    fn sheet(&self) -> &Sheet {
        match self {
            Board::Settled(settled) => settled.sheet(),
            Board::Trial(trial) => trial.sheet(),
        }
    }
}
