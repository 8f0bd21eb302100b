// What the program prints below a line that is a call.
use crate::slots::Slots;
use board::{Call, Reply};
use std::fmt;

// A call and what the board said to it.
#[derive(Clone, Copy)]
pub(crate) struct Answer {
    pub(crate) call: Call,
    pub(crate) reply: Reply,
}

impl fmt::Display for Answer {
    fn fmt<W: fmt::Write>(&self, f: &mut fmt::Formatter<W>) -> fmt::Result {
        match self.reply {
            Reply::Done => f.write_str("ok"),
            Reply::Refused(refusal) => write!(f, "refused {} ({refusal})", refusal.number()),
            Reply::Case(Some(case)) => write!(
                f,
                "need {} slots {}",
                case.need(),
                Slots(case.allowed())
            ),
            Reply::Price(Some(price)) => write!(f, "price {}", price.amount()),
            Reply::Case(None) | Reply::Price(None) => f.write_str("nothing"),
            Reply::Begun => f.write_str("trial"),
            Reply::Ended => f.write_str("settled"),
            Reply::NotTaken if self.call == Call::Begin => {
                f.write_str("not taken: a trial stands already")
            }
            Reply::NotTaken => f.write_str("not taken: no trial stands"),
        }
    }
}
