// What is wrong with a line that cannot be read.
use std::fmt;

#[derive(Clone, Copy, PartialEq, Eq, Debug)]
pub(crate) enum Fault<'a> {
    NotText,
    UnknownCall(&'a str),
    // an argument that is not there, by its name
    Missing(&'static str),
    Extra(&'a str),
    Unsigned(&'a str),
    Signed(&'a str),
    // a hexadecimal word
    Word(&'a str),
    // a list with a part that is neither a slot nor a range
    SlotList(&'a str),
    NoSuchSlot(&'a str),
    // a range whose last slot is before its first
    Backward(&'a str),
}

impl fmt::Display for Fault<'_> {
    fn fmt<W: fmt::Write>(&self, f: &mut fmt::Formatter<W>) -> fmt::Result {
        match self {
            Fault::NotText => f.write_str("the line is not UTF-8 text"),
            Fault::UnknownCall(word) => write!(f, "no call is named '{word}'"),
            Fault::Missing(name) => write!(f, "{name} is missing"),
            Fault::Extra(word) => write!(f, "'{word}' is one word too many"),
            Fault::Unsigned(word) => write!(
                f,
                "'{word}' is not a whole number from 0 to 18446744073709551615"
            ),
            Fault::Signed(word) => write!(
                f,
                "'{word}' is not a whole number from -9223372036854775808 to 9223372036854775807"
            ),
            Fault::Word(word) => write!(
                f,
                "'{word}' is not a word of 1 to 16 hexadecimal digits after 0x"
            ),
            Fault::SlotList(word) => write!(
                f,
                "'{word}' is no set of slots: write none, all, a word such as 0x3d4, or a list such as 2,4,6-9"
            ),
            Fault::NoSuchSlot(word) => write!(f, "'{word}' is no slot: the slots are 0 to 63"),
            Fault::Backward(word) => write!(f, "the range '{word}' runs backward"),
        }
    }
}
