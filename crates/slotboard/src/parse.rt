// A line of a script, read as one call.
use crate::fault::Fault;
use crate::slots::parse_slots;
use board::Call;
use sheet::Edit;
use std::str::{FromStr, SplitWhitespace, from_utf8};

// The call of a line, or nothing for a line that is passed over.
pub(crate) fn parse_line(line: &[u8]) -> Result<Option<Call>, Fault<'_>> {
    let text = from_utf8(line).map_err(|_| Fault::NotText)?;
    let mut words = text.split_whitespace();
    let Some(name) = words.next().filter(|word| !word.starts_with('#')) else {
        return Ok(None);
    };
    let call = parse_call(name, &mut words)?;
    match words.next() {
        Some(word) => Err(Fault::Extra(word)),
        None => Ok(Some(call)),
    }
}

fn parse_call<'a>(name: &'a str, words: &mut SplitWhitespace<'a>) -> Result<Call, Fault<'a>> {
    Ok(match name {
        "begin" => Call::Begin,
        "keep" => Call::Keep,
        "revert" => Call::Revert,
        "back" => Call::TakeBack,
        "case" => Call::AskCase(parse_number(words, "ROW")?),
        "cost" => Call::AskPrice(parse_number(words, "SLOT")?),
        _ => Call::Make(parse_edit(name, words)?),
    })
}

fn parse_edit<'a>(name: &'a str, words: &mut SplitWhitespace<'a>) -> Result<Edit, Fault<'a>> {
    Ok(match name {
        "enter" => Edit::Enter(
            parse_number(words, "ROW")?,
            parse_number(words, "NEED")?,
            parse_set(words)?,
        ),
        "withdraw" => Edit::Withdraw(parse_number(words, "ROW")?),
        "allow" => Edit::Allow(parse_number(words, "ROW")?, parse_set(words)?),
        "price" => Edit::Price(parse_number(words, "SLOT")?, parse_number(words, "PRICE")?),
        "close" => Edit::Close(parse_number(words, "SLOT")?),
        _ => return Err(Fault::UnknownCall(name)),
    })
}

fn next_word<'a>(
    words: &mut SplitWhitespace<'a>,
    name: &'static str,
) -> Result<&'a str, Fault<'a>> {
    words.next().ok_or(Fault::Missing(name))
}

// A number as an argument of a call.
trait Number: FromStr {
    // What is wrong with a word that is no such number.
    fn fault(word: &str) -> Fault<'_>;
}

impl Number for usize {
    fn fault(word: &str) -> Fault<'_> {
        Fault::Unsigned(word)
    }
}

impl Number for u64 {
    fn fault(word: &str) -> Fault<'_> {
        Fault::Unsigned(word)
    }
}

impl Number for i64 {
    fn fault(word: &str) -> Fault<'_> {
        Fault::Signed(word)
    }
}

fn parse_number<'a, T: Number>(
    words: &mut SplitWhitespace<'a>,
    name: &'static str,
) -> Result<T, Fault<'a>>
where
    T::Err: Drop,
{
    let word = next_word(words, name)?;
    word.parse().map_err(|_| T::fault(word))
}

fn parse_set<'a>(words: &mut SplitWhitespace<'a>) -> Result<u64, Fault<'a>> {
    let word = next_word(words, "SLOTS")?;
    Ok(parse_slots(word)?.into())
}

#[cfg(test)]
mod tests {
    use super::*;

    fn reads(line: &[u8], call: Call) -> bool {
        parse_line(line) == Ok(Some(call))
    }

    fn passes_over(line: &[u8]) -> bool {
        parse_line(line) == Ok(None)
    }

    fn faults(line: &[u8], fault: Fault<'_>) -> bool {
        parse_line(line) == Err(fault)
    }

    #[test]
    fn edits_are_read(rt: HostRuntime) {
        assert!(rt; reads(b"enter 3 1850 2,4", Call::Make(Edit::Enter(3, 1850, 20))));
        assert!(rt;
            reads(
                b"withdraw 18446744073709551615",
                Call::Make(Edit::Withdraw(usize::MAX)),
            )
        );
        assert!(rt; reads(b" allow\t0  all\r", Call::Make(Edit::Allow(0, u64::MAX))));
        assert!(rt;
            reads(
                b"price 63 -9223372036854775808",
                Call::Make(Edit::Price(63, i64::MIN)),
            )
        );
        assert!(rt; reads(b"close 64", Call::Make(Edit::Close(64))));
    }

    #[test]
    fn other_calls_are_read(rt: HostRuntime) {
        assert!(rt; reads(b"case 15", Call::AskCase(15)));
        assert!(rt; reads(b"cost 0", Call::AskPrice(0)));
        assert!(rt; reads(b"begin", Call::Begin));
        assert!(rt; reads(b"keep", Call::Keep));
        assert!(rt; reads(b"revert", Call::Revert));
        assert!(rt; reads(b"back", Call::TakeBack));
    }

    #[test]
    fn some_lines_are_passed_over(rt: HostRuntime) {
        assert!(rt; passes_over(b""));
        assert!(rt; passes_over(b" \t"));
        assert!(rt; passes_over(b" # begin"));
    }

    #[test]
    fn faults_are_told(rt: HostRuntime) {
        assert!(rt; faults(b"\xff", Fault::NotText));
        assert!(rt; faults(b"Begin", Fault::UnknownCall("Begin")));
        assert!(rt; faults(b"begin now", Fault::Extra("now")));
        assert!(rt; faults(b"enter 3 1850", Fault::Missing("SLOTS")));
        assert!(rt; faults(b"case -1", Fault::Unsigned("-1")));
        assert!(rt;
            faults(
                b"price 0 9223372036854775808",
                Fault::Signed("9223372036854775808"),
            )
        );
    }
}
