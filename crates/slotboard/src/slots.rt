// Sets of slots as text: `none`, `all`, a word such as `0x3d4`, or a list of slots and ranges such as `2,4,6-9`.
use crate::fault::Fault;
use slot_set::SlotSet;
use std::fmt;
use std::ops::RangeInclusive;

pub(crate) fn parse_slots(text: &str) -> Result<SlotSet, Fault<'_>> {
    match text {
        "none" => Ok(SlotSet::from(0)),
        "all" => Ok(SlotSet::from(u64::MAX)),
        _ => match text.strip_prefix("0x") {
            Some(digits) => parse_word(text, digits),
            None => parse_list(text),
        },
    }
}

// A set in hexadecimal digits, with no sign before them.
fn parse_word<'a>(text: &'a str, digits: &str) -> Result<SlotSet, Fault<'a>> {
    match u64::from_str_radix(digits, 16) {
        Ok(word) if !digits.starts_with('+') => Ok(SlotSet::from(word)),
        _ => Err(Fault::Word(text)),
    }
}

fn parse_list(list: &str) -> Result<SlotSet, Fault<'_>> {
    let mut set = SlotSet::from(0);
    for part in list.split(',') {
        set = parse_range(list, part)?.fold(set, SlotSet::with);
    }
    Ok(set)
}

// One part of a list: a slot, or the first and the last of a range.
fn parse_range<'a>(list: &'a str, part: &'a str) -> Result<RangeInclusive<usize>, Fault<'a>> {
    let Some((first, last)) = part.split_once('-') else {
        let slot = parse_slot(list, part)?;
        return Ok(slot..=slot);
    };
    let low = parse_slot(list, first)?;
    let high = parse_slot(list, last)?;
    if low > high {
        return Err(Fault::Backward(part));
    }
    Ok(low..=high)
}

fn parse_slot<'a>(list: &'a str, text: &'a str) -> Result<usize, Fault<'a>> {
    let slot = text.parse().map_err(|_| Fault::SlotList(list))?;
    if slot >= 64 {
        return Err(Fault::NoSuchSlot(text));
    }
    Ok(slot)
}

// A set as it is printed: its slots rising, two or more neighbours as a range, `none` where it is empty.
#[derive(Clone, Copy)]
pub(crate) struct Slots(pub(crate) SlotSet);

impl fmt::Display for Slots {
    fn fmt<W: fmt::Write>(&self, f: &mut fmt::Formatter<W>) -> fmt::Result {
        let set = self.0;
        if set.is_empty() {
            return f.write_str("none");
        }
        // The first and the last slot of each run of neighbours. No set has the slots before 0 and after 63.
        let firsts = (0..64).filter(|slot| {
            set.contains(*slot) && !set.contains(slot.wrapping_sub(1))
        });
        let lasts = (0..64).filter(|slot| set.contains(*slot) && !set.contains(*slot + 1));
        for (index, (first, last)) in firsts.zip(lasts).enumerate() {
            if index > 0 {
                f.write_str(",")?;
            }
            write!(f, "{first}")?;
            if first < last {
                write!(f, "-{last}")?;
            }
        }
        Ok(())
    }
}

#[cfg(test)]
mod tests {
    use super::*;
    use std::alloc::{AllocError, Global};
    use std::test::Fail;

    fn reads(text: &str, word: u64) -> bool {
        parse_slots(text) == Ok(SlotSet::from(word))
    }

    fn faults(text: &str, fault: Fault<'_>) -> bool {
        parse_slots(text) == Err(fault)
    }

    fn prints(heap: Global, word: u64, text: &str) -> Result<bool, AllocError> {
        let printed = Slots(SlotSet::from(word)).to_string(heap)?;
        Ok(printed.as_str() == text)
    }

    #[test]
    fn sets_are_read(rt: HostRuntime) {
        assert!(rt; reads("none", 0));
        assert!(rt; reads("all", u64::MAX));
        assert!(rt; reads("2,4,6-9", 0x3d4));
        assert!(rt; reads("0x3d4", 0x3d4));
        assert!(rt; reads("63,0,63-63", 0x8000_0000_0000_0001));
        assert!(rt; reads("0-63", u64::MAX));
    }

    #[test]
    fn other_texts_are_refused(rt: HostRuntime) {
        assert!(rt; faults("64", Fault::NoSuchSlot("64")));
        assert!(rt; faults("9-2", Fault::Backward("9-2")));
        assert!(rt; faults("1,,2", Fault::SlotList("1,,2")));
        assert!(rt; faults("0x+3", Fault::Word("0x+3")));
        assert!(rt; faults("0x10000000000000000", Fault::Word("0x10000000000000000")));
    }

    #[test]
    fn sets_are_printed(rt: HostRuntime) -> Result<(), Fail> {
        let heap = rt.alloc();
        assert!(rt; prints(heap, 0, "none")?);
        assert!(rt; prints(heap, 0x3d4, "2,4,6-9")?);
        assert!(rt; prints(heap, 3, "0-1")?);
        assert!(rt; prints(heap, 0x8000_0000_0000_0001, "0,63")?);
        assert!(rt; prints(heap, u64::MAX, "0-63")?);
        Ok(())
    }
}
