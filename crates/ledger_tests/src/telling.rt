// What calls answer and what entries hold.
use blocks::fault::{Layer, Refusal};
use hourfile::lines::Lines;
use ledger::day::OpenDay;
use ledger::entry::Entry;
use ledger::fault::DayFault;
use std::process::Abort;
use std::test::Fail;

/// The refusal of a number, in the layer that the number belongs to.
pub(crate) fn refused(number: u32, block: usize, word: usize) -> Option<Refusal> {
    let layer = match number {
        5 => Layer::File,
        6..=14 => Layer::Block,
        _ => Layer::Day,
    };
    Some(Refusal {
        number,
        layer,
        block,
        word,
    })
}

/// A refusal that has no block and no word.
pub(crate) fn refused_by(number: u32) -> Option<Refusal> {
    refused(number, 0, 0)
}

/// The refusal that a call answers, if it is refused.
pub(crate) fn refusal_of<T: Drop>(answer: Result<T, DayFault>) -> Option<Refusal> {
    let fault = answer.err()?;
    Some(fault.refusal())
}

/// An entry with these amounts, in the order of the lines' numbers.
pub(crate) fn entry(hour: u32, place: u32, amounts: [i64; 8]) -> Entry {
    let lines = Lines::from(amounts);
    Entry { hour, place, lines }
}

/// An entry that no call wrote. A used entry like this would be refused.
pub(crate) fn unused() -> Entry {
    entry(25, 99, [i64::MIN; 8])
}

/// Opens a day on a ledger and settles a first hour.
pub(crate) fn settled(
    rt: &impl Abort,
    ledger: &mut [Entry],
    owners: u32,
    file: &[u8],
) -> Result<OpenDay, Fail> {
    let mut day = OpenDay::open(owners, ledger)?;
    assert_eq!(rt; day.state(), (0, 0));
    check_settles(rt, &mut day, ledger, file, owners as usize + 1)?;
    assert_eq!(rt; day.state(), (1, owners as usize + 1));
    Ok(day)
}

pub(crate) fn check_settles(
    rt: &impl Abort,
    day: &mut OpenDay,
    ledger: &mut [Entry],
    file: &[u8],
    entries: usize,
) -> Result<(), Fail> {
    assert_eq!(rt; day.settle_plain(ledger, file)?, entries);
    Ok(())
}

/// The entries of one hour, for place 0 and the places after it.
pub(crate) fn check_entries(rt: &impl Abort, entries: &[Entry], hour: u32, amounts: &[[i64; 8]]) {
    assert_eq!(rt; entries.len(), amounts.len());
    for (place, (held, amounts)) in (0..33).zip(entries.iter().zip(amounts)) {
        assert_eq!(rt; *held, entry(hour, place, *amounts));
    }
}

/// The amounts that stand at an hour and a place.
pub(crate) fn check_amounts(
    rt: &impl Abort,
    day: &OpenDay,
    ledger: &[Entry],
    hour: u32,
    place: u32,
    amounts: [i64; 8],
) -> Result<(), Fail> {
    for (line, amount) in (1..9).zip(amounts) {
        assert_eq!(rt; day.amount(ledger, hour, place, line)?, amount);
    }
    Ok(())
}
