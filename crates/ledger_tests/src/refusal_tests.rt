use crate::making::{file_of, header, load, two_owners};
use crate::telling::{check_settles, entry, refusal_of, refused, refused_by, settled, unused};
use blocks::fault::Refusal;
use ledger::day::OpenDay;
use ledger::entry::Entry;
use std::process::Abort;
use std::test::Fail;

/// A settling is refused, and day and ledger are then as they were.
fn check_refused<const N: usize>(
    rt: &impl Abort,
    day: &mut OpenDay,
    ledger: &mut [Entry; N],
    file: &[u8],
    why: Option<Refusal>,
) {
    let before = *ledger;
    let state = day.state();
    assert_eq!(rt; refusal_of(day.settle_plain(ledger, file)), why);
    assert_eq!(rt; *ledger, before);
    assert_eq!(rt; day.state(), state);
}

/// The reading of an hour, a place and a line is refused.
fn check_reading_refused(
    rt: &impl Abort,
    day: &OpenDay,
    ledger: &[Entry],
    (hour, place, line): (u32, u32, u32),
    number: u32,
) {
    assert_eq!(rt;
        refusal_of(day.amount(ledger, hour, place, line)),
        refused_by(number)
    );
}

/// A ledger is refused in settling and in reading, whatever else is wrong in either.
fn check_unsound<const N: usize>(
    rt: &impl Abort,
    day: &mut OpenDay,
    ledger: &mut [Entry; N],
    file: &[u8],
) {
    check_refused(rt, day, ledger, file, refused_by(3));
    check_refused(rt, day, ledger, &[], refused_by(3));
    check_reading_refused(rt, day, ledger, (1, 0, 1), 3);
    check_reading_refused(rt, day, ledger, (0, 3, 9), 3);
}

// A ledger of two entries has too little room for the three of an hour of two owners, and so has one of six after two hours.
#[test]
fn too_little_room(rt: HostRuntime) -> Result<(), Fail> {
    let file = two_owners(rt.alloc(), 1, 4_100)?;
    let mut two = [unused(); 2];
    let mut day = OpenDay::open(2, &two)?;
    check_refused(&rt, &mut day, &mut two, &file, refused_by(16));
    check_refused(&rt, &mut day, &mut two, &[], refused_by(5));
    let mut six = [unused(); 6];
    let mut day = settled(&rt, &mut six, 2, &file)?;
    check_settles(&rt, &mut day, &mut six, &file, 3)?;
    check_refused(&rt, &mut day, &mut six, &file, refused_by(16));
    Ok(())
}

#[test]
fn faulty_files(rt: HostRuntime) -> Result<(), Fail> {
    let mut file = two_owners(rt.alloc(), 1, 4_100)?;
    let mut ledger = [unused(); 6];
    let mut day = settled(&rt, &mut ledger, 2, &file)?;
    let mixed = file_of(rt.alloc(), &[header(2, 2, 1), load(3, 0, 1, 0, 0)])?;
    check_refused(&rt, &mut day, &mut ledger, &mixed, refused(8, 1, 0));
    let of_three = file_of(rt.alloc(), &[header(1, 3, 0)])?;
    check_refused(&rt, &mut day, &mut ledger, &of_three, refused(9, 0, 0));
    assert!(rt; file.len() == 1_536);
    check_refused(&rt, &mut day, &mut ledger, &file[0..1_535], refused_by(5));
    file[1_100] = 77;
    check_refused(&rt, &mut day, &mut ledger, &file, refused(6, 2, 127));
    Ok(())
}

// A day is opened and settled on five entries, and is then handed the first four of them, or one more.
#[test]
fn ledger_of_another_length(rt: HostRuntime) -> Result<(), Fail> {
    let file = two_owners(rt.alloc(), 1, 4_100)?;
    let mut five = [unused(); 5];
    let mut day = settled(&rt, &mut five, 2, &file)?;
    let [first, second, third, fourth, fifth] = five;
    let mut four = [first, second, third, fourth];
    check_unsound(&rt, &mut day, &mut four, &file);
    let mut six = [first, second, third, fourth, fifth, unused()];
    check_unsound(&rt, &mut day, &mut six, &file);
    Ok(())
}

/// Lines with one amount, on a line that is counted from 0. The loops below go over these numbers, since the calls take them.
fn on_line(line: usize, amount: i64) -> [i64; 8] {
    let mut lines = [0; 8];
    if let Some(held) = lines.get_mut(line) {
        *held = amount;
    }
    lines
}

/// A ledger is refused for one used entry.
fn check_damage(rt: &impl Abort, file: &[u8], bad: Entry) -> Result<(), Fail> {
    let mut ledger = [unused(); 6];
    let mut day = settled(rt, &mut ledger, 2, file)?;
    ledger[2] = bad;
    check_unsound(rt, &mut day, &mut ledger, file);
    Ok(())
}

#[test]
fn damaged_entries(rt: HostRuntime) -> Result<(), Fail> {
    let file = two_owners(rt.alloc(), 1, 4_100)?;
    for (hour, place) in [(0, 0), (25, 0), (1, 3), (u32::MAX, 0), (1, u32::MAX)] {
        check_damage(&rt, &file, entry(hour, place, [0; 8]))?;
    }
    for line in 0..8 {
        for amount in [100_000_000_001, -100_000_000_001, i64::MAX, i64::MIN] {
            check_damage(&rt, &file, entry(1, 0, on_line(line, amount)))?;
        }
    }
    Ok(())
}

/// Two entries for the operator of hour 24.
fn put_two(ledger: &mut [Entry; 6], line: usize, first: i64, second: i64) {
    ledger[0] = entry(24, 2, on_line(line, first));
    ledger[1] = entry(24, 2, on_line(line, second));
}

/// Twice the limit of standing amounts is a sound line of an entry. What stands is within the limit if another entry takes half of that
/// back, and beyond it if that entry takes back less.
fn check_limit(
    rt: &impl Abort,
    file: &[u8],
    line: u32,
    twice: i64,
    half: i64,
    less: i64,
) -> Result<(), Fail> {
    let mut ledger = [unused(); 6];
    let mut day = settled(rt, &mut ledger, 2, file)?;
    put_two(&mut ledger, line as usize, twice, less);
    check_unsound(rt, &mut day, &mut ledger, file);
    put_two(&mut ledger, line as usize, twice, half);
    let stands = day.amount(&ledger, 24, 2, line.saturating_add(1))?;
    assert_eq!(rt; stands, half.wrapping_neg());
    check_settles(rt, &mut day, &mut ledger, file, 3)
}

#[test]
fn standing_amounts(rt: HostRuntime) -> Result<(), Fail> {
    let file = two_owners(rt.alloc(), 1, 4_100)?;
    for line in 0..8 {
        check_limit(
            &rt,
            &file,
            line,
            100_000_000_000,
            -50_000_000_000,
            -49_999_999_999,
        )?;
        check_limit(
            &rt,
            &file,
            line,
            -100_000_000_000,
            50_000_000_000,
            49_999_999_999,
        )?;
    }
    Ok(())
}

#[test]
fn names_that_a_day_does_not_have(rt: HostRuntime) -> Result<(), Fail> {
    let file = two_owners(rt.alloc(), 24, 4_100)?;
    let mut ledger = [unused(); 3];
    let day = settled(&rt, &mut ledger, 2, &file)?;
    for name in [(0, 0, 1), (25, 0, 1), (24, 3, 1), (24, 0, 0), (24, 0, 9)] {
        check_reading_refused(&rt, &day, &ledger, name, 4);
    }
    assert_eq!(rt; day.amount(&ledger, 24, 1, 8)?, 4_960);
    assert_eq!(rt; day.amount(&ledger, 1, 2, 1)?, 0);
    Ok(())
}
