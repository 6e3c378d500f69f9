// Records and hour files for the tests. Other crates of tests make their own: a shared library would need contracts for test data.
use blocks::block::BlockRecord;
use std::alloc::Global;
use std::test::Fail;

fn record(head: [u8; 4], number: i32) -> BlockRecord {
    let words = [0; 126];
    with(BlockRecord { head, words }, 1, number)
}

pub(crate) fn header(hour: u8, owners: u8, following: i32) -> BlockRecord {
    record([b'H', 0, hour, owners], following)
}

pub(crate) fn resource(side: u8, hour: u8, place: u8, number: i32) -> BlockRecord {
    record([b'R', side, hour, place], number)
}

pub(crate) fn virtual_position(side: u8, hour: u8, place: u8, number: i32) -> BlockRecord {
    record([b'V', side, hour, place], number)
}

/// The record with some words, from one on, of words 1 to 126, at other values.
pub(crate) fn with_words(mut record: BlockRecord, first: usize, values: &[i32]) -> BlockRecord {
    let from = first.saturating_sub(1);
    for (word, value) in record.words.iter_mut().skip(from).zip(values) {
        *word = *value;
    }
    record
}

/// The record with one word at another value.
pub(crate) fn with(record: BlockRecord, word: usize, value: i32) -> BlockRecord {
    with_words(record, word, &[value])
}

/// The record with the same price, schedule, reading, reserve price and reserve schedule in every interval.
pub(crate) fn with_intervals(record: BlockRecord, figures: [i32; 5]) -> BlockRecord {
    (8..68).step_by(5).fold(record, |record, first| with_words(record, first, &figures))
}

/// A load without bids, with one price and one reading in every interval.
pub(crate) fn load(hour: u8, place: u8, number: i32, price: i32, reading: i32) -> BlockRecord {
    with_intervals(
        resource(b'N', hour, place, number),
        [price, 0, reading, 0, 0],
    )
}

/// A generator with an offer of 3,000 to 400 and 5,000 to 600, day-ahead price 4,000 and quantity 500.
pub(crate) fn generator(hour: u8) -> BlockRecord {
    let offering = with_words(
        with(resource(b'G', hour, 0, 1), 6, 2),
        68,
        &[3_000, 400, 5_000, 600],
    );
    with_words(offering, 2, &[4_000, 500])
}

pub(crate) fn file_of(heap: Global, records: &[BlockRecord]) -> Result<Vec<u8>, Fail> {
    let mut file = Vec::new(heap);
    for record in records {
        let mut block = [0; 512];
        record.write(&mut block)?;
        file.extend_from_slice(&block)?;
    }
    Ok(file)
}

/// An hour of two owners: the generator of the first, and a load without bids of the second, with this reading in every interval.
pub(crate) fn two_owners(heap: Global, hour: u8, reading: i32) -> Result<Vec<u8>, Fail> {
    let first = with_intervals(generator(hour), [4_200, 500, 4_200, 0, 0]);
    let second = load(hour, 1, 2, 4_200, reading);
    file_of(heap, &[header(hour, 2, 2), first, second])
}
