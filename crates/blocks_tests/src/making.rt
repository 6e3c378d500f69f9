// Records for the tests, and the refusals that are expected of them.
use blocks::block::BlockRecord;
use blocks::fault::{Layer, Refusal};

fn record(head: [u8; 4], first_word: i32) -> BlockRecord {
    let words = [0; 126];
    with(BlockRecord { head, words }, 1, first_word)
}

pub(crate) fn header(hour: u8, owners: u8, following: i32) -> BlockRecord {
    record([b'H', 0, hour, owners], following)
}

pub(crate) fn resource(side: u8, place: u8, number: i32) -> BlockRecord {
    record([b'R', side, 1, place], number)
}

pub(crate) fn virtual_position(side: u8, place: u8, number: i32) -> BlockRecord {
    record([b'V', side, 1, place], number)
}

/// The record with one word, of words 1 to 126, at another value.
pub(crate) fn with(mut record: BlockRecord, word: usize, value: i32) -> BlockRecord {
    let at = word.wrapping_sub(1);
    if let Some(held) = record.words.get_mut(at) {
        *held = value;
    }
    record
}

/// The record with one energy row more, of those that stand from word 68 on.
pub(crate) fn with_row(record: BlockRecord, row: usize, price: i32, end: i32) -> BlockRecord {
    if row < 20 {
        with(with(record, 68 + 2 * row, price), 69 + 2 * row, end)
    } else {
        record
    }
}

/// A buffer of one block.
pub(crate) fn buffer() -> [u8; 512] {
    [0; 512]
}

/// The refusal of a file's or a block's number, at a block and a word.
pub(crate) fn refused(number: u32, block: usize, word: usize) -> Option<Refusal> {
    let layer = if number == 5 {
        Layer::File
    } else {
        Layer::Block
    };
    Some(Refusal {
        number,
        layer,
        block,
        word,
    })
}
