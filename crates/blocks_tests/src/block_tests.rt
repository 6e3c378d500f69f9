use crate::making::{buffer, header, refused, resource, virtual_position, with, with_row};
use blocks::block::BlockRecord;
use blocks::fault::Refusal;
use std::process::Abort;

/// Why a record is not written, if it is not.
fn why_not_written(record: BlockRecord) -> Option<Refusal> {
    let fault = record.write(&mut buffer()).err()?;
    Some(fault.refusal())
}

/// Why bytes are not read, if they are not.
fn why_not_read(part: &[u8]) -> Option<Refusal> {
    let fault = BlockRecord::read(part).err()?;
    Some(fault.refusal())
}

fn accepts(rt: &impl Abort, record: BlockRecord) {
    assert_eq!(rt; why_not_written(record), None);
}

fn refuses(rt: &impl Abort, record: BlockRecord, number: u32, word: usize) {
    assert_eq!(rt; why_not_written(record), refused(number, 0, word));
}

/// An offer of so many rows at one price.
fn offer(rows: u8) -> BlockRecord {
    let record = with(resource(b'G', 0, 1), 6, i32::from(rows));
    (0..rows).fold(record, |record, row| {
        with_row(record, usize::from(row), 7, i32::from(row) + 1)
    })
}

#[test]
fn kinds_and_sides(rt: HostRuntime) {
    accepts(&rt, header(1, 1, 0));
    accepts(&rt, resource(b'N', 0, 1));
    accepts(&rt, virtual_position(b'L', 0, 1));
    refuses(&rt, virtual_position(b'N', 0, 1), 7, 0);
    refuses(&rt, resource(b'X', 0, 1), 7, 0);
    let mut record = header(1, 1, 0);
    record.head = [b'H', b'G', 1, 1];
    refuses(&rt, record, 7, 0);
    record.head = [b'h', 0, 1, 1];
    refuses(&rt, record, 7, 0);
}

#[test]
fn hours_owners_and_places(rt: HostRuntime) {
    refuses(&rt, header(0, 1, 0), 8, 0);
    accepts(&rt, header(24, 32, 63));
    refuses(&rt, header(25, 1, 0), 8, 0);
    refuses(&rt, header(1, 0, 0), 9, 0);
    refuses(&rt, header(1, 33, 0), 9, 0);
    accepts(&rt, resource(b'N', 31, 1));
    refuses(&rt, resource(b'N', 32, 1), 9, 0);
}

#[test]
fn counts_and_position_numbers(rt: HostRuntime) {
    refuses(&rt, header(1, 1, 64), 10, 1);
    refuses(&rt, header(1, 1, -1), 10, 1);
    refuses(&rt, resource(b'N', 0, 0), 10, 1);
    accepts(&rt, resource(b'N', 0, 65_535));
    refuses(&rt, resource(b'N', 0, 65_536), 10, 1);
    refuses(&rt, virtual_position(b'G', 0, -1), 10, 1);
}

#[test]
fn figures(rt: HostRuntime) {
    accepts(&rt, with(resource(b'N', 0, 1), 10, 8_400));
    refuses(&rt, with(resource(b'N', 0, 1), 10, 8_401), 11, 10);
    refuses(&rt, with(resource(b'N', 0, 1), 65, 8_401), 11, 65);
    accepts(&rt, with(resource(b'N', 0, 1), 2, -200_000));
    refuses(&rt, with(resource(b'N', 0, 1), 2, -200_001), 11, 2);
    refuses(&rt, with(resource(b'N', 0, 1), 4, -1), 11, 4);
    refuses(&rt, with(header(1, 1, 0), 14, 200_001), 11, 14);
    accepts(&rt, with(virtual_position(b'G', 0, 1), 2, 1_000));
    refuses(&rt, with(virtual_position(b'G', 0, 1), 2, 1_001), 11, 2);
}

#[test]
fn row_counts(rt: HostRuntime) {
    accepts(&rt, offer(20));
    refuses(&rt, with(offer(20), 6, 21), 12, 6);
    refuses(&rt, with(offer(1), 6, -1), 12, 6);
    refuses(&rt, with(offer(1), 7, 6), 12, 7);
    refuses(&rt, with(resource(b'N', 0, 1), 6, 1), 12, 6);
}

#[test]
fn rows_out_of_step(rt: HostRuntime) {
    refuses(&rt, with_row(offer(3), 1, 6, 2), 12, 70);
    refuses(&rt, with_row(offer(3), 1, 7, 1), 12, 70);
    refuses(&rt, with_row(offer(3), 0, 7, 0), 12, 68);
    refuses(&rt, with_row(offer(3), 2, 7, 1_001), 12, 72);
    let mut bid = offer(3);
    bid.head = [b'R', b'L', 1, 0];
    accepts(&rt, bid);
    refuses(&rt, with_row(bid, 1, 8, 2), 12, 70);
}

#[test]
fn reserve_rows(rt: HostRuntime) {
    let one = with(with(resource(b'N', 0, 1), 7, 1), 109, 40);
    accepts(&rt, one);
    refuses(&rt, with(one, 108, -1), 12, 108);
    accepts(&rt, with(one, 5, 40));
    refuses(&rt, with(one, 5, 41), 13, 5);
    refuses(&rt, with(one, 12, 41), 13, 12);
}

#[test]
fn schedules_past_the_last_end(rt: HostRuntime) {
    accepts(&rt, with(offer(3), 3, 3));
    refuses(&rt, with(offer(3), 3, 4), 13, 3);
    refuses(&rt, with(offer(3), 64, 4), 13, 64);
    refuses(&rt, with(resource(b'N', 0, 1), 9, 1), 13, 9);
}

#[test]
fn unused_words(rt: HostRuntime) {
    refuses(&rt, with(header(1, 1, 0), 15, 1), 14, 15);
    refuses(&rt, with(header(1, 1, 0), 126, -1), 14, 126);
    refuses(&rt, with(virtual_position(b'G', 0, 1), 3, 1), 14, 3);
    refuses(&rt, with(resource(b'N', 0, 1), 68, 1), 14, 68);
    refuses(&rt, with(resource(b'N', 0, 1), 107, 1), 14, 107);
    refuses(&rt, with(resource(b'N', 0, 1), 117, 1), 14, 117);
    refuses(&rt, with(resource(b'N', 0, 1), 118, 1), 14, 118);
    refuses(&rt, with(offer(1), 70, 1), 14, 70);
    refuses(&rt, with(offer(20), 126, 1), 14, 126);
}

#[test]
fn lower_number_and_lower_word_win(rt: HostRuntime) {
    refuses(&rt, with(resource(b'X', 32, 0), 10, 8_401), 7, 0);
    refuses(&rt, with(resource(b'N', 32, 0), 10, 8_401), 9, 0);
    refuses(
        &rt,
        with(with(resource(b'N', 0, 1), 126, 1), 10, 8_401),
        11,
        10,
    );
    refuses(
        &rt,
        with(with(resource(b'N', 0, 1), 15, 8_401), 10, 8_401),
        11,
        10,
    );
}

#[test]
fn written_and_read(rt: HostRuntime) {
    let record = offer(20);
    let mut block = buffer();
    assert_eq!(rt; record.write(&mut block).ok(), Some(512));
    assert_eq!(rt; why_not_read(&block), None);
    block[300] = 1;
    assert_eq!(rt; why_not_read(&block), refused(6, 0, 127));
    assert_eq!(rt; why_not_read(&block[0..511]), refused(5, 0, 0));
    assert_eq!(rt; why_not_read(&block[0..0]), refused(5, 0, 0));
}

#[test]
fn refused_writing_leaves_the_buffer(rt: HostRuntime) {
    let mut block = buffer();
    block[5] = 9;
    assert!(rt; header(25, 1, 0).write(&mut block).is_err());
    assert_eq!(rt; block[5], 9);
    assert_eq!(rt; block[0], 0);
    assert!(rt; header(1, 1, 0).write(&mut block[0..511]).is_err());
    assert_eq!(rt; block[0], 0);
}
