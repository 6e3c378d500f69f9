// The blocks of one hour: written, read back, checked as a file, and refused once one of them is damaged.
use crate::stop::Stop;
use blocks::block::{BlockRecord, open};
use blocks::limits::Limits;
use blocks::record::BLOCK;
use hourfile::file::check_file;
use market::amounts::day_ahead_energy;
use market::cents::to_cents;
use records::position;

const OWNERS: u32 = 2;

// Three blocks.
const FILE: usize = 1_536;

// The first reading of the generator: byte 40 of block 1.
const FIRST_READING: usize = 552;

// Sets the words of a record from one on, of words 1 to 126.
fn set(words: &mut [i32; 126], first: usize, values: &[i32]) {
    for (word, value) in words.iter_mut().skip(first.saturating_sub(1)).zip(values) {
        *word = *value;
    }
}

// Sets the price, schedule and reading of every interval: five words each, from word 8 on.
fn set_intervals(words: &mut [i32; 126], figures: [i32; 3]) {
    for first in (8..68).step_by(5) {
        set(words, first, &figures);
    }
}

// Hour 1 of two owners, with two blocks after the header.
fn header() -> BlockRecord {
    let mut words = [0; 126];
    set(&mut words, 1, &[2]);
    BlockRecord {
        head: [b'H', 0, 1, 2],
        words,
    }
}

// The generator of the first owner: an offer of 3,000 to 400 and 5,000 to 600, day-ahead price 4,000 and quantity 500.
fn generator() -> BlockRecord {
    let mut words = [0; 126];
    set(&mut words, 1, &[1, 4_000, 500]);
    set(&mut words, 6, &[2]);
    set_intervals(&mut words, [4_200, 500, 4_200]);
    set(&mut words, 68, &[3_000, 400, 5_000, 600]);
    BlockRecord {
        head: [b'R', b'G', 1, 0],
        words,
    }
}

// The load without bids of the second owner.
fn load() -> BlockRecord {
    let mut words = [0; 126];
    set(&mut words, 1, &[2]);
    set_intervals(&mut words, [4_200, 0, 4_100]);
    BlockRecord {
        head: [b'R', b'N', 1, 1],
        words,
    }
}

// Writes a record as a block of the file, and reads it back.
fn tell_block(
    rt: &impl Print,
    record: &BlockRecord,
    name: &str,
    part: &mut [u8],
) -> Result<(), Stop> {
    let bytes = record.write(part)?;
    println!(rt; "wrote {name}: {bytes} bytes")?;
    let [number, ..] = BlockRecord::read(part)?.words;
    println!(rt; "read it back: word 1 is {number}")?;
    Ok(())
}

fn tell_verdict(rt: &impl Print, file: &[u8]) -> Result<(), Stop> {
    check_file(file, OWNERS)?;
    println!(rt; "the file is accepted for a day of {OWNERS} owners")?;
    Ok(())
}

// What the block of the generator means: its position, and the first line of it.
fn tell_position(rt: &impl Print, part: &[u8]) -> Result<(), Stop> {
    let record = open(part, 1, &Limits::alone())?;
    match position(&record) {
        Some(generator) => {
            let cents = to_cents(day_ahead_energy(&generator));
            println!(rt; "block 1 holds a position, with {cents} cents of day-ahead energy")?;
        }
        None => println!(rt; "block 1 holds no position")?,
    }
    Ok(())
}

fn tell_file(rt: &impl Print, file: &mut [u8; FILE]) -> Result<(), Stop> {
    let blocks = [
        (header(), "the header"),
        (generator(), "the generator"),
        (load(), "the load without bids"),
    ];
    for ((record, name), part) in blocks.iter().zip(file.chunks_exact_mut(BLOCK)) {
        tell_block(rt, record, name, part)?;
    }
    tell_verdict(rt, file)?;
    tell_position(rt, &file[BLOCK..2 * BLOCK])?;
    println!(rt; "byte 40 of block 1, in its first reading, is set to 0")?;
    file[FIRST_READING] = 0;
    tell_verdict(rt, file)
}

pub(crate) fn tell_hour(rt: &impl Print) -> Result<(), Stop> {
    tell_file(rt, &mut [0; FILE])
}
