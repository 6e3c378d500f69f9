//! A lone block: a record is written as a block, and a block is read as a record.

ghost use Rattle.std.specs.Prelude.{◌≡◌, true, ◌++◌, take, drop, pos, is_ok, IfOk, Ok, FitsSigned};
ghost use Rattle.blocks.specs.Words.{check_of, word_at};
ghost use Rattle.std.specs.List.{AllByRecursion};
ghost use Rattle.std.specs.Int.{w32};
ghost use Rattle.blocks.specs.Firsts.{FindsFirst};
ghost use Rattle.blocks.specs.Lone.{LowestOf, bytes_of, decoded, encoded, part_verdict, read_of, verdict_in, write_of, written};
ghost use Rattle.blocks.specs.Records.{opened, record_of};

use crate::check::check_sum;
use crate::fault::FileFault;
use crate::limits::Limits;
use crate::record::{BLOCK, Record};
use crate::whole::Block;
use crate::word::{put_word, word};
use std::array;

/// The words of a record: words 1 to 126 of its block.
pub const RECORD_WORDS: usize = 126;

/// A record out of any file: bytes 0 to 3 and words 1 to 126 of its block.
#[derive(Clone, Copy, Debug, PartialEq, Eq)]
pub struct BlockRecord {
    pub head: [u8; 4],
    pub words: [i32; RECORD_WORDS],
}

/// Writes words 1 to 126. Each is written at its number: after a loop over `chunks_exact_mut` no proof knows what was written.
fn put_words(part: &mut [u8; BLOCK], words: &[i32; RECORD_WORDS])
    ensures bytes { part.new ≡ (take 4 part.old ++ bytes_of words.now) ++ drop 508 part.old }
    ensures fit { AllByRecursion (FitsSigned w32) words.now }
{
    for (i, word) in words.iter().enumerate() {
        put_word(part, i + 1, *word);
    }
}

impl From<Block<'_>> for BlockRecord {
    ghost from_gives = { λ block rec. rec ≡ decoded block.part.now };

    fn from(block: Block<'_>) -> BlockRecord {
        let part = block.part;
        BlockRecord {
            head: [part[0], part[1], part[2], part[3]],
            words: array::from_fn(|i| word(part, i + 1)),
        }
    }
}

impl BlockRecord {
    /// The record as a block, with its check.
    fn encode(&self) -> [u8; BLOCK]
        ensures bytes { result ≡ encoded self.now }
        ensures right { word_at (encoded self.now) 127 ≡ pos (check_of (encoded self.now)) }
        ensures back { decoded (encoded self.now) ≡ self.now }
    {
        let mut part = [0; BLOCK];
        part[..4].copy_from_slice(&self.head);
        put_words(&mut part, &self.words);
        let check = check_sum(&part) as i32;
        put_word(&mut part, 127, check);
        part
    }

    /// Writes the record as a block into a buffer of 512 bytes, with its check, and answers 512. A buffer of another length, or a record
    /// that breaks a rule, is refused, and the buffer is then as it was.
    pub fn write(&self, buffer: &mut [u8]) -> Result<usize, FileFault>
        ensures answer { result ≡ write_of self.now buffer.old }
        ensures buffer { buffer.new ≡ written self.now buffer.old }
        ensures reads_back { is_ok result ≡ true → read_of buffer.new ≡ Ok self.now }
    {
        if buffer.len() != BLOCK {
            return Err(FileFault::Length);
        }
        let part = self.encode();
        let block = Block {
            part: &part,
            number: 0,
        };
        block.checked_body(&Limits::alone())?;
        buffer.copy_from_slice(&part);
        Ok(BLOCK)
    }

    /// The record that a lone block holds, or its first fault.
    pub fn read(part: &[u8]) -> Result<BlockRecord, FileFault>
        ensures answer { result ≡ read_of part.now }
        ensures writes_back { IfOk result (λ rec. encoded rec ≡ part.now) }
    {
        let block = Block::new(part, 0).ok_or(FileFault::Length)?;
        block.checked(&Limits::alone())?;
        Ok(BlockRecord::from(block))
    }
}

/// Opens a block of a file: its record, or its first fault by the limits of where it stands. The fault is that of the lowest-numbered
/// rule that the block breaks, and a word that a rule looks for is the lowest one.
#[tactic(auto, using(crate::proofs::Finding::found_first))]
pub fn open<'a>(part: &'a [u8], block: usize, limits: &Limits) -> Result<Record<'a>, FileFault>
    ensures verdict { verdict_in result ≡ part_verdict limits.now block part.now }
    ensures lowest { LowestOf limits.now block part.now (verdict_in result) }
    ensures words { FindsFirst }
    ensures opens { IfOk result (λ rec. record_of part.now block ≡ Ok (opened rec)) }
{
    let block = Block::new(part, block).ok_or(FileFault::Length)?;
    Ok(Record::from(block.checked(limits)?))
}
