//! An hour file: 1 to 64 blocks, of which the first is the header and the others are not.

ghost use Rattle.std.specs.Prelude.{◌≡◌, ◌/◌, ◌%◌, ◌<◌, ◌≤◌, length, IfOk, Ok, unsigned_abs};
ghost use Rattle.blocks.specs.Firsts.{lifted, unless};
ghost use Rattle.blocks.specs.Lone.{verdict_in};
ghost use Rattle.blocks.specs.Records.{opened, record_of};
ghost use Rattle.blocks.specs.declared.fault.FileFault.TheVariants.{Block as block_fault, Length as length_fault};
ghost use Rattle.blocks.specs.Words.{word_at};
ghost use Rattle.hourfile.specs.Files.{FirstBlockDecides, blocks_in, file_verdict, limits_at, part_of, right_length, verdict_at};

use blocks::block::open;
use blocks::fault::FileFault;
use blocks::limits::Limits;
use blocks::record::{BLOCK, Record};

/// The most blocks of a file.
const MOST_BLOCKS: usize = 64;

/// The position number of a block.
fn position_number(part: &[u8]) -> u32
    requires { length part.now ≡ 512 }
    ensures { result ≡ unsigned_abs (word_at part.now 1) }
{
    i32::from_le_bytes([part[4], part[5], part[6], part[7]]).unsigned_abs()
}

/// A file of 1 to 64 whole blocks, for a day of so many owners.
#[derive(Clone, Copy)]
pub(crate) struct HourFile<'a> {
    bytes: &'a [u8],
    owners: u32,
    ghost whole: { length bytes.now % 512 ≡ 0 },
    ghost some: { 1 ≤ length bytes.now / 512 },
    ghost few: { length bytes.now / 512 ≤ 64 },
}

impl<'a> HourFile<'a> {
    /// The file, if its length is right.
    pub(crate) fn new(bytes: &'a [u8], owners: u32) -> Result<HourFile<'a>, FileFault>
        ensures verdict { verdict_in result ≡ unless (right_length bytes.now) length_fault }
        ensures same { IfOk result (λ file. file.bytes.now ≡ bytes.now) }
        ensures owned { IfOk result (λ file. file.owners ≡ owners) }
    {
        let blocks = bytes.len() / BLOCK;
        if bytes.len() % BLOCK == 0 && (1..=MOST_BLOCKS).contains(&blocks) {
            Ok(HourFile { bytes, owners })
        } else {
            Err(FileFault::Length)
        }
    }

    /// How many blocks the file has.
    pub(crate) fn blocks(&self) -> usize
        ensures { result ≡ blocks_in self.now.bytes.now }
    {
        self.bytes.len() / BLOCK
    }

    /// The bytes of a block.
    fn part(&self, block: usize) -> &'a [u8]
        requires { block < blocks_in self.now.bytes.now }
        ensures { result.now ≡ part_of self.now.bytes.now block }
    {
        let start = block * BLOCK;
        &self.bytes[start..start + BLOCK]
    }

    /// What a block may say where it stands.
    fn limits(&self, block: usize) -> Limits
        requires { block < blocks_in self.now.bytes.now }
        ensures { result ≡ limits_at self.now.bytes.now self.now.owners block }
    {
        match block {
            0 => Limits::first(self.owners, self.blocks() as u32 - 1),
            1 => Limits::later(self.bytes[2], self.owners, 1),
            _ => Limits::later(
                self.bytes[2],
                self.owners,
                position_number(self.part(block - 1)) + 1,
            ),
        }
    }

    /// Opens a block, or tells its fault.
    pub(crate) fn open(&self, block: usize) -> Result<Record<'a>, FileFault>
        requires { block < blocks_in self.now.bytes.now }
        ensures verdict { verdict_in result ≡ lifted block_fault (verdict_at self.now.bytes.now self.now.owners block) }
        ensures opens { IfOk result (λ rec. record_of (part_of self.now.bytes.now block) block ≡ Ok (opened rec)) }
    {
        open(self.part(block), block, &self.limits(block))
    }
}

/// The first fault of an hour file for a day of so many owners, or none. The first faulty block decides, by its lowest number.
pub fn check_file(file: &[u8], owners: u32) -> Result<(), FileFault>
    ensures verdict { result ≡ file_verdict file.now owners }
    ensures first { FirstBlockDecides file.now owners result }
{
    let file = HourFile::new(file, owners)?;
    // By number: a fault tells it, and the limits are read from the block before, so `chunks_exact` with `enumerate` is no plainer.
    for block in 0..file.blocks() {
        file.open(block)?;
    }
    Ok(())
}
