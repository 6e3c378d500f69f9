//! The tally of each place, in one pass over the blocks of a file.

ghost use Rattle.std.specs.Prelude.{◌≡◌, ◌<◌, ◌≤◌, true, length, IfOk, Some};
ghost use Rattle.blocks.specs.Firsts.{lifted};
ghost use Rattle.blocks.specs.Lone.{verdict_in};
ghost use Rattle.blocks.specs.Records.{opened};
ghost use Rattle.blocks.specs.declared.fault.FileFault.TheVariants.{Block as block_fault};
ghost use Rattle.blocks.specs.declared.kind.Kind.TheVariants.{Resource as resource_kind, Virtual as virtual_kind};
ghost use Rattle.hourfile.specs.Files.{blocks_in, file_verdict, part_of, verdict_at};
ghost use Rattle.hourfile.specs.HourAnswers.{hour_of};
ghost use Rattle.hourfile.specs.Hours.{kind_line, kind_withdrawn};
ghost use Rattle.hourfile.specs.Tallies.{Adds, InBounds, Tallied, grains_on};
ghost use Rattle.hourfile.specs.declared.lines.Line.{Line};
ghost use Rattle.market.specs.Views.{zone_prices_of};
ghost use Rattle.records.specs.Contents.{has_position, has_virtual_position, zone_prices_at};

use crate::file::HourFile;
use crate::owners::Owners;
use crate::tally::Tally;
use blocks::fault::FileFault;
use blocks::kind::Kind;
use blocks::record::Record;
use market::position::ZonePrices;
use records::{position, virtual_position, zone_prices};

/// The zone prices of the header.
fn zone(file: &HourFile) -> Result<ZonePrices, FileFault>
    ensures verdict { verdict_in result ≡ lifted block_fault (verdict_at file.now.bytes.now file.now.owners 0) }
    ensures prices { IfOk result (λ zone. zone_prices_of zone ≡ zone_prices_at (part_of file.now.bytes.now 0)) }
{
    Ok(zone_prices(&file.open(0)?).unwrap())
}

/// What a block that passed its check comes to.
fn block_tally(zone: &ZonePrices, block: &Record) -> Tally
    requires resource { (opened block.now).kind ≡ resource_kind → has_position (opened block.now) ≡ true }
    requires traded { (opened block.now).kind ≡ virtual_kind → has_virtual_position (opened block.now) ≡ true }
    ensures grains { (line : Line) → grains_on result line ≡ kind_line (Some (opened block.now).kind) (zone_prices_of zone.now) (opened block.now).part line }
    ensures withdrawn { result.withdrawn ≡ kind_withdrawn (Some (opened block.now).kind) (opened block.now).part }
    ensures bounds { InBounds (grains_on result) result.withdrawn }
{
    match block.kind() {
        Kind::Header => Tally::default(),
        Kind::Resource => Tally::of_position(&position(block).unwrap()),
        Kind::Virtual => Tally::of_virtual(zone, &virtual_position(block).unwrap()),
    }
}

/// The place of a block after the header, and what the block comes to.
fn place_and_tally(
    file: &HourFile,
    zone: &ZonePrices,
    block: usize,
) -> Result<(usize, Tally), FileFault>
    requires later { 1 ≤ block }
    requires inside { block < blocks_in file.now.bytes.now }
    requires priced { zone_prices_of zone.now ≡ zone_prices_at (part_of file.now.bytes.now 0) }
    ensures verdict { verdict_in result ≡ lifted block_fault (verdict_at file.now.bytes.now file.now.owners block) }
    ensures adds { IfOk result (λ (place, tally). Adds file.now.bytes.now file.now.owners block place tally) }
{
    let record = file.open(block)?;
    let place = usize::from(record.part()[3]);
    Ok((place, block_tally(zone, &record)))
}

/// The tally of each place, or the first fault of the file.
pub(crate) fn tallies(file: &[u8], owners: Owners) -> Result<[Tally; 32], FileFault>
    ensures verdict { verdict_in result ≡ file_verdict file.now owners.number }
    ensures whole { IfOk result (λ all. length all ≡ 32) }
    ensures tallied { IfOk result (λ all. Tallied file.now all) }
    ensures few { IfOk result (λ _. blocks_in file.now ≤ 64) }
    ensures from { IfOk result (λ _. 1 ≤ hour_of file.now) }
    ensures to { IfOk result (λ _. hour_of file.now ≤ 24) }
{
    let file = HourFile::new(file, owners.number)?;
    let zone = zone(&file)?;
    let mut all = [Tally::default(); 32];
    // By number, as in `check_file`.
    for block in 1..file.blocks() {
        let (place, tally) = place_and_tally(&file, &zone, block)?;
        all[place] += tally;
    }
    Ok(all)
}
