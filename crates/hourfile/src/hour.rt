//! What an hour comes to: the eight lines of every place.

ghost use Rattle.std.specs.Prelude.{◌≡◌, ℕ, ◌<◌, ◌≤◌, ℤ, length, pos, IfOk, slice_index, slice_index_or, unsigned_abs};
ghost use Rattle.blocks.specs.Lone.{verdict_in};
ghost use Rattle.hourfile.specs.Files.{file_verdict};
ghost use Rattle.hourfile.specs.HourAnswers.{Settles};
ghost use Rattle.hourfile.specs.Hours.{shared_line, sum_below};
ghost use Rattle.hourfile.specs.Lines.{line_of, no_lines};
ghost use Rattle.hourfile.specs.Tallies.{grains_on, no_tally};
ghost use Rattle.hourfile.specs.declared.lines.Line.{Line};
ghost use Rattle.hourfile.specs.declared.lines.Lines.{Lines};
ghost use Rattle.market.specs.Cents.{nearest_cent};
ghost use Rattle.pools.specs.Sharing.{Shared, weights};

use crate::hour_lines::HourLines;
use crate::hour_number::Hour;
use crate::lines::Lines;
use crate::owners::Owners;
use crate::tallies::tallies;
use crate::tally::Tally;
use blocks::fault::FileFault;
use pools::basis::Basis;
use pools::pool::{Pool, Shares, share};
use pools::withdrawals::Withdrawals;
use std::array;

/// The own lines of a place: those of its owner, or nothing.
fn own_lines_at(owned: &[Tally], place: usize) -> Lines
    ensures { (line : Line) → line_of result line ≡ nearest_cent (grains_on (slice_index_or owned.now place no_tally) line) }
{
    owned
        .get(place)
        .map_or(Lines::none(), |tally| tally.rounded())
}

/// The own lines of every place. The operator has none.
fn own_lines(owned: &[Tally]) -> [Lines; 33]
    requires { length owned.now ≤ 32 }
    ensures whole { length result ≡ 33 }
    ensures lines { (place : ℕ) (line : Line) → line_of (slice_index_or result place no_lines) line ≡ nearest_cent (grains_on (slice_index_or owned.now place no_tally) line) }
{
    array::from_fn(|place| own_lines_at(owned, place))
}

/// What the owners withdrew.
fn withdrawals(tallies: &[Tally; 32], owners: Owners) -> Withdrawals
    ensures count { result.owners ≡ owners.number }
    ensures quantities { (place : ℕ) → slice_index result.quantities place ≡ (slice_index_or tallies.now place no_tally).withdrawn }
{
    Withdrawals {
        quantities: array::from_fn(|place| tallies[place].withdrawn),
        owners: owners.number as usize,
    }
}

/// A part of the lines of all owners together.
fn total<F: Fn(Lines) -> i64>(owned: &[Lines], part: F) -> i64
    requires few { length owned.now ≤ 32 }
    requires callable { (place : ℕ) → place < length owned.now → F.pre part (slice_index_or owned.now place no_lines) }
    requires small { (place : ℕ) (z : ℤ) → place < length owned.now → F.post part (slice_index_or owned.now place no_lines) z → unsigned_abs z ≤ 18000000000 }
    ensures exact { (amount : Lines → ℤ) → ((lines : Lines) (z : ℤ) → F.post part lines z → z ≡ amount lines) → result ≡ sum_below (λ place. amount (slice_index_or owned.now place no_lines)) (length owned.now) }
    ensures bound { unsigned_abs result ≤ 1000000000000 }
{
    let mut total = 0;
    for lines in owned {
        total += part(*lines);
    }
    total
}

/// Strikes a pool of an amount and shares it out.
fn shared<B: Basis>(amount: i64, basis: &B, withdrawn: &Withdrawals) -> Shares
    requires { unsigned_abs amount ≤ 14000000000 }
    ensures { Shared amount (weights B.weighs basis.now withdrawn.now.quantities) withdrawn.now.owners result.owners result.operator }
{
    share(Pool::strike(amount).unwrap(), basis, withdrawn)
}

/// Gives every place its parts in the pools, the operator last.
fn add_parts(places: &mut [Lines; 33], owners: Owners, uplift: &Shares, residual: &Shares)
    requires small { (place : ℕ) → unsigned_abs (slice_index_or uplift.now.owners place (pos 0)) ≤ 14000000000 }
    requires operated { unsigned_abs uplift.now.operator ≤ 14000000000 }
    ensures owned { (place : ℕ) (line : Line) → place < owners.number → line_of (slice_index_or places.new place no_lines) line ≡ shared_line (line_of (slice_index_or places.old place no_lines)) (slice_index_or uplift.now.owners place (pos 0)) (slice_index_or residual.now.owners place (pos 0)) line }
    ensures operator { (line : Line) → line_of (slice_index_or places.new owners.number no_lines) line ≡ shared_line (line_of (slice_index_or places.old owners.number no_lines)) uplift.now.operator residual.now.operator line }
    ensures others { (place : ℕ) → owners.number < place → slice_index_or places.new place no_lines ≡ slice_index_or places.old place no_lines }
{
    let count = owners.number as usize;
    // With `iter_mut().zip(..)` the proof did not close: after the loop it knows nothing of what was written.
    for (place, lines) in places[..count].iter_mut().enumerate() {
        lines.set_parts(uplift.owners[place], residual.owners[place]);
    }
    places[count].set_parts(uplift.operator, residual.operator);
}

/// The eight lines of every place of an hour, or the first fault of its file. Lines 1 to 6 are summed over a place's positions and
/// rounded once; the uplift pool, lines 4 to 6 of all owners, and the residual pool, minus their lines 1 to 3, are struck and shared.
pub fn settle<U: Basis, R: Basis>(
    file: &[u8],
    owners: Owners,
    uplift: &U,
    residual: &R,
) -> Result<HourLines, FileFault>
    ensures verdict { verdict_in result ≡ file_verdict file.now owners.number }
    ensures settles { IfOk result (Settles file.now owners.number (U.Basis.weighs uplift.now) (R.Basis.weighs residual.now)) }
{
    let tallies = tallies(file, owners)?;
    let count = owners.number as usize;
    let withdrawn = withdrawals(&tallies, owners);
    let mut places = own_lines(&tallies[..count]);
    let owned = &places[..count];
    let uplift_pool = total(owned, Lines::uplift_part);
    let residual_pool = -total(owned, Lines::trade_part);
    let uplift_shares = shared(uplift_pool, uplift, &withdrawn);
    let residual_shares = shared(residual_pool, residual, &withdrawn);
    add_parts(&mut places, owners, &uplift_shares, &residual_shares);
    Ok(HourLines {
        hour: Hour {
            number: u32::from(file[2]),
        },
        places,
    })
}
