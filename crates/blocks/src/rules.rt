//! The rules of words: each looks for the lowest word of a block that breaks it.

ghost use Rattle.blocks.specs.Kinds.{is_unused};
ghost use Rattle.blocks.specs.Records.{body_opened};
ghost use Rattle.blocks.specs.Rules.{BreaksFirst};
ghost use Rattle.blocks.specs.Verdicts.{range_verdict, schedule_verdict, unused_verdict};
ghost use Rattle.std.specs.Prelude.{◌≡◌};

use crate::fault::{BlockFault, Rule};
use crate::kind::{Kind, Ladder, scheduled};
use crate::whole::{Block, Body};
use crate::word::word;

/// Whether a word is not used in a block of this kind, with so many rows.
fn is_unused(kind: Kind, energy_rows: u32, reserve_rows: u32, i: usize) -> bool
    ensures { result ≡ is_unused kind energy_rows reserve_rows i }
{
    match kind {
        Kind::Header => i >= 15,
        Kind::Virtual => i >= 3,
        Kind::Resource => (68 + 2 * energy_rows as usize..108).contains(&i)
            || i >= 108 + 2 * reserve_rows as usize,
    }
}

impl Block<'_> {
    /// The lowest of words 1 to 126 that breaks a rule, which says so of a word by its number and its value.
    fn first_breach<F: Fn(usize, i32) -> bool>(&self, breaks: F) -> Option<usize>
        requires { F.IsAlwaysCallable breaks }
        ensures { BreaksFirst (F.post breaks) self.now.part.now result }
    {
        let part = self.part;
        (1..127).find(|&i| breaks(i, word(part, i)))
    }
}

impl Body<'_> {
    /// Each figure is in its range.
    pub(crate) fn check_ranges(&self) -> Result<(), BlockFault>
        ensures { result ≡ range_verdict (body_opened self.now) }
    {
        let kind = self.kind;
        let found = self.block.first_breach(|i, value| {
            kind.figure(i)
                .is_some_and(|figure| figure.check(value).is_err())
        });
        self.block.fault_if_found(found, Rule::Range)
    }

    /// No day-ahead quantity or schedule of a resource passes the last end of its ladder.
    pub(crate) fn check_schedules(&self) -> Result<(), BlockFault>
        ensures { result ≡ schedule_verdict (body_opened self.now) }
    {
        let Kind::Resource = self.kind else {
            return Ok(());
        };
        let energy_end = self.block.last_end(Ladder::Energy);
        let reserve_end = self.block.last_end(Ladder::Reserve);
        let found = self.block.first_breach(|i, value| match scheduled(i) {
            Some(Ladder::Energy) => energy_end < value,
            Some(Ladder::Reserve) => reserve_end < value,
            None => false,
        });
        self.block.fault_if_found(found, Rule::Schedule)
    }

    /// Each unused word is 0.
    pub(crate) fn check_unused(&self) -> Result<(), BlockFault>
        ensures { result ≡ unused_verdict (body_opened self.now) }
    {
        let kind = self.kind;
        let energy_rows = self.block.row_count(Ladder::Energy);
        let reserve_rows = self.block.row_count(Ladder::Reserve);
        let found = self.block.first_breach(|i, value| {
            value != 0 && is_unused(kind, energy_rows, reserve_rows, i)
        });
        self.block.fault_if_found(found, Rule::Unused)
    }
}
