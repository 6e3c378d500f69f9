//! Which fault a block has: its rules, in their order.

ghost use Rattle.blocks.specs.Records.{body_opened, record_of};
ghost use Rattle.blocks.specs.Verdicts.{block_verdict, body_verdict, check_verdict, hour_verdict, kind_verdict, number_verdict, place_verdict, record_verdict};
ghost use Rattle.std.specs.Prelude.{◌≡◌, IfErr, IfOk};

use crate::check::check_sum;
use crate::fault::{BlockFault, Rule};
use crate::limits::Limits;
use crate::whole::{Block, Body};
use crate::word::word;

const CHECK_WORD: usize = 127;

impl<'a> Block<'a> {
    /// The check is right.
    fn check_check(&self) -> Result<(), BlockFault>
        ensures { result ≡ check_verdict self.now.number self.now.part.now }
    {
        let right = word(self.part, CHECK_WORD) == check_sum(self.part) as i32;
        self.fault_unless(right, Rule::Check, CHECK_WORD)
    }

    /// The body of the block, if it keeps all rules but that of the check.
    pub(crate) fn checked_body(&self, limits: &Limits) -> Result<Body<'a>, BlockFault>
        ensures passes { IfOk result (λ _. body_verdict limits.now self.now.number self.now.part.now ≡ Ok tt) }
        ensures opens { IfOk result (λ body. record_of self.now.part.now self.now.number ≡ Ok (body_opened body)) }
        ensures faulty { IfErr result (λ fault. body_verdict limits.now self.now.number self.now.part.now ≡ Err fault) }
    {
        let body = self.body()?;
        body.check(limits)?;
        Ok(body)
    }

    /// The body of the block, if it keeps all rules.
    pub(crate) fn checked(&self, limits: &Limits) -> Result<Body<'a>, BlockFault>
        ensures passes { IfOk result (λ _. block_verdict limits.now self.now.number self.now.part.now ≡ Ok tt) }
        ensures opens { IfOk result (λ body. record_of self.now.part.now self.now.number ≡ Ok (body_opened body)) }
        ensures faulty { IfErr result (λ fault. block_verdict limits.now self.now.number self.now.part.now ≡ Err fault) }
    {
        self.check_check()?;
        self.checked_body(limits)
    }
}

impl Body<'_> {
    /// The kind and the side letter.
    fn check_kind(&self, limits: &Limits) -> Result<(), BlockFault>
        ensures { result ≡ kind_verdict limits.now (body_opened self.now) }
    {
        let allowed = limits.may_stand(self.kind) && self.kind.takes_side(self.side());
        self.block.fault_unless(allowed, Rule::Kind, 0)
    }

    /// The hour.
    fn check_hour(&self, limits: &Limits) -> Result<(), BlockFault>
        ensures { result ≡ hour_verdict limits.now (body_opened self.now) }
    {
        let fits = (limits.hour_from..=limits.hour_to).contains(&self.block.part[2]);
        self.block.fault_unless(fits, Rule::Hour, 0)
    }

    /// The number of owners, or the place.
    fn check_place(&self, limits: &Limits) -> Result<(), BlockFault>
        ensures { result ≡ place_verdict limits.now (body_opened self.now) }
    {
        let fits = limits.place_fits(self.kind, u32::from(self.block.part[3]));
        self.block.fault_unless(fits, Rule::Place, 0)
    }

    /// The number of following blocks, or the position number.
    fn check_number(&self, limits: &Limits) -> Result<(), BlockFault>
        ensures { result ≡ number_verdict limits.now (body_opened self.now) }
    {
        let fits = limits.number_fits(self.kind, word(self.block.part, 1));
        self.block.fault_unless(fits, Rule::Number, 1)
    }

    /// All rules but that of the check.
    fn check(&self, limits: &Limits) -> Result<(), BlockFault>
        ensures { result ≡ record_verdict limits.now (body_opened self.now) }
    {
        self.check_kind(limits)?;
        self.check_hour(limits)?;
        self.check_place(limits)?;
        self.check_number(limits)?;
        self.check_ranges()?;
        self.check_rows()?;
        self.check_schedules()?;
        self.check_unused()
    }
}
