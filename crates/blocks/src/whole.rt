//! Whole blocks: 512 bytes, each with its number.

ghost use Rattle.std.specs.Prelude.{◌≡◌, ◌↔◌, length, IfSome, IsSome};
ghost use Rattle.std.specs.Result.{result_map_both};
ghost use Rattle.blocks.specs.Firsts.{if_found, unless};
ghost use Rattle.blocks.specs.Records.{body_opened, fault_at, record_of};
ghost use Rattle.blocks.specs.Words.{byte_at};

use crate::fault::{BlockFault, Rule};
use crate::kind::Kind;
use crate::record::BLOCK;

/// A whole block: its bytes, and its number.
#[derive(Clone, Copy, Debug, PartialEq, Eq)]
pub(crate) struct Block<'a> {
    pub(crate) part: &'a [u8; BLOCK],
    pub(crate) number: usize,
}

/// The body of a block, which is all of it but its check: a whole block by the kind that its first byte names.
#[derive(Clone, Copy, Debug, PartialEq, Eq)]
pub(crate) struct Body<'a> {
    pub(crate) kind: Kind,
    pub(crate) block: Block<'a>,
}

impl<'a> Block<'a> {
    /// The block of a part of a file, where that is a whole one.
    pub(crate) fn new(part: &'a [u8], number: usize) -> Option<Block<'a>>
        ensures whole { IsSome result ↔ (length part.now ≡ 512) }
        ensures part { IfSome result (λ block. block.part.now ≡ part.now) }
        ensures number { IfSome result (λ block. block.number ≡ number) }
    {
        Some(Block {
            part: part.as_array()?,
            number,
        })
    }

    /// The fault of a rule at a word.
    pub(crate) fn fault(&self, rule: Rule, word: usize) -> BlockFault
        ensures { result ≡ fault_at rule self.now.number word }
    {
        BlockFault {
            rule,
            block: self.number,
            word,
        }
    }

    /// The fault of a rule at a word, unless the rule is kept.
    pub(crate) fn fault_unless(&self, kept: bool, rule: Rule, word: usize) -> Result<(), BlockFault>
        ensures { result ≡ unless kept (fault_at rule self.now.number word) }
    {
        kept.then_some(()).ok_or(self.fault(rule, word))
    }

    /// The fault of a rule at the word that was found to break it, if one was.
    pub(crate) fn fault_if_found(&self, found: Option<usize>, rule: Rule) -> Result<(), BlockFault>
        ensures { result ≡ if_found found (fault_at rule self.now.number) }
    {
        let block = self.number;
        found.map_or(Ok(()), |word| Err(BlockFault { rule, block, word }))
    }

    /// The body, where the first byte names a kind.
    pub(crate) fn body(&self) -> Result<Body<'a>, BlockFault>
        ensures { result_map_both body_opened (λ fault. fault) result ≡ record_of self.now.part.now self.now.number }
    {
        let kind = Kind::named(char::from(self.part[0])).ok_or(self.fault(Rule::Kind, 0))?;
        Ok(Body { kind, block: *self })
    }
}

impl Body<'_> {
    /// The side letter.
    pub(crate) fn side(&self) -> char
        ensures { result ≡ byte_at self.now.block.part.now 1 }
    {
        char::from(self.block.part[1])
    }
}
