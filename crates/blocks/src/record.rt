//! Opened records: each is a part of the file with its block number.

ghost use Rattle.blocks.specs.Records.{body_opened, opened, word_of};
ghost use Rattle.std.specs.Prelude.{◌≡◌};

use crate::kind::Kind;
use crate::whole::{Block, Body};
use crate::word::word;

/// The bytes of a block.
pub const BLOCK: usize = 512;

/// The words of a block.
pub const WORDS: usize = 128;

/// A record, by the kind that its first byte names: its 512-byte part of the file, and the number of its block.
#[derive(Clone, Copy, Debug, PartialEq, Eq)]
pub enum Record<'a> {
    Header { part: &'a [u8], block: usize },
    Resource { part: &'a [u8], block: usize },
    Virtual { part: &'a [u8], block: usize },
}

impl<'a> From<Body<'a>> for Record<'a> {
    ghost from_gives = { λ body rec. opened rec ≡ body_opened body };

    fn from(body: Body<'a>) -> Record<'a> {
        let Block {
            part,
            number: block,
        } = body.block;
        match body.kind {
            Kind::Header => Record::Header { part, block },
            Kind::Resource => Record::Resource { part, block },
            Kind::Virtual => Record::Virtual { part, block },
        }
    }
}

impl<'a> Record<'a> {
    pub fn kind(&self) -> Kind
        ensures { result ≡ (opened self.now).kind }
    {
        match self {
            Record::Header { .. } => Kind::Header,
            Record::Resource { .. } => Kind::Resource,
            Record::Virtual { .. } => Kind::Virtual,
        }
    }

    pub fn part(&self) -> &'a [u8]
        ensures { result.now ≡ (opened self.now).part }
    {
        match self {
            Record::Header { part, .. }
            | Record::Resource { part, .. }
            | Record::Virtual { part, .. } => part,
        }
    }

    pub fn block(&self) -> usize
        ensures { result ≡ (opened self.now).block }
    {
        match self {
            Record::Header { block, .. }
            | Record::Resource { block, .. }
            | Record::Virtual { block, .. } => *block,
        }
    }

    /// A word of the record, where its part is a whole block that has the word.
    pub fn word(&self, i: usize) -> Option<i32>
        ensures { result ≡ word_of (opened self.now) i }
    {
        let block = Block::new(self.part(), self.block())?;
        (i < WORDS).then_some(word(block.part, i))
    }
}
