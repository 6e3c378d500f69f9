//! What can be wrong with a block, and with a file of blocks. Each layer has its own type, and holds the fault of the layer below whole.

ghost use Rattle.blocks.specs.Faults.{block_told, file_told};
ghost use Rattle.blocks.specs.Meanings.{block_text, file_text, meaning};
ghost use Rattle.blocks.specs.declared.fault.FileFault.TheVariants.{Block as block_fault};
ghost use Rattle.std.specs.Prelude.{◌≡◌, Some};

use std::error::Error;
use std::fmt;

/// The rules of a block, in the order in which they are tried, each with its number.
#[derive(Clone, Copy, Debug, PartialEq, Eq)]
pub enum Rule {
    Check = 6,
    Kind = 7,
    Hour = 8,
    Place = 9,
    Number = 10,
    Range = 11,
    Rows = 12,
    Schedule = 13,
    Unused = 14,
}

/// The first rule that a block breaks, with the number of the block and the word at fault.
#[derive(Clone, Copy, Debug, PartialEq, Eq)]
pub struct BlockFault {
    pub rule: Rule,
    pub block: usize,
    pub word: usize,
}

/// What is wrong with a file, or with a lone block: it has a wrong length, or one of its blocks is at fault.
#[derive(Clone, Copy, Debug, PartialEq, Eq)]
pub enum FileFault {
    Length,
    Block(BlockFault),
}

/// The layer that a fault belongs to.
#[derive(Clone, Copy, Debug, PartialEq, Eq)]
pub enum Layer {
    Block,
    File,
    Day,
}

/// What a fault tells: its number, its layer, and its block and word, which are 0 where it has none.
// Plain numbers, and no `Option` of a block and a word: a refusal is printed as these numbers.
#[derive(Clone, Copy, Debug, PartialEq, Eq)]
pub struct Refusal {
    pub number: u32,
    pub layer: Layer,
    pub block: usize,
    pub word: usize,
}

impl From<BlockFault> for FileFault {
    ghost from_gives = { λ below fault. fault ≡ block_fault below };

    fn from(fault: BlockFault) -> FileFault {
        FileFault::Block(fault)
    }
}

impl fmt::Display for Rule {
    ghost output = { λ rule. Some (meaning rule) };

    fn fmt<W: fmt::Write>(&self, f: &mut fmt::Formatter<W>) -> fmt::Result {
        f.write_str(match self {
            Rule::Check => "the check is wrong",
            Rule::Kind => "byte 0 or 1 is not allowed here",
            Rule::Hour => "the hour is wrong",
            Rule::Place => "the number of owners or the place is wrong",
            Rule::Number => "the number of blocks or the position number is wrong",
            Rule::Range => "a figure is out of its range",
            Rule::Rows => "a row count or a row is wrong",
            Rule::Schedule => "a schedule passes the last end of its ladder",
            Rule::Unused => "an unused word is not 0",
        })
    }
}

impl fmt::Display for BlockFault {
    ghost output = { λ fault. Some (block_text fault) };

    fn fmt<W: fmt::Write>(&self, f: &mut fmt::Formatter<W>) -> fmt::Result {
        let BlockFault { rule, block, word } = self;
        write!(f, "block {block}, word {word}: {rule}")
    }
}

impl fmt::Display for FileFault {
    ghost output = { λ fault. Some (file_text fault) };

    fn fmt<W: fmt::Write>(&self, f: &mut fmt::Formatter<W>) -> fmt::Result {
        match self {
            FileFault::Length => f.write_str("a wrong length"),
            FileFault::Block(fault) => write!(f, "{fault}"),
        }
    }
}

impl Error for BlockFault {}

impl Error for FileFault {}

impl BlockFault {
    pub fn refusal(&self) -> Refusal
        ensures { result ≡ block_told self.now }
    {
        Refusal {
            number: self.rule as u32,
            layer: Layer::Block,
            block: self.block,
            word: self.word,
        }
    }
}

impl FileFault {
    pub fn refusal(&self) -> Refusal
        ensures { result ≡ file_told self.now }
    {
        match self {
            FileFault::Length => Refusal {
                number: 5,
                layer: Layer::File,
                block: 0,
                word: 0,
            },
            FileFault::Block(fault) => fault.refusal(),
        }
    }
}
