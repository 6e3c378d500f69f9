//! The figures that the words of a record hold: each is read and made in one place, so that none is used out of its range.

ghost use Rattle.std.specs.Prelude.{◌<◌};
ghost use Rattle.blocks.specs.Records.{opened};
ghost use Rattle.blocks.specs.Words.{word_at};
ghost use Rattle.market.specs.Views.{value_of};
ghost use Rattle.records.specs.Held.{Holds, Reads};

use blocks::record::Record;
use market::figures::{FigureKind, Ranged};

/// The figure that a word holds, if it is one of the kind.
pub(crate) fn figure_at<K: FigureKind>(block: &Record, i: usize) -> Option<Ranged<K>>
    requires { i < 128 }
    ensures { Reads value_of (Holds K.FIGURE (opened block.now) i) (word_at (opened block.now).part i) result }
{
    Ranged::new(block.word(i)?).ok()
}
