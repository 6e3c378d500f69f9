//! Words of a whole block: four bytes, least first, signed.

ghost use Rattle.std.specs.Prelude.{◌≡◌, ◌<◌};
ghost use Rattle.blocks.specs.Words.{with_word, word_at};

use crate::record::BLOCK;

/// A word; 0 past the end of the block.
// As its definition says; the public `Record::word` answers an `Option`.
pub(crate) fn word(part: &[u8; BLOCK], i: usize) -> i32
    ensures { result ≡ word_at part.now i }
{
    let (words, _) = part.as_chunks::<4>();
    words.get(i).map_or(0, |bytes| i32::from_le_bytes(*bytes))
}

pub(crate) fn put_word(part: &mut [u8; BLOCK], i: usize, value: i32)
    requires { i < 128 }
    ensures { part.new ≡ with_word part.old i value }
{
    let at = 4 * i;
    part[at..at + 4].copy_from_slice(&value.to_le_bytes());
}
