//! Words of the grammar.

ghost use Rattle.demangle_text.specs.Kind.{Gives};
ghost use Rattle.demangle_text.specs.Spot.{spot};
ghost use Rattle.demangle_text.specs.Word.{word_at};

use crate::error::{Error, Result};
use crate::index_str::IndexStr;

/// The rest of the input after a word. `UnexpectedEnd` exactly where fewer bytes are left than the word has, else
/// `UnexpectedText` exactly where they are others.
#[tactic(auto, using(crate::proofs::Starts::words), unfolding(crate::specs::Word::word_at))]
pub fn consume<'a>(word: &[u8], input: IndexStr<'a>) -> Result<IndexStr<'a>>
    ensures { Gives spot result (word_at word.now (spot input.entry)) }
{
    let Some((front, rest)) = input.try_split_at(word.len()) else {
        return Err(Error::UnexpectedEnd);
    };
    if front.as_slice() == word {
        Ok(rest)
    } else {
        Err(Error::UnexpectedText)
    }
}
