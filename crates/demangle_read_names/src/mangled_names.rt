//! Whole mangled names, ABI section 5.1.2, and the names of global constructors and destructors.

ghost use Rattle.std.specs.Prelude.{◌≡◌, ◌≤◌, ◌<◌, ℕ};
ghost use Rattle.demangle_text.specs.Kind.{Gives};
ghost use Rattle.demangle_core.specs.Core.{Core};
ghost use Rattle.demangle_grammar.specs.Rule.{Row};
ghost use Rattle.demangle_grammar.specs.Code.{cread};
ghost use Rattle.demangle_forms.specs.MangledForms.{block_invoke_at, block_word_at, encoding_and_clones_at};
ghost use Rattle.demangle_forms.specs.MangledForms.{encoding_word_at};
ghost use Rattle.demangle_cells.specs.View.{view, Grown};
ghost use Rattle.demangle_cells.specs.Reads.{Reads, ReadsRow, spot_at};

use crate::blocks::block_of;
use crate::lists::clone_suffixes;
use crate::special_words::separator;
use demangle_cells::{Arena, Cell, Depth, Part, Tag, Text};
use demangle_read_below::Below;
use demangle_read_nested::{made, restored};
use demangle_read_rows::word;
use demangle_text::Result;

/// A whole mangled name. One or two underscores stand before the `Z` of an encoding, three or four before that of a
/// block's function. ABI section 5.1.2; blocks, global constructors and types alone are additions of compilers.
///
/// ```text
/// <mangled-name> ::= _Z <encoding> <clone-suffix>* | __Z <encoding> <clone-suffix>*
///                ::= ___Z <encoding> _block_invoke <block number> | ____Z <encoding> _block_invoke <block number>
///                ::= _GLOBAL_ <global-ctor-dtor>
///                ::= <type>
/// ```
#[tactic(auto, using(demangle_cells::proofs::Grows::grows, demangle_forms::proofs::MangledLaws::mangled_name_row_is), unfolding(demangle_forms::specs::MangledForms::mangled_name_row))]
pub fn mangled_name_by<B: Below>(
    below: B,
    arena: &mut Arena,
    depth: Depth,
    text: Text<'_>,
    at: u32,
) -> Result<Part>
    requires can { B.can below }
    requires room { depth.levels ≤ B.most below }
    ensures grown { Grown (view arena.old) (view arena.new) }
    ensures reads { ReadsRow Row.mangled_name depth.levels depth.conversion text.entry at result
        (view arena.old) (view arena.new) }
{
    let depth = depth.enter()?;
    if let Ok(at) = encoding_word(text, at) {
        return encoding_and_clones(below, arena, depth, text, at);
    }
    if let Ok(at) = block_word(text, at) {
        return block_invoke(below, arena, depth, text, at);
    }
    if let Ok(at) = word(text, at, b"_GLOBAL_") {
        let global = global_ctor_dtor(below, arena, depth, text, at)?;
        return made(
            arena,
            Cell::One(Tag::MangledNameGlobalCtorDtor, global.id),
            global.end,
        );
    }
    let ty = below.type_handle(arena, depth, text, at)?;
    made(
        arena,
        Cell::One(Tag::MangledNameTopLevelType, ty.id),
        ty.end,
    )
}

/// Where the text goes on behind the word before an encoding.
#[tactic(auto, unfolding(demangle_forms::specs::MangledForms::encoding_word_at))]
fn encoding_word(text: Text<'_>, at: u32) -> Result<u32>
    ensures { Gives (λ stop. spot_at text.entry stop) result (encoding_word_at (spot_at text.entry at)) }
{
    if let Ok(stop) = word(text, at, b"_Z") {
        return Ok(stop);
    }
    word(text, at, b"__Z")
}

/// Where the text goes on behind the word before the encoding of a block's function.
#[tactic(auto, unfolding(demangle_forms::specs::MangledForms::block_word_at))]
fn block_word(text: Text<'_>, at: u32) -> Result<u32>
    ensures { Gives (λ stop. spot_at text.entry stop) result (block_word_at (spot_at text.entry at)) }
{
    if let Ok(stop) = word(text, at, b"___Z") {
        return Ok(stop);
    }
    word(text, at, b"____Z")
}

/// An encoding and the suffixes of clones, behind the word: `<encoding> <clone-suffix>*`.
#[tactic(auto, using(demangle_cells::proofs::Grows::grows, demangle_cells::proofs::Grows::cuts), unfolding(demangle_forms::specs::MangledForms::encoding_and_clones_at))]
fn encoding_and_clones<B: Below>(
    below: B,
    arena: &mut Arena,
    depth: Depth,
    text: Text<'_>,
    at: u32,
) -> Result<Part>
    requires can { B.can below }
    requires room { depth.levels < B.most below }
    ensures grown { Grown (view arena.old) (view arena.new) }
    ensures reads { Reads text.entry at result (view arena.old) (view arena.new)
        (λ s. encoding_and_clones_at (cread depth.levels) depth.conversion s) }
{
    let mark = arena.mark();
    let encoding = below.encoding(arena, depth, text, at)?;
    let answer = clone_suffixes(arena, depth, text, encoding.end);
    let suffixes = restored(arena, mark, answer)?;
    let cell = Cell::Two(Tag::MangledNameEncoding, encoding.id, suffixes.id);
    made(arena, cell, suffixes.end)
}

/// The function that a block is made into, behind the word: `<encoding> _block_invoke <block number>`.
#[tactic(auto, using(demangle_cells::proofs::Grows::grows, demangle_cells::proofs::Grows::cuts), unfolding(demangle_forms::specs::MangledForms::block_invoke_at))]
fn block_invoke<B: Below>(
    below: B,
    arena: &mut Arena,
    depth: Depth,
    text: Text<'_>,
    at: u32,
) -> Result<Part>
    requires can { B.can below }
    requires room { depth.levels < B.most below }
    ensures grown { Grown (view arena.old) (view arena.new) }
    ensures reads { Reads text.entry at result (view arena.old) (view arena.new)
        (λ s. block_invoke_at (cread depth.levels) depth.conversion s) }
{
    let mark = arena.mark();
    let encoding = below.encoding(arena, depth, text, at)?;
    let answer = block_of(arena, text, encoding);
    restored(arena, mark, answer)
}

/// The function that runs the constructors or destructors of a file's variables, with the name that the file is known
/// by. An addition of compilers.
///
/// ```text
/// <global-ctor-dtor> ::= <_ | . | $> I _ <mangled-name> | <_ | . | $> D _ <mangled-name>
/// ```
#[tactic(auto, using(demangle_cells::proofs::Grows::grows), unfolding(demangle_grammar::specs::Code::cread, demangle_grammar::specs::Rows::rule))]
pub fn global_ctor_dtor<B: Below>(
    below: B,
    arena: &mut Arena,
    depth: Depth,
    text: Text<'_>,
    at: u32,
) -> Result<Part>
    requires can { B.can below }
    requires room { depth.levels ≤ B.most below }
    ensures grown { Grown (view arena.old) (view arena.new) }
    ensures reads { ReadsRow Row.global_ctor_dtor depth.levels depth.conversion text.entry at result
        (view arena.old) (view arena.new) }
{
    let depth = depth.enter()?;
    let at = separator(text, at)?;
    if let Ok(at) = word(text, at, b"I") {
        let at = word(text, at, b"_")?;
        let name = below.mangled_name(arena, depth, text, at)?;
        return made(arena, Cell::One(Tag::GlobalCtorDtorCtor, name.id), name.end);
    }
    let at = word(text, at, b"D")?;
    let at = word(text, at, b"_")?;
    let name = below.mangled_name(arena, depth, text, at)?;
    made(arena, Cell::One(Tag::GlobalCtorDtorDtor, name.id), name.end)
}
