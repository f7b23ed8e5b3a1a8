//! A node that is read over an arena.

ghost use Rattle.std.specs.Prelude.{◌≡◌, ◌+◌, ℕ, [], map, take, drop, length, MatchResult, OnErr};
ghost use Rattle.demangle_text.specs.Spot.{spot};
ghost use Rattle.demangle_text.specs.declared.error.Error.TheVariants.{OutOfMemory};
ghost use Rattle.demangle_core.specs.Core.{Core};
ghost use Rattle.demangle_core.specs.Table.{cut, sizes};
ghost use Rattle.demangle_grammar.specs.Code.{here, cread};
ghost use Rattle.demangle_table.specs.TableOf.{table_of};
ghost use Rattle.demangle_leaf_rows.specs.Answers.{AnswersOrOutOfMemory};
ghost use Rattle.demangle_leaf_rows.specs.Context.{Keeps};
ghost use Rattle.demangle_leaf_rows.specs.Deepest.{Deepens};
ghost use Rattle.demangle_cells.specs.View.{view, entry, table, Holds};
ghost use Rattle.demangle_parse.specs.Adds.{HasTable};
ghost use Rattle.demangle_parse.specs.Reading.{reading_in};

use crate::divided::divided;
use crate::entries::take_entries;
use crate::levels::levels_in;
use crate::padded::padded;
use crate::read_cells::ReadCells;
use crate::table::arena_of;
use demangle_cells::{Arena, Depth, Text, each_arena_has_a_model};
use demangle_leaf_rows::ParseContext;
use demangle_table::SubstitutionTable;
use demangle_text::{Error, IndexStr, Result};
use std::alloc::Global;

/// The node whose tree has this index, and the components behind the first `count`, which go to the table. Where it
/// fails the table may have some of them. `OutOfMemory` is its only refusal.
pub fn taken_out<X: ReadCells>(
    alloc: Global,
    arena: &Arena,
    count: usize,
    id: u32,
    subs: &mut SubstitutionTable,
) -> Result<X>
    ensures kept { cut (sizes (table_of subs.old)) (table_of subs.new) ≡ table_of subs.old }
    ensures made { MatchResult result
        (λ x. (F : ℕ → Core) → Holds F (view arena.now)
        → map (entry F) (take count (view arena.now).entries) ≡ table_of subs.old
        → (F id ≡ X.ReadCells.tree x) × (table F (view arena.now) ≡ table_of subs.new))
        (λ e. e ≡ OutOfMemory) }
{
    let (_, new) = divided(arena.entries(), count);
    take_entries(alloc, arena, new, subs)?;
    X::from_cells(alloc, arena, id)
}

/// The node at the front of the input, which stands in the text at its index, and the rest behind it, with so many
/// levels.
fn read_out<'b, X: ReadCells>(
    alloc: Global,
    arena: &mut Arena,
    depth: Depth,
    subs: &mut SubstitutionTable,
    input: IndexStr<'b>,
    text: Text<'_>,
) -> Result<(X, IndexStr<'b>)>
    requires at_index { drop (spot input).index text.bytes.now ≡ (spot input).left }
    requires whole { length text.bytes.now ≡ (spot input).index + length (spot input).left }
    requires table { HasTable (view arena.old) (table_of subs.old) }
    ensures reads { AnswersOrOutOfMemory X.ReadCells.tree result (table_of subs.new)
        (cread depth.levels X.ReadCells.row depth.conversion (here (spot input.entry) (table_of subs.old)) []) }
    ensures tables { OnErr result (table_of subs.new ≡ table_of subs.old) }
{
    let count = arena.entries().len();
    let answer = X::read_row(arena, depth, text, input.index() as u32);
    each_arena_has_a_model(arena);
    let part = answer?;
    let rest = input.range_from(part.end as usize - input.index()..);
    let lengths = subs.lengths();
    match taken_out(alloc, arena, count, part.id, subs) {
        Ok(node) => Ok((node, rest)),
        Err(error) => {
            subs.cut_back(lengths);
            Err(error)
        }
    }
}

/// The node at the front of the input, which stands in the bytes at its index, and the rest behind it. The deepest
/// level that its row enters raises the context's.
fn parsed_in<'b, X: ReadCells>(
    alloc: Global,
    ctx: &mut ParseContext,
    subs: &mut SubstitutionTable,
    input: IndexStr<'b>,
    bytes: &[u8],
) -> Result<(X, IndexStr<'b>)>
    requires at_index { drop (spot input).index bytes.now ≡ (spot input).left }
    requires whole { length bytes.now ≡ (spot input).index + length (spot input).left }
    ensures reads { AnswersOrOutOfMemory X.ReadCells.tree result (table_of subs.new)
        (reading_in ctx.old X.ReadCells.row input.entry (table_of subs.old)) }
    ensures tables { OnErr result (table_of subs.new ≡ table_of subs.old) }
    ensures deepest { Deepens X.ReadCells.row ctx.old ctx.new input.entry result (table_of subs.old) }
    ensures context { Keeps ctx.old ctx.new }
{
    let text = match Text::new(bytes) {
        Some(text) => text,
        None => return Err(Error::OutOfMemory),
    };
    let mut arena = arena_of(alloc, subs)?;
    let left = ctx.depth();
    let conversion = left.conversion;
    let most = Depth {
        levels: left.levels,
        conversion,
    };
    let levels = levels_in::<X>(
        &mut arena,
        most,
        ctx.levels_known(),
        text,
        input.index() as u32,
    )?;
    ctx.raise_by(levels);
    read_out(
        alloc,
        &mut arena,
        Depth { levels, conversion },
        subs,
        input,
        text,
    )
}

/// The node at the front of the input and the rest behind it. Its components go to the end of the table; a refusal
/// leaves the table as it was, and is the reading's or `OutOfMemory`, which an input that ends at 2^32 or behind is
/// always answered.
pub fn parsed<'b, X: ReadCells>(
    alloc: Global,
    ctx: &mut ParseContext,
    subs: &mut SubstitutionTable,
    input: IndexStr<'b>,
) -> Result<(X, IndexStr<'b>)>
    ensures reads { AnswersOrOutOfMemory X.ReadCells.tree result (table_of subs.new)
        (reading_in ctx.old X.ReadCells.row input.entry (table_of subs.old)) }
    ensures tables { OnErr result (table_of subs.new ≡ table_of subs.old) }
    ensures deepest { Deepens X.ReadCells.row ctx.old ctx.new input.entry result (table_of subs.old) }
    ensures context { Keeps ctx.old ctx.new }
{
    if input.index() == 0 {
        return parsed_in(alloc, ctx, subs, input, input.as_slice());
    }
    let bytes = padded(alloc, input)?;
    parsed_in(alloc, ctx, subs, input, bytes.as_slice())
}
