//! How many levels a reading needs. Readers over an arena count none, so they are tried with few and with more: those
//! that have too few answer `TooMuchRecursion`, and with more than are needed nothing changes.

ghost use Rattle.std.specs.Prelude.{◌≡◌, ◌≤◌, ◌<◌, ℕ, IfErr, IfOk};
ghost use Rattle.demangle_text.specs.declared.error.Error.TheVariants.{OutOfMemory};
ghost use Rattle.demangle_core.specs.Table.{Table};
ghost use Rattle.demangle_cells.specs.View.{view};
ghost use Rattle.demangle_parse.specs.Adds.{HasTable};
ghost use Rattle.demangle_parse.specs.Levels.{Brackets, Needs, Tells, read_at};

use crate::read_cells::ReadCells;
use demangle_cells::{Arena, Depth, Text, each_arena_has_a_model};
use demangle_text::{Error, Result};

/// Whether the row needs more levels than so many. The components are as before. `OutOfMemory` is its only refusal.
fn needs_more<X: ReadCells>(
    arena: &mut Arena,
    depth: Depth,
    text: Text<'_>,
    at: u32,
) -> Result<bool>
    ensures kept { (whole : Table) → HasTable (view arena.old) whole → HasTable (view arena.new) whole }
    ensures tells { (whole : Table) → HasTable (view arena.old) whole → IfOk result (λ more.
        Tells more (read_at X.ReadCells.row depth.conversion text.entry at whole depth.levels)) }
    ensures refused { IfErr result (λ e. e ≡ OutOfMemory) }
{
    let mark = arena.mark();
    let answer = X::read_row(arena, depth, text, at);
    each_arena_has_a_model(arena);
    arena.cut_back(mark);
    match answer {
        Err(Error::TooMuchRecursion) => Ok(true),
        Err(Error::OutOfMemory) => Err(Error::OutOfMemory),
        _ => Ok(false),
    }
}

/// How many levels the row needs: of two bounds the lower one is too few, and the upper one enough or all that there
/// are.
fn levels_between<X: ReadCells>(
    arena: &mut Arena,
    conversion: bool,
    bounds: (u32, u32),
    text: Text<'_>,
    at: u32,
) -> Result<u32>
    ensures kept { (whole : Table) → HasTable (view arena.old) whole → HasTable (view arena.new) whole }
    ensures needs { (few most : ℕ) (whole : Table) → HasTable (view arena.old) whole
        → Brackets few most bounds.0 bounds.1 (read_at X.ReadCells.row conversion text.entry at whole)
        → IfOk result (λ n. Needs few most n (read_at X.ReadCells.row conversion text.entry at whole)) }
    ensures refused { IfErr result (λ e. e ≡ OutOfMemory) }
{
    let (mut low, mut high) = bounds;
    while high.saturating_sub(low) > 1 {
        let levels = low + (high - low) / 2;
        if needs_more::<X>(arena, Depth { levels, conversion }, text, at)? {
            low = levels;
        } else {
            high = levels;
        }
    }
    Ok(high)
}

/// More levels than so many, by half of them and some, but no more than there are.
fn more_levels(levels: u32, most: u32) -> u32
    requires { levels < most }
    ensures more { levels < result }
    ensures left { result ≤ most }
{
    let more = levels.saturating_add(levels / 2).saturating_add(4);
    if more < most { more } else { most }
}

/// From so few levels upwards the last that were too few, and the first that are enough or all that there are; or so
/// few as both, where they are enough.
fn levels_around<X: ReadCells>(
    arena: &mut Arena,
    depth: Depth,
    few: u32,
    text: Text<'_>,
    at: u32,
) -> Result<(u32, u32)>
    requires { few ≤ depth.levels }
    ensures kept { (whole : Table) → HasTable (view arena.old) whole → HasTable (view arena.new) whole }
    ensures bounds { (whole : Table) → HasTable (view arena.old) whole → IfOk result (λ b.
        Brackets few depth.levels b.0 b.1 (read_at X.ReadCells.row depth.conversion text.entry at whole)) }
    ensures refused { IfErr result (λ e. e ≡ OutOfMemory) }
{
    let conversion = depth.conversion;
    let mut low = few;
    let mut levels = few;
    while levels < depth.levels {
        if !needs_more::<X>(arena, Depth { levels, conversion }, text, at)? {
            return Ok((low, levels));
        }
        low = levels;
        levels = more_levels(levels, depth.levels);
    }
    Ok((low, levels))
}

/// How many levels the row needs, all that there are where it needs more. Where it needs no more than so few, it is
/// so few. `OutOfMemory` is its only refusal.
pub fn levels_in<X: ReadCells>(
    arena: &mut Arena,
    depth: Depth,
    few: u32,
    text: Text<'_>,
    at: u32,
) -> Result<u32>
    requires { few ≤ depth.levels }
    ensures kept { (whole : Table) → HasTable (view arena.old) whole → HasTable (view arena.new) whole }
    ensures needs { (whole : Table) → HasTable (view arena.old) whole → IfOk result (λ n.
        Needs few depth.levels n (read_at X.ReadCells.row depth.conversion text.entry at whole)) }
    ensures refused { IfErr result (λ e. e ≡ OutOfMemory) }
{
    let bounds = levels_around::<X>(arena, depth, few, text, at)?;
    levels_between::<X>(arena, depth.conversion, bounds, text, at)
}
