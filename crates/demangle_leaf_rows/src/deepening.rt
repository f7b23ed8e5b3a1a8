//! Readings in a context: with as few levels as they need, so that the deepest level is known.

ghost use Rattle.std.specs.Prelude.{◌≡◌, ℕ};
ghost use Rattle.demangle_core.specs.Core.{N};
ghost use Rattle.demangle_core.specs.Table.{Table, size};
ghost use Rattle.demangle_leaf_nodes.specs.TreeLeaves.{tree_of_substitution};
ghost use Rattle.demangle_grammar.specs.Rule.{Row};
ghost use Rattle.demangle_leaf_rows.specs.Answers.{AnswersRow};
ghost use Rattle.demangle_leaf_rows.specs.Context.{AnswersInContext, Keeps, levels_left};
ghost use Rattle.demangle_leaf_rows.specs.Deepened.{Deepened};
ghost use Rattle.demangle_leaf_rows.specs.Deepest.{Deepens, DeepensLeaf};

use crate::context::ParseContext;
use crate::depth::Depth;
use crate::numbers::substitution;
use crate::read_leaf::ReadLeaf;
use demangle_leaf_nodes::Substitution;
use demangle_text::{Error, IndexStr, Result};

/// What is read with one level more each time, until they are enough or there are no more: a reading that ends at the
/// first level too many has read little.
pub fn deepening<X, F: Fn(Depth) -> Result<X>>(ctx: &mut ParseContext, read: F) -> Result<X>
    requires { F.IsAlwaysCallable read }
    ensures { Deepened (λ n r. F.post read (record { levels = n; conversion = ctx.old.conversion }) r)
        ctx.old ctx.new result }
{
    let Depth { levels, conversion } = ctx.depth();
    for few in 0..levels {
        let depth = Depth {
            levels: few,
            conversion,
        };
        match read(depth) {
            Err(Error::TooMuchRecursion) => {}
            answer => {
                ctx.raise_by(few);
                return answer;
            }
        }
    }
    ctx.raise_by(levels);
    read(Depth { levels, conversion })
}

/// A node whose row needs no recursion, no memory and no component of the table, in a context.
pub fn read_leaf_in<'b, X: ReadLeaf>(
    ctx: &mut ParseContext,
    input: IndexStr<'b>,
) -> Result<(X, IndexStr<'b>)>
    ensures reads { AnswersInContext X.ReadLeaf.leaf_tree X.ReadLeaf.leaf_row ctx.old input.entry result }
    ensures deepest { DeepensLeaf X.ReadLeaf.leaf_row ctx.old ctx.new input.entry result }
    ensures context { Keeps ctx.old ctx.new }
{
    deepening(ctx, |depth| X::read_leaf(depth, input))
}

/// A reference to a numbered component of a table that has so many, or a word for one, in a context.
pub fn substitution_in<'b>(
    ctx: &mut ParseContext,
    components: usize,
    input: IndexStr<'b>,
) -> Result<(Substitution, IndexStr<'b>)>
    ensures reads { (table : Table) → size N table ≡ components
        → AnswersRow tree_of_substitution Row.substitution
        (levels_left ctx.old) ctx.old.conversion input.entry result table }
    ensures deepest { (table : Table) → size N table ≡ components
        → Deepens Row.substitution ctx.old ctx.new input.entry result table }
    ensures context { Keeps ctx.old ctx.new }
{
    deepening(ctx, |depth| substitution(depth, components, input))
}
