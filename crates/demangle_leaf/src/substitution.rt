//! The reader that looks at the table.

ghost use Rattle.demangle_leaf_nodes.specs.TreeLeaves.{tree_of_substitution};
ghost use Rattle.demangle_table.specs.TableOf.{table_of};
ghost use Rattle.demangle_grammar.specs.Rule.{Row};
ghost use Rattle.demangle_leaf_rows.specs.Answers.{AnswersRow};
ghost use Rattle.demangle_leaf_rows.specs.Context.{Keeps, levels_left};
ghost use Rattle.demangle_leaf_rows.specs.Deepest.{Deepens};

use demangle_leaf_nodes::Substitution;
use demangle_leaf_rows::{ParseContext, substitution_in};
use demangle_table::SubstitutionTable;
use demangle_text::{IndexStr, Result};

/// A reference to a numbered component of the table, or a word for one, ABI section 5.1.10, <substitution>. A
/// component that isn't in the table is `BadBackReference`, which is judged before the closing `_`. Each other
/// refusal is the row's, and the level is as before after every answer; the deepest level is raised by the row's.
pub fn read_substitution<'b>(
    ctx: &mut ParseContext,
    subs: &SubstitutionTable,
    input: IndexStr<'b>,
) -> Result<(Substitution, IndexStr<'b>)>
    ensures reads { let table = table_of subs.now in
        AnswersRow tree_of_substitution Row.substitution
        (levels_left ctx.old) ctx.old.conversion input.entry result table }
    ensures deepest { Deepens Row.substitution ctx.old ctx.new input.entry result (table_of subs.now) }
    ensures context { Keeps ctx.old ctx.new }
{
    substitution_in(ctx, subs.len(), input)
}
