//! Qualifiers of functions, and what stands before an explicit object parameter.

ghost use Rattle.std.specs.Prelude.{◌≡◌, Some};
ghost use Rattle.demangle_core.specs.Core.{Core};
ghost use Rattle.demangle_leaf_nodes.specs.TreeLeaves.{tree_of_cv_qualifiers, tree_of_explicit_object_parameter};
ghost use Rattle.demangle_leaf_nodes.specs.TreeLeaves.{tree_of_option, tree_of_ref_qualifier};
ghost use Rattle.demangle_printing.specs.Act.{block, done, space};
ghost use Rattle.demangle_printing.specs.Parameters.{any_set};
ghost use Rattle.demangle_printing.specs.Rules.{line_of};
ghost use Rattle.demangle_printing.specs.Scope.{Scope};
ghost use Rattle.demangle_printing.specs.World.{parts};
ghost use Rattle.demangle_meets.specs.Meets.{Meets, Prints};
ghost use Rattle.demangle_meets.specs.Place.{Refers, world_of};
ghost use Rattle.demangle_print_below.specs.PageOf.{page};
ghost use Rattle.demangle_print_parts.specs.Pieces.{when_there};

use demangle_print_below::Below;
use demangle_scope::{DemangleContext, DemangleWrite};
use demangle_tree::CvQualifiers;
use demangle_vocab::{ExplicitObjectParameter, RefQualifier};

/// Whether any qualifier is there.
pub fn is_qualified(node: &CvQualifiers) -> bool
    ensures { (r : Refers) → result ≡ any_set (world_of r) (parts (world_of r) (tree_of_cv_qualifiers node.now)) }
{
    node.restrict || node.volatile || node.const_
}

/// `&` or `&&` behind a member function.
pub fn ref_qualifier<'subs, W: DemangleWrite, B: Below<'subs, W>>(
    below: B,
    word: &RefQualifier,
    ctx: &mut DemangleContext<'subs, '_, W>,
)
    requires { B.can below }
    ensures { (sc : Scope Core) → Prints (B.at below) (page W.seen ctx.old) (page W.seen ctx.new)
        (tree_of_ref_qualifier word.now) sc }
{
    let Some(_below) = below.enter(ctx) else {
        return;
    };
    ctx.text(word.text());
}

/// `&` or `&&` of a member function with a space before it, where it has one of them.
#[inline(always)]
pub fn reference_mark<'subs, W: DemangleWrite, B: Below<'subs, W>>(
    below: B,
    mark: &Option<RefQualifier>,
    ctx: &mut DemangleContext<'subs, '_, W>,
)
    requires { B.can below }
    ensures { (sc : Scope Core) → Meets (B.at below) (page W.seen ctx.old) (page W.seen ctx.new)
        (when_there (world_of (B.at below).refers) (tree_of_option tree_of_ref_qualifier mark.now)
        (space (block (line_of (world_of (B.at below).refers) (Some (tree_of_option tree_of_ref_qualifier mark.now))
        sc) done))) }
{
    if let Some(word) = mark {
        ctx.space();
        ref_qualifier(below, word, ctx);
    }
}

/// `this` before an explicit object parameter.
pub fn explicit_object_parameter<'subs, W: DemangleWrite, B: Below<'subs, W>>(
    below: B,
    word: &ExplicitObjectParameter,
    ctx: &mut DemangleContext<'subs, '_, W>,
)
    requires { B.can below }
    ensures { (sc : Scope Core) → Prints (B.at below) (page W.seen ctx.old) (page W.seen ctx.new)
        (tree_of_explicit_object_parameter word.now) sc }
{
    let Some(_below) = below.enter(ctx) else {
        return;
    };
    ctx.text(word.text());
}
