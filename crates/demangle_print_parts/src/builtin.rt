//! Builtin types and qualifiers.

ghost use Rattle.demangle_core.specs.Core.{Core};
ghost use Rattle.demangle_leaf_nodes.specs.TreeLeaves.{tree_of_builtin_type, tree_of_cv_qualifiers};
ghost use Rattle.demangle_leaf_nodes.specs.TreeLeaves.{tree_of_parametric_builtin_type, tree_of_qualified_builtin};
ghost use Rattle.demangle_printing.specs.Act.{done, space, text};
ghost use Rattle.demangle_printing.specs.Reader.{chosen};
ghost use Rattle.demangle_printing.specs.Scope.{Scope};
ghost use Rattle.demangle_meets.specs.Meets.{Meets, Prints};
ghost use Rattle.demangle_meets.specs.Place.{Place};
ghost use Rattle.demangle_scope.specs.ScopeOf.{scope_of};
ghost use Rattle.demangle_print_below.specs.PageOf.{page};
ghost use Rattle.demangle_print_parts.specs.Builtins.{qualifiers};

use crate::identifiers::source_name;
use crate::texts::{number, standard_builtin_type};
use demangle_print_below::{Below, close, non_substitution};
use demangle_scope::{ArgScopeStack, DemangleContext, DemangleWrite, InnerItem};
use demangle_tree::{BuiltinType, CvQualifiers, ParametricBuiltinType, QualifiedBuiltin};

/// A space and this word, where the qualifier is there.
fn word_if<'subs, W: DemangleWrite>(
    is_there: bool,
    word: &str,
    ctx: &mut DemangleContext<'subs, '_, W>,
)
    ensures { (p : Place) → Meets p (page W.seen ctx.old) (page W.seen ctx.new)
        (chosen is_there (space (text word.now done)) done) }
{
    if is_there {
        ctx.space();
        ctx.text(word);
    }
}

/// Qualifiers, each with a space before it, their level entered.
pub fn qualifier_words<'subs, W: DemangleWrite>(
    node: &CvQualifiers,
    ctx: &mut DemangleContext<'subs, '_, W>,
)
    ensures { (p : Place) → Meets p (page W.seen ctx.old) (page W.seen ctx.new) (qualifiers node.now) }
{
    word_if(node.const_, "const", ctx);
    word_if(node.volatile, "volatile", ctx);
    word_if(node.restrict, "restrict", ctx);
}

/// `const`, `volatile` and `restrict`, each with a space before it.
pub fn cv_qualifiers<'subs, W: DemangleWrite, B: Below<'subs, W>>(
    below: B,
    node: &CvQualifiers,
    ctx: &mut DemangleContext<'subs, '_, W>,
)
    requires { B.can below }
    ensures { (sc : Scope Core) → Prints (B.at below) (page W.seen ctx.old) (page W.seen ctx.new)
        (tree_of_cv_qualifiers node.now) sc }
{
    let Some(_below) = below.enter(ctx) else {
        return;
    };
    qualifier_words(node, ctx);
}

/// A builtin type with a width in bits.
pub fn parametric_builtin_type<'subs, W: DemangleWrite, B: Below<'subs, W>>(
    below: B,
    node: &ParametricBuiltinType,
    scope: Option<ArgScopeStack<'_, 'subs>>,
    ctx: &mut DemangleContext<'subs, '_, W>,
)
    requires { B.can below }
    ensures { Prints (B.at below) (page W.seen ctx.old) (page W.seen ctx.new)
        (tree_of_parametric_builtin_type node.now) (scope_of scope.entry) }
{
    let Some(below) = below.enter(ctx) else {
        return;
    };
    match node {
        ParametricBuiltinType::FloatN(bits) => {
            ctx.text("_Float");
            number(*bits, ctx);
        }
        ParametricBuiltinType::FloatNx(bits) => {
            ctx.text("_Float");
            number(*bits, ctx);
            ctx.text("x");
        }
        ParametricBuiltinType::SignedBitInt(bits) => {
            ctx.text("signed _BitInt(");
            number(*bits, ctx);
            ctx.text(")");
        }
        ParametricBuiltinType::UnsignedBitInt(bits) => {
            ctx.text("unsigned _BitInt(");
            number(*bits, ctx);
            ctx.text(")");
        }
        ParametricBuiltinType::SignedBitIntExpression(bits) => {
            ctx.text("signed _BitInt(");
            non_substitution(below, bits, scope, ctx);
            ctx.text(")");
        }
        ParametricBuiltinType::UnsignedBitIntExpression(bits) => {
            ctx.text("unsigned _BitInt(");
            non_substitution(below, bits, scope, ctx);
            ctx.text(")");
        }
    }
}

/// A builtin type.
pub fn builtin_type<'subs, W: DemangleWrite, B: Below<'subs, W>>(
    below: B,
    node: &BuiltinType,
    scope: Option<ArgScopeStack<'_, 'subs>>,
    ctx: &mut DemangleContext<'subs, '_, W>,
)
    requires { B.can below }
    ensures { Prints (B.at below) (page W.seen ctx.old) (page W.seen ctx.new)
        (tree_of_builtin_type node.now) (scope_of scope.entry) }
{
    let Some(below) = below.enter(ctx) else {
        return;
    };
    match node {
        BuiltinType::Standard(word) => standard_builtin_type(below, word, ctx),
        BuiltinType::Parametric(parametric) => {
            parametric_builtin_type(below, parametric, scope, ctx)
        }
        BuiltinType::Extension(name) => source_name(below, name, ctx),
    }
}

/// A builtin type, its qualifiers behind it.
pub fn qualified_builtin<'subs, W: DemangleWrite, B: Below<'subs, W>>(
    below: B,
    node: &'subs QualifiedBuiltin,
    scope: Option<ArgScopeStack<'_, 'subs>>,
    ctx: &mut DemangleContext<'subs, '_, W>,
)
    requires { B.can below }
    ensures { Prints (B.at below) (page W.seen ctx.old) (page W.seen ctx.new)
        (tree_of_qualified_builtin node.now) (scope_of scope.entry) }
{
    let Some(below) = below.enter(ctx) else {
        return;
    };
    let item = InnerItem::Qualifiers(&node.0);
    ctx.hold(item, below.level());
    builtin_type(below, &node.1, scope, ctx);
    close(below, item, scope, ctx);
}
