//! Literals, and the names of entities.

ghost use Rattle.std.specs.Prelude.{◌≡◌, ◌&&◌, ◌||◌, Some, bytes_eq, [], ◌∷◌};
ghost use Rattle.demangle_core.specs.Core.{◌⊕◌, Tag, end, place};
ghost use Rattle.demangle_vocab.specs.Builtins.{number_of_builtin};
ghost use Rattle.demangle_leaf_nodes.specs.TreeLeaves.{tree_of_builtin_type, tree_of_type_handle};
ghost use Rattle.demangle_nodes.specs.TreeNodes.{tree_of_expr_primary, tree_of_mangled_name};
ghost use Rattle.demangle_printing.specs.Rules.{is_seen_word};
ghost use Rattle.demangle_printing.specs.Texts.{is_negative, without_sign};
ghost use Rattle.demangle_printing.specs.World.{find, see};
ghost use Rattle.demangle_meets.specs.Meets.{Line, Meets, Prints};
ghost use Rattle.demangle_meets.specs.Place.{Place, Refers, world_of};
ghost use Rattle.demangle_scope.specs.ScopeOf.{scope_of};
ghost use Rattle.demangle_print_below.specs.PageOf.{page};
ghost use Rattle.demangle_print_primaries.specs.Literals.{digits_of, is_just, minus, opening, real_of};
ghost use Rattle.demangle_print_primaries.specs.Literals.{type_before};
ghost use Rattle.demangle_print_primaries.specs.Made.{made};

use demangle_print_below::Below;
use demangle_print_parts::{bytes_between, bytes_text, type_handle};
use demangle_scope::{ArgScopeStack, DemangleContext, DemangleWrite, PrintFlag};
use demangle_tree::{BuiltinType, ExprPrimary, MangledName, TypeHandle};
use demangle_vocab::StandardBuiltinType;

fn is_builtin(node: &BuiltinType, word: StandardBuiltinType) -> bool
    ensures { (r : Refers) → result ≡ is_seen_word 1 (number_of_builtin word)
        (see (world_of r) (find (world_of r) (Some (tree_of_builtin_type node.now)) (0 ∷ []))) }
{
    match node {
        BuiltinType::Standard(standard) => word.number() == standard.number(),
        _ => false,
    }
}

/// Whether a type is just this builtin type: a component never is.
fn is_type<'subs, W: DemangleWrite, B: Below<'subs, W>>(
    below: B,
    handle: &TypeHandle,
    word: StandardBuiltinType,
) -> bool
    ensures { result ≡ is_just (world_of (B.at below).refers) (tree_of_type_handle handle.now)
        (number_of_builtin word) }
{
    let subs = below.subs();
    match handle {
        TypeHandle::Builtin(builtin) => is_builtin(builtin, word),
        TypeHandle::BackReference(idx) => match subs.get(*idx) {
            None => false,
            Some(_) => false,
        },
        _ => false,
    }
}

/// Whether the bytes of a literal are these.
fn spells(word: &[u8], bytes: &[u8]) -> bool
    ensures { result ≡ bytes_eq word.now bytes.now }
{
    word == bytes
}

/// Whether a literal is of the type `bool`, and its bytes are these.
fn is_truth_value<'subs, W: DemangleWrite, B: Below<'subs, W>>(
    below: B,
    handle: &TypeHandle,
    word: &[u8],
    bytes: &[u8],
) -> bool
    ensures { result ≡ (is_just (world_of (B.at below).refers) (tree_of_type_handle handle.now)
        (number_of_builtin StandardBuiltinType.Bool)
        && bytes_eq word.now bytes.now) }
{
    is_type(below, handle, StandardBuiltinType::Bool) && spells(word, bytes)
}

/// Whether a type is a floating-point type: `float` or `double`.
fn is_floating<'subs, W: DemangleWrite, B: Below<'subs, W>>(below: B, handle: &TypeHandle) -> bool
    ensures { result ≡ (is_just (world_of (B.at below).refers) (tree_of_type_handle handle.now)
        (number_of_builtin StandardBuiltinType.Float)
        || is_just (world_of (B.at below).refers) (tree_of_type_handle handle.now)
        (number_of_builtin StandardBuiltinType.Double)) }
{
    is_type(below, handle, StandardBuiltinType::Float)
        || is_type(below, handle, StandardBuiltinType::Double)
}

/// Whether a literal is below zero: `n` stands before its digits.
fn is_negative(bytes: &[u8]) -> bool
    ensures { result ≡ is_negative bytes.now }
{
    match bytes.split_first() {
        Some((first, _)) => b'n' == *first,
        None => false,
    }
}

/// The bytes of a literal without its sign.
fn without_sign(bytes: &[u8]) -> &[u8]
    ensures { result.now ≡ without_sign bytes.now }
{
    let Some((first, rest)) = bytes.split_first() else {
        return bytes;
    };
    if b'n' == *first { rest } else { bytes }
}

/// The sign of a literal, where it is below zero.
fn minus<'subs, W: DemangleWrite>(bytes: &[u8], ctx: &mut DemangleContext<'subs, '_, W>)
    ensures { (p : Place) → Meets p (page W.seen ctx.old) (page W.seen ctx.new) (minus bytes.now) }
{
    if is_negative(bytes) {
        ctx.text("-");
    }
}

/// `-5`, of the bytes `n5`.
fn digits<'subs, W: DemangleWrite>(bytes: &[u8], ctx: &mut DemangleContext<'subs, '_, W>)
    ensures { (p : Place) → Meets p (page W.seen ctx.old) (page W.seen ctx.new) (digits_of bytes.now) }
{
    minus(bytes, ctx);
    bytes_text(without_sign(bytes), ctx);
}

/// The sign of a floating-point number, and the bracket before its bytes.
fn opening<'subs, W: DemangleWrite>(bytes: &[u8], ctx: &mut DemangleContext<'subs, '_, W>)
    ensures { (p : Place) → Meets p (page W.seen ctx.old) (page W.seen ctx.new) (opening bytes.now) }
{
    if is_negative(bytes) {
        ctx.text("-[");
    } else {
        ctx.text("[");
    }
}

/// `-[3f800000]`, of the bytes `n3f800000`.
fn real_bytes<'subs, W: DemangleWrite>(bytes: &[u8], ctx: &mut DemangleContext<'subs, '_, W>)
    ensures { (p : Place) → Meets p (page W.seen ctx.old) (page W.seen ctx.new) (real_of bytes.now) }
{
    opening(bytes, ctx);
    bytes_text(without_sign(bytes), ctx);
    ctx.text("]");
}

/// The type of a literal before it, where types are shown.
fn type_first<'subs, W: DemangleWrite, B: Below<'subs, W>>(
    below: B,
    handle: &'subs TypeHandle,
    scope: Option<ArgScopeStack<'_, 'subs>>,
    ctx: &mut DemangleContext<'subs, '_, W>,
)
    requires { B.can below }
    ensures { Meets (B.at below) (page W.seen ctx.old) (page W.seen ctx.new)
        (type_before (world_of (B.at below).refers) (scope_of scope.entry) (tree_of_type_handle handle.now)) }
{
    if ctx.is_on(PrintFlag::LiteralTypes) {
        ctx.text("(");
        type_handle(below, handle, scope, ctx);
        ctx.text(")");
    }
}

/// `true`, `-5`, `(unsigned long)5`.
fn literal<'subs, W: DemangleWrite, B: Below<'subs, W>>(
    below: B,
    handle: &'subs TypeHandle,
    start: usize,
    stop: usize,
    scope: Option<ArgScopeStack<'_, 'subs>>,
    ctx: &mut DemangleContext<'subs, '_, W>,
)
    requires { B.can below }
    ensures { Line (B.at below) (page W.seen ctx.old) (page W.seen ctx.new)
        (made Tag.ExprPrimaryLiteral (tree_of_type_handle handle.now ⊕ place start stop end)) (scope_of scope.entry) }
{
    let bytes = bytes_between(below.input(), start, stop);
    if is_truth_value(below, handle, b"0", bytes) {
        ctx.text("false");
    } else if is_truth_value(below, handle, b"1", bytes) {
        ctx.text("true");
    } else if is_type(below, handle, StandardBuiltinType::Bool) {
        ctx.text("(bool)");
        digits(bytes, ctx);
    } else if is_type(below, handle, StandardBuiltinType::Nullptr) {
        ctx.text("nullptr");
    } else if is_floating(below, handle) {
        type_first(below, handle, scope, ctx);
        real_bytes(bytes, ctx);
    } else if is_type(below, handle, StandardBuiltinType::Int) {
        digits(bytes, ctx);
    } else {
        type_first(below, handle, scope, ctx);
        digits(bytes, ctx);
    }
}

/// The name of an entity, with its parameters.
fn external<'subs, W: DemangleWrite, B: Below<'subs, W>>(
    below: B,
    name: &'subs MangledName,
    scope: Option<ArgScopeStack<'_, 'subs>>,
    ctx: &mut DemangleContext<'subs, '_, W>,
)
    requires { B.can below }
    ensures { Line (B.at below) (page W.seen ctx.old) (page W.seen ctx.new)
        (made Tag.ExprPrimaryExternal (tree_of_mangled_name name.now)) (scope_of scope.entry) }
{
    let before = ctx.is_on(PrintFlag::Params);
    ctx.turn(PrintFlag::Params, true);
    below.mangled_name(name, scope, ctx);
    ctx.turn(PrintFlag::Params, before);
}

/// A literal, or the name of an entity.
pub fn expr_primary<'subs, W: DemangleWrite, B: Below<'subs, W>>(
    below: B,
    node: &'subs ExprPrimary,
    scope: Option<ArgScopeStack<'_, 'subs>>,
    ctx: &mut DemangleContext<'subs, '_, W>,
)
    requires { B.can below }
    ensures { Prints (B.at below) (page W.seen ctx.old) (page W.seen ctx.new) (tree_of_expr_primary node.now)
        (scope_of scope.entry) }
{
    let Some(below) = below.enter(ctx) else {
        return;
    };
    match node {
        ExprPrimary::Literal(handle, start, stop) => {
            literal(below, handle, *start, *stop, scope, ctx);
        }
        ExprPrimary::External(name) => external(below, name, scope, ctx),
    }
}
