//! Identifiers and source names.

ghost use Rattle.std.specs.Prelude.{◌≡◌};
ghost use Rattle.demangle_core.specs.Core.{Core};
ghost use Rattle.demangle_text.specs.Word.{starts};
ghost use Rattle.demangle_leaf_nodes.specs.TreeLeaves.{tree_of_identifier, tree_of_source_name};
ghost use Rattle.demangle_printing.specs.Act.{block, done, named};
ghost use Rattle.demangle_printing.specs.Reader.{input_text};
ghost use Rattle.demangle_printing.specs.Scope.{Scope};
ghost use Rattle.demangle_printing.specs.Texts.{is_anonymous};
ghost use Rattle.demangle_meets.specs.Meets.{Meets, Prints};
ghost use Rattle.demangle_meets.specs.Place.{Place};
ghost use Rattle.demangle_print_below.specs.PageOf.{page};

use crate::bytes::{bytes_between, text_of};
use demangle_print_below::Below;
use demangle_scope::{DemangleContext, DemangleWrite, PrintFault};
use demangle_text::{IndexStr, consume};
use demangle_tree::{Identifier, SourceName};

/// Whether bytes begin with a word.
#[tactic(auto, unfolding(demangle_text::specs::Word::word_at))]
fn begins_with(word: &[u8], bytes: &[u8]) -> bool
    ensures { result ≡ starts word.now bytes.now }
{
    match consume(word, IndexStr::new(bytes)) {
        Ok(_) => true,
        Err(_) => false,
    }
}

/// Whether an identifier is one that compilers give to an anonymous namespace.
fn is_anonymous(bytes: &[u8]) -> bool
    ensures { result ≡ is_anonymous bytes.now }
{
    begins_with(b"_GLOBAL_.N", bytes)
        || begins_with(b"_GLOBAL__N", bytes)
        || begins_with(b"_GLOBAL_$N", bytes)
}

/// Writes a name, and keeps it as the last source name.
fn write_name<'subs, W: DemangleWrite>(bytes: &'subs [u8], ctx: &mut DemangleContext<'subs, '_, W>)
    ensures { (p : Place) → Meets p (page W.seen ctx.old) (page W.seen ctx.new)
        (named bytes.now (block (input_text bytes.now) done)) }
{
    match text_of(bytes) {
        Some(text) => {
            ctx.name(text);
            ctx.text(text);
        }
        None => ctx.fail(PrintFault::NotUtf8),
    }
}

/// The line of an identifier.
#[inline(always)]
pub fn identifier<'subs, W: DemangleWrite, B: Below<'subs, W>>(
    below: B,
    node: &Identifier,
    ctx: &mut DemangleContext<'subs, '_, W>,
)
    requires { B.can below }
    ensures { (sc : Scope Core) → Prints (B.at below) (page W.seen ctx.old) (page W.seen ctx.new)
        (tree_of_identifier node.now) sc }
{
    let Some(below) = below.enter(ctx) else {
        return;
    };
    let bytes = bytes_between(below.input(), node.start, node.end);
    if is_anonymous(bytes) {
        ctx.text("(anonymous namespace)");
    } else {
        write_name(bytes, ctx);
    }
}

/// The line of a source name.
#[inline(always)]
pub fn source_name<'subs, W: DemangleWrite, B: Below<'subs, W>>(
    below: B,
    node: &SourceName,
    ctx: &mut DemangleContext<'subs, '_, W>,
)
    requires { B.can below }
    ensures { (sc : Scope Core) → Prints (B.at below) (page W.seen ctx.old) (page W.seen ctx.new)
        (tree_of_source_name node.now) sc }
{
    let Some(below) = below.enter(ctx) else {
        return;
    };
    identifier(below, &node.0, ctx);
}
