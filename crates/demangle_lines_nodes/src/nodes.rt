//! The line of any node.

ghost use Rattle.std.specs.Prelude.{◌≡◌, ◌∷◌, [], true};
ghost use Rattle.demangle_printing.specs.Lines.{line_steps};
ghost use Rattle.demangle_printing.specs.Step.{Step};
ghost use Rattle.demangle_context.specs.PageOf.{page};
ghost use Rattle.demangle_lines.specs.Does.{Runs};
ghost use Rattle.demangle_lines.specs.ScopeOf.{lent_scope};
ghost use Rattle.demangle_lines_nodes.specs.Tags.{tag_at};

use crate::blocks_0::block_0;
use crate::blocks_1::block_1;
use crate::blocks_2::block_2;
use crate::blocks_3::block_3;
use crate::blocks_4::block_4;
use crate::blocks_5::block_5;
use crate::blocks_6::block_6;
use crate::blocks_7::block_7;
use crate::blocks_8::block_8;
use crate::blocks_9::block_9;
use crate::blocks_10::block_10;
use crate::blocks_11::block_11;
use crate::blocks_12::block_12;
use crate::blocks_13::block_13;
use demangle_context::{Context, DemangleWrite};
use demangle_lines::{Below, Scope, Tree, first_part};

/// Whether the line of a node whose tag has this number is that of its first part.
#[inline(always)]
fn is_first_part(number: u8) -> bool
    ensures { result ≡ true → line_steps (tag_at number) ≡ Step.line (0 ∷ []) Step.done }
{
    if number < 100 {
        is_lower_first_part(number)
    } else {
        is_upper_first_part(number)
    }
}

/// The same of some of the numbers.
#[inline(always)]
fn is_lower_first_part(number: u8) -> bool
    ensures { result ≡ true → line_steps (tag_at number) ≡ Step.line (0 ∷ []) Step.done }
{
    match number {
        12 => true,
        23 => true,
        27 => true,
        28 => true,
        29 => true,
        60 => true,
        62 => true,
        69 => true,
        70 => true,
        76 => true,
        77 => true,
        79 => true,
        81 => true,
        82 => true,
        83 => true,
        _ => false,
    }
}

/// The same of some of the numbers.
#[inline(always)]
fn is_upper_first_part(number: u8) -> bool
    ensures { result ≡ true → line_steps (tag_at number) ≡ Step.line (0 ∷ []) Step.done }
{
    match number {
        116 => true,
        117 => true,
        118 => true,
        126 => true,
        129 => true,
        130 => true,
        131 => true,
        136 => true,
        138 => true,
        140 => true,
        180 => true,
        187 => true,
        188 => true,
        189 => true,
        190 => true,
        191 => true,
        192 => true,
        194 => true,
        204 => true,
        _ => false,
    }
}

/// The line of a node whose tag has this number, its level entered.
#[inline(always)]
pub fn line_by_tag<'s, T: Tree<S>, S: 's, W: DemangleWrite, B: Below<'s, T, S, W>>(
    below: B,
    number: u8,
    tree: T,
    scope: Option<&Scope<'_, T>>,
    ctx: &mut Context<'s, '_, T, S, W>,
)
    requires { B.can below }
    ensures { Runs (B.at below) (page T.tree T.table W.seen ctx.old) (page T.tree T.table W.seen ctx.new) (T.tree
        tree) (lent_scope T.tree scope.entry) (line_steps (tag_at number)) }
{
    if is_first_part(number) {
        first_part(below, tree, scope, ctx);
        return;
    }
    if number >= 211 {
        return;
    }
    match number / 16 {
        0 => block_0(below, number, tree, scope, ctx),
        1 => block_1(below, number, tree, scope, ctx),
        2 => block_2(below, number, tree, scope, ctx),
        3 => block_3(below, number, tree, scope, ctx),
        4 => block_4(below, number, tree, scope, ctx),
        5 => block_5(below, number, tree, scope, ctx),
        6 => block_6(below, number, tree, scope, ctx),
        7 => block_7(below, number, tree, scope, ctx),
        8 => block_8(below, number, tree, scope, ctx),
        9 => block_9(below, number, tree, scope, ctx),
        10 => block_10(below, number, tree, scope, ctx),
        11 => block_11(below, number, tree, scope, ctx),
        12 => block_12(below, number, tree, scope, ctx),
        _ => block_13(below, number, tree, scope, ctx),
    }
}
