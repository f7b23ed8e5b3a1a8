//! The nested name that is made of its qualifiers and the last name of its prefix, ABI section 5.1.2, <nested-name>.

ghost use Rattle.std.specs.Prelude.{◌≡◌, ℕ, ◌++◌, List, IfErr, IfOk, [], ◌∷◌, true, OnOk};
ghost use Rattle.demangle_text.specs.declared.error.Error.TheVariants.{OutOfMemory};
ghost use Rattle.demangle_core.specs.Core.{Core, node, end, ◌⊕◌};
ghost use Rattle.demangle_grammar.specs.Code.{joined};
ghost use Rattle.demangle_grammar.specs.Tree.{nested_template, nested_unqualified};
ghost use Rattle.demangle_cells.specs.Tags.{tag_of};
ghost use Rattle.demangle_cells.specs.View.{view, Grown, Holds, table};
ghost use Rattle.demangle_read_nested.specs.NestedNames.{IsQualifiers, TakesOver, nested_parts};
ghost use Rattle.demangle_read_nested.specs.Shapes.{is_node};

use crate::four::four;
use crate::qualifiers::NestedQualifiers;
use crate::taken::{Taken, last_of};
use demangle_cells::{Arena, Cell, Tag, absent_id};
use demangle_text::{Error, Result};

/// The nested name of these parts: its last name is that of its prefix. `UnexpectedText` where the prefix ends with no
/// name and no template arguments.
#[inline(always)]
#[tactic(auto, using(demangle_cells::proofs::Grows::grows, crate::proofs::TakenOver::takes))]
pub fn take_over(arena: &mut Arena, qualifiers: NestedQualifiers, prefix: u32) -> Result<u32>
    ensures grown { Grown (view arena.old) (view arena.new) }
    ensures table { (F : ℕ → Core) → table F (view arena.new) ≡ table F (view arena.old) }
    ensures takes { TakesOver qualifiers prefix result (view arena.new) }
{
    match last_of(arena, prefix)? {
        Taken::Name(name) => and_name(arena, qualifiers, absent_id(), name),
        Taken::Scoped(scope, name) => {
            let scope = arena.push(Cell::One(Tag::Present, scope))?;
            and_name(arena, qualifiers, scope, name)
        }
        Taken::Template => and_template(arena, qualifiers, prefix),
        Taken::Nothing => Err(Error::UnexpectedText),
    }
}

/// The nested name that ends with this name, which has a scope or none. The prefix that it is made of is no part of it.
#[inline(always)]
#[tactic(auto, using(demangle_cells::proofs::Grows::grows, crate::proofs::TakenOver::names))]
fn and_name(arena: &mut Arena, qualifiers: NestedQualifiers, scope: u32, name: u32) -> Result<u32>
    ensures grown { Grown (view arena.old) (view arena.new) }
    ensures table { (F : ℕ → Core) → table F (view arena.new) ≡ table F (view arena.old) }
    ensures made { IfOk result (λ i. (F : ℕ → Core) → Holds F (view arena.new) → IsQualifiers F qualifiers
        → (prefix : Core) → is_node prefix ≡ true
        → nested_unqualified (F scope) (F name) (nested_parts F qualifiers prefix) ≡ F i) }
    ensures refused { IfErr result (λ e. e ≡ OutOfMemory) }
{
    match qualifiers {
        NestedQualifiers::ExplicitObject(object) => {
            arena.push(Cell::Three(
                Tag::NestedNameUnqualifiedExplicitObject,
                scope,
                name,
                object,
            ))
        }
        NestedQualifiers::Plain(cv, reference) => {
            four(
                arena,
                Tag::NestedNameUnqualified,
                cv,
                reference,
                scope,
                name,
            )
        }
    }
}

/// The nested name that ends with template arguments, which are the last of its prefix.
#[inline(always)]
#[tactic(auto, using(demangle_cells::proofs::Grows::grows, crate::proofs::TakenOver::names))]
fn and_template(arena: &mut Arena, qualifiers: NestedQualifiers, prefix: u32) -> Result<u32>
    ensures grown { Grown (view arena.old) (view arena.new) }
    ensures table { (F : ℕ → Core) → table F (view arena.new) ≡ table F (view arena.old) }
    ensures made { IfOk result (λ i. (F : ℕ → Core) → Holds F (view arena.new) → IsQualifiers F qualifiers
        → nested_template (nested_parts F qualifiers (F prefix)) ≡ F i) }
    ensures refused { IfErr result (λ e. e ≡ OutOfMemory) }
{
    match qualifiers {
        NestedQualifiers::ExplicitObject(object) => {
            arena.push(Cell::Two(Tag::NestedNameTemplateExplicitObject, prefix, object))
        }
        NestedQualifiers::Plain(cv, reference) => {
            arena.push(Cell::Three(Tag::NestedNameTemplate, cv, reference, prefix))
        }
    }
}
