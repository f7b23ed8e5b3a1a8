//! The five types through which every cycle of node types leads, tied into one recursion.

ghost use Rattle.std.specs.Prelude.{◌≡◌, ℕ, IfErr, IfOk};
ghost use Rattle.demangle_text.specs.declared.error.Error.TheVariants.{OutOfMemory};
ghost use Rattle.demangle_core.specs.Core.{Core};
ghost use Rattle.demangle_nodes.specs.TreeNodes.{tree_of_encoding, tree_of_expression, tree_of_mangled_name};
ghost use Rattle.demangle_nodes.specs.TreeNodes.{tree_of_name, tree_of_template_arg};
ghost use Rattle.demangle_cells.specs.View.{Holds, view};

use crate::arguments::template_arg_by;
use crate::expressions::expression_by;
use crate::names::{encoding_by, mangled_name_by, name_by};
use crate::tied::Tied;
use demangle_cells::Arena;
use demangle_entries::{Encoding, Expression, MangledName, Name, TemplateArg};
use demangle_text::Result;
use std::alloc::Global;

/// An expression, ABI section 5.1.6. Another cell is refused as `OutOfMemory`, the only refusal.
#[cycle(tie)]
pub fn expression_from(alloc: Global, arena: &Arena, id: u32) -> Result<Expression>
    ensures made { IfOk result (λ n. (F : ℕ → Core) → Holds F (view arena.now) → F id ≡ tree_of_expression n) }
    ensures refused { IfErr result (λ e. e ≡ OutOfMemory) }
{
    let below = Tied {
        most: id,
        expression: expression_from,
        template_arg: template_arg_from,
        name: name_from,
        encoding: encoding_from,
        mangled_name: mangled_name_from,
    };
    expression_by(below, alloc, arena, id)
}

/// An argument of a template, ABI section 5.1.2. Another cell is refused as `OutOfMemory`, the only refusal.
#[cycle(tie)]
pub fn template_arg_from(alloc: Global, arena: &Arena, id: u32) -> Result<TemplateArg>
    ensures made { IfOk result (λ n. (F : ℕ → Core) → Holds F (view arena.now) → F id ≡ tree_of_template_arg n) }
    ensures refused { IfErr result (λ e. e ≡ OutOfMemory) }
{
    let below = Tied {
        most: id,
        expression: expression_from,
        template_arg: template_arg_from,
        name: name_from,
        encoding: encoding_from,
        mangled_name: mangled_name_from,
    };
    template_arg_by(below, alloc, arena, id)
}

/// A name with its scope, ABI section 5.1.2. Another cell is refused as `OutOfMemory`, the only refusal.
#[cycle(tie)]
pub fn name_from(alloc: Global, arena: &Arena, id: u32) -> Result<Name>
    ensures made { IfOk result (λ n. (F : ℕ → Core) → Holds F (view arena.now) → F id ≡ tree_of_name n) }
    ensures refused { IfErr result (λ e. e ≡ OutOfMemory) }
{
    let below = Tied {
        most: id,
        expression: expression_from,
        template_arg: template_arg_from,
        name: name_from,
        encoding: encoding_from,
        mangled_name: mangled_name_from,
    };
    name_by(below, alloc, arena, id)
}

/// A function, a variable or what the compiler makes, ABI section 5.1.2. Another cell is refused as `OutOfMemory`, the
/// only refusal.
#[cycle(tie)]
pub fn encoding_from(alloc: Global, arena: &Arena, id: u32) -> Result<Encoding>
    ensures made { IfOk result (λ n. (F : ℕ → Core) → Holds F (view arena.now) → F id ≡ tree_of_encoding n) }
    ensures refused { IfErr result (λ e. e ≡ OutOfMemory) }
{
    let below = Tied {
        most: id,
        expression: expression_from,
        template_arg: template_arg_from,
        name: name_from,
        encoding: encoding_from,
        mangled_name: mangled_name_from,
    };
    encoding_by(below, alloc, arena, id)
}

/// A whole mangled name, ABI section 5.1.2. Another cell is refused as `OutOfMemory`, the only refusal.
#[cycle(tie)]
pub fn mangled_name_from(alloc: Global, arena: &Arena, id: u32) -> Result<MangledName>
    ensures made { IfOk result (λ n. (F : ℕ → Core) → Holds F (view arena.now) → F id ≡ tree_of_mangled_name n) }
    ensures refused { IfErr result (λ e. e ≡ OutOfMemory) }
{
    let below = Tied {
        most: id,
        expression: expression_from,
        template_arg: template_arg_from,
        name: name_from,
        encoding: encoding_from,
        mangled_name: mangled_name_from,
    };
    mangled_name_by(below, alloc, arena, id)
}
