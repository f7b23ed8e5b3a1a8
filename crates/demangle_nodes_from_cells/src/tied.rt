//! Nodes below as functions that are passed by name.

ghost use Rattle.demangle_nodes_from_cells.specs.MayMake.{MayMake};
ghost use Rattle.demangle_nodes.specs.TreeNodes.{tree_of_encoding, tree_of_expression, tree_of_mangled_name};
ghost use Rattle.demangle_nodes.specs.TreeNodes.{tree_of_name, tree_of_template_arg};

use crate::below::Below;
use demangle_cells::Arena;
use demangle_entries::{Encoding, Expression, MangledName, Name, TemplateArg};
use demangle_text::{Error, Result};
use std::alloc::Global;

/// Five functions, each of which makes its node out of a cell with a lower index than `most`; the parts of a cell have
/// lower indexes than it has. A function that is passed by name holds no data, so this is no larger than `most`.
#[derive(Clone, Copy)]
pub(crate) struct Tied<MakeExpression, MakeArgument, MakeName, MakeEncoding, MakeMangledName> {
    /// A higher index than that of any node below.
    pub(crate) most: u32,
    /// An expression, ABI section 5.1.6.
    pub(crate) expression: MakeExpression,
    /// An argument of a template, ABI section 5.1.2.
    pub(crate) template_arg: MakeArgument,
    /// A name with its scope, ABI section 5.1.2.
    pub(crate) name: MakeName,
    /// A function, a variable or what the compiler makes, ABI section 5.1.2.
    pub(crate) encoding: MakeEncoding,
    /// A whole mangled name, ABI section 5.1.2.
    pub(crate) mangled_name: MakeMangledName,
}

impl<MakeExpression, MakeArgument, MakeName, MakeEncoding, MakeMangledName> Below
    for Tied<MakeExpression, MakeArgument, MakeName, MakeEncoding, MakeMangledName>
where
    MakeExpression: FnOnce(Global, &Arena, u32) -> Result<Expression> + Copy,
    MakeArgument: FnOnce(Global, &Arena, u32) -> Result<TemplateArg> + Copy,
    MakeName: FnOnce(Global, &Arena, u32) -> Result<Name> + Copy,
    MakeEncoding: FnOnce(Global, &Arena, u32) -> Result<Encoding> + Copy,
    MakeMangledName: FnOnce(Global, &Arena, u32) -> Result<MangledName> + Copy,
{
    ghost can = { λ s.
        MayMake tree_of_expression
        (MakeExpression.pre s.expression) (MakeExpression.post s.expression) s.most
        × MayMake tree_of_template_arg
        (MakeArgument.pre s.template_arg) (MakeArgument.post s.template_arg) s.most
        × MayMake tree_of_name
        (MakeName.pre s.name) (MakeName.post s.name) s.most
        × MayMake tree_of_encoding
        (MakeEncoding.pre s.encoding) (MakeEncoding.post s.encoding) s.most
        × MayMake tree_of_mangled_name
        (MakeMangledName.pre s.mangled_name) (MakeMangledName.post s.mangled_name) s.most };

    fn expression(self, alloc: Global, arena: &Arena, id: u32) -> Result<Expression> {
        if id >= self.most {
            return Err(Error::OutOfMemory);
        }
        (self.expression)(alloc, arena, id)
    }

    fn template_arg(self, alloc: Global, arena: &Arena, id: u32) -> Result<TemplateArg> {
        if id >= self.most {
            return Err(Error::OutOfMemory);
        }
        (self.template_arg)(alloc, arena, id)
    }

    fn name(self, alloc: Global, arena: &Arena, id: u32) -> Result<Name> {
        if id >= self.most {
            return Err(Error::OutOfMemory);
        }
        (self.name)(alloc, arena, id)
    }

    fn encoding(self, alloc: Global, arena: &Arena, id: u32) -> Result<Encoding> {
        if id >= self.most {
            return Err(Error::OutOfMemory);
        }
        (self.encoding)(alloc, arena, id)
    }

    fn mangled_name(self, alloc: Global, arena: &Arena, id: u32) -> Result<MangledName> {
        if id >= self.most {
            return Err(Error::OutOfMemory);
        }
        (self.mangled_name)(alloc, arena, id)
    }
}
