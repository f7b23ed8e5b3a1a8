//! The rows below as functions that are passed by name.

ghost use Rattle.demangle_grammar.specs.Rule.{Row};
ghost use Rattle.demangle_read_below.specs.MayRead.{MayRead};

use crate::below::Below;
use demangle_cells::{Arena, Depth, Part, Text};
use demangle_text::Result;

/// Six functions, each of which reads its row with fewer levels left than `most`. A function that is passed by name
/// holds no data, so this is no larger than `most`. It ties the readers of rows, which are written over any `Below`,
/// into one recursion. What it holds is copied with it, so `FnOnce` is enough to call it: there is one way then to call
/// each function, where `Fn` has three, each of which would be a member of that recursion.
#[derive(Clone, Copy)]
pub struct Tied<ReadType, ReadExpression, ReadArgument, ReadName, ReadEncoding, ReadMangledName> {
    /// More levels than any row below has left.
    pub most: Depth,
    /// Types.
    pub type_handle: ReadType,
    /// Expressions.
    pub expression: ReadExpression,
    /// Template arguments.
    pub template_arg: ReadArgument,
    /// Names.
    pub name: ReadName,
    /// Functions, variables, and entities that the compiler makes.
    pub encoding: ReadEncoding,
    /// Mangled names.
    pub mangled_name: ReadMangledName,
}

impl<ReadType, ReadExpression, ReadArgument, ReadName, ReadEncoding, ReadMangledName> Below
    for Tied<ReadType, ReadExpression, ReadArgument, ReadName, ReadEncoding, ReadMangledName>
where
    ReadType: FnOnce(&mut Arena, Depth, Text<'_>, u32) -> Result<Part> + Copy,
    ReadExpression: FnOnce(&mut Arena, Depth, Text<'_>, u32) -> Result<Part> + Copy,
    ReadArgument: FnOnce(&mut Arena, Depth, Text<'_>, u32) -> Result<Part> + Copy,
    ReadName: FnOnce(&mut Arena, Depth, Text<'_>, u32) -> Result<Part> + Copy,
    ReadEncoding: FnOnce(&mut Arena, Depth, Text<'_>, u32) -> Result<Part> + Copy,
    ReadMangledName: FnOnce(&mut Arena, Depth, Text<'_>, u32) -> Result<Part> + Copy,
{
    ghost most = { λ s. s.most.levels };

    ghost can = { λ s.
        MayRead Row.type_handle (ReadType.pre s.type_handle) (ReadType.post s.type_handle) s.most.levels
        × MayRead Row.expression (ReadExpression.pre s.expression) (ReadExpression.post s.expression) s.most.levels
        × MayRead Row.template_arg (ReadArgument.pre s.template_arg) (ReadArgument.post s.template_arg) s.most.levels
        × MayRead Row.name (ReadName.pre s.name) (ReadName.post s.name) s.most.levels
        × MayRead Row.encoding (ReadEncoding.pre s.encoding) (ReadEncoding.post s.encoding) s.most.levels
        × MayRead Row.mangled_name (ReadMangledName.pre s.mangled_name) (ReadMangledName.post s.mangled_name)
        s.most.levels };

    fn type_handle(self, arena: &mut Arena, depth: Depth, text: Text<'_>, at: u32) -> Result<Part> {
        (self.type_handle)(arena, depth, text, at)
    }

    fn expression(self, arena: &mut Arena, depth: Depth, text: Text<'_>, at: u32) -> Result<Part> {
        (self.expression)(arena, depth, text, at)
    }

    fn template_arg(
        self,
        arena: &mut Arena,
        depth: Depth,
        text: Text<'_>,
        at: u32,
    ) -> Result<Part> {
        (self.template_arg)(arena, depth, text, at)
    }

    fn name(self, arena: &mut Arena, depth: Depth, text: Text<'_>, at: u32) -> Result<Part> {
        (self.name)(arena, depth, text, at)
    }

    fn encoding(self, arena: &mut Arena, depth: Depth, text: Text<'_>, at: u32) -> Result<Part> {
        (self.encoding)(arena, depth, text, at)
    }

    fn mangled_name(
        self,
        arena: &mut Arena,
        depth: Depth,
        text: Text<'_>,
        at: u32,
    ) -> Result<Part> {
        (self.mangled_name)(arena, depth, text, at)
    }
}
