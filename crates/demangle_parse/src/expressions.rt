//! The rows of expressions.

ghost use Rattle.demangle_leaf_nodes.specs.TreeLeaves.{tree_of_unresolved_type_handle};
ghost use Rattle.demangle_nodes.specs.TreeNodes.{tree_of_base_unresolved_name, tree_of_destructor_name};
ghost use Rattle.demangle_nodes.specs.TreeNodes.{tree_of_expression, tree_of_fold_expr, tree_of_initializer};
ghost use Rattle.demangle_nodes.specs.TreeNodes.{tree_of_member_name, tree_of_simple_id, tree_of_subobject_expr};
ghost use Rattle.demangle_nodes.specs.TreeNodes.{tree_of_unresolved_name, tree_of_unresolved_qualifier_level};
ghost use Rattle.demangle_grammar.specs.Rule.{Row};

use crate::read_cells::ReadCells;
use demangle_cells::{Arena, Depth, Part, Text};
use demangle_entries::{
    BaseUnresolvedName, DestructorName, Expression, FoldExpr, Initializer, MemberName, SimpleId,
    SubobjectExpr, UnresolvedName, UnresolvedQualifierLevel, UnresolvedTypeHandle,
};
use demangle_leaves_from_cells::unresolved_type_handle_from;
use demangle_nodes_from_cells::{
    base_unresolved_name_from, destructor_name_from, expression_from, fold_expr_from,
    initializer_from, member_name_from, simple_id_from, subobject_expr_from, unresolved_name_from,
    unresolved_qualifier_level_from,
};
use demangle_read::Reader;
use demangle_read_below::Below;
use demangle_read_expressions::{
    base_unresolved_name, destructor_name, fold_expr, initializer, member_name, simple_id,
    subobject_expr, unresolved_name, unresolved_qualifier_level, unresolved_type_handle,
};
use demangle_text::Result;
use std::alloc::Global;

impl ReadCells for Expression {
    ghost row = { Row.expression };

    ghost tree = { tree_of_expression };

    fn read_row(arena: &mut Arena, depth: Depth, text: Text<'_>, at: u32) -> Result<Part> {
        Reader.expression(arena, depth, text, at)
    }

    fn from_cells(alloc: Global, arena: &Arena, id: u32) -> Result<Expression> {
        expression_from(alloc, arena, id)
    }
}

impl ReadCells for UnresolvedName {
    ghost row = { Row.unresolved_name };

    ghost tree = { tree_of_unresolved_name };

    fn read_row(arena: &mut Arena, depth: Depth, text: Text<'_>, at: u32) -> Result<Part> {
        unresolved_name(Reader, arena, depth, text, at)
    }

    fn from_cells(alloc: Global, arena: &Arena, id: u32) -> Result<UnresolvedName> {
        unresolved_name_from(alloc, arena, id)
    }
}

impl ReadCells for UnresolvedQualifierLevel {
    ghost row = { Row.unresolved_qualifier_level };

    ghost tree = { tree_of_unresolved_qualifier_level };

    fn read_row(arena: &mut Arena, depth: Depth, text: Text<'_>, at: u32) -> Result<Part> {
        unresolved_qualifier_level(Reader, arena, depth, text, at)
    }

    fn from_cells(alloc: Global, arena: &Arena, id: u32) -> Result<UnresolvedQualifierLevel> {
        unresolved_qualifier_level_from(alloc, arena, id)
    }
}

impl ReadCells for UnresolvedTypeHandle {
    ghost row = { Row.unresolved_type_handle };

    ghost tree = { tree_of_unresolved_type_handle };

    fn read_row(arena: &mut Arena, depth: Depth, text: Text<'_>, at: u32) -> Result<Part> {
        unresolved_type_handle(Reader, arena, depth, text, at)
    }

    fn from_cells(_alloc: Global, arena: &Arena, id: u32) -> Result<UnresolvedTypeHandle> {
        unresolved_type_handle_from(arena, id)
    }
}

impl ReadCells for SimpleId {
    ghost row = { Row.simple_id };

    ghost tree = { tree_of_simple_id };

    fn read_row(arena: &mut Arena, depth: Depth, text: Text<'_>, at: u32) -> Result<Part> {
        simple_id(Reader, arena, depth, text, at)
    }

    fn from_cells(alloc: Global, arena: &Arena, id: u32) -> Result<SimpleId> {
        simple_id_from(alloc, arena, id)
    }
}

impl ReadCells for DestructorName {
    ghost row = { Row.destructor_name };

    ghost tree = { tree_of_destructor_name };

    fn read_row(arena: &mut Arena, depth: Depth, text: Text<'_>, at: u32) -> Result<Part> {
        destructor_name(Reader, arena, depth, text, at)
    }

    fn from_cells(alloc: Global, arena: &Arena, id: u32) -> Result<DestructorName> {
        destructor_name_from(alloc, arena, id)
    }
}

impl ReadCells for BaseUnresolvedName {
    ghost row = { Row.base_unresolved_name };

    ghost tree = { tree_of_base_unresolved_name };

    fn read_row(arena: &mut Arena, depth: Depth, text: Text<'_>, at: u32) -> Result<Part> {
        base_unresolved_name(Reader, arena, depth, text, at)
    }

    fn from_cells(alloc: Global, arena: &Arena, id: u32) -> Result<BaseUnresolvedName> {
        base_unresolved_name_from(alloc, arena, id)
    }
}

impl ReadCells for Initializer {
    ghost row = { Row.initializer };

    ghost tree = { tree_of_initializer };

    fn read_row(arena: &mut Arena, depth: Depth, text: Text<'_>, at: u32) -> Result<Part> {
        initializer(Reader, arena, depth, text, at)
    }

    fn from_cells(alloc: Global, arena: &Arena, id: u32) -> Result<Initializer> {
        initializer_from(alloc, arena, id)
    }
}

impl ReadCells for SubobjectExpr {
    ghost row = { Row.subobject_expr };

    ghost tree = { tree_of_subobject_expr };

    fn read_row(arena: &mut Arena, depth: Depth, text: Text<'_>, at: u32) -> Result<Part> {
        subobject_expr(Reader, arena, depth, text, at)
    }

    fn from_cells(alloc: Global, arena: &Arena, id: u32) -> Result<SubobjectExpr> {
        subobject_expr_from(alloc, arena, id)
    }
}

impl ReadCells for MemberName {
    ghost row = { Row.member_name };

    ghost tree = { tree_of_member_name };

    fn read_row(arena: &mut Arena, depth: Depth, text: Text<'_>, at: u32) -> Result<Part> {
        member_name(Reader, arena, depth, text, at)
    }

    fn from_cells(alloc: Global, arena: &Arena, id: u32) -> Result<MemberName> {
        member_name_from(alloc, arena, id)
    }
}

impl ReadCells for FoldExpr {
    ghost row = { Row.fold_expr };

    ghost tree = { tree_of_fold_expr };

    fn read_row(arena: &mut Arena, depth: Depth, text: Text<'_>, at: u32) -> Result<Part> {
        fold_expr(Reader, arena, depth, text, at)
    }

    fn from_cells(alloc: Global, arena: &Arena, id: u32) -> Result<FoldExpr> {
        fold_expr_from(alloc, arena, id)
    }
}
