//! The rows of names.

ghost use Rattle.demangle_leaf_nodes.specs.TreeLeaves.{tree_of_closure_type_name, tree_of_ctor_dtor_name};
ghost use Rattle.demangle_leaf_nodes.specs.TreeLeaves.{tree_of_data_member_prefix, tree_of_lambda_sig};
ghost use Rattle.demangle_leaf_nodes.specs.TreeLeaves.{tree_of_nested_name, tree_of_operator_name};
ghost use Rattle.demangle_leaf_nodes.specs.TreeLeaves.{tree_of_prefix_handle, tree_of_unqualified_name};
ghost use Rattle.demangle_leaf_nodes.specs.TreeLeaves.{tree_of_unscoped_name, tree_of_unscoped_template_name_handle};
ghost use Rattle.demangle_nodes.specs.TreeNodes.{tree_of_encoding, tree_of_global_ctor_dtor, tree_of_local_name};
ghost use Rattle.demangle_nodes.specs.TreeNodes.{tree_of_mangled_name, tree_of_name, tree_of_special_name};
ghost use Rattle.demangle_grammar.specs.Rule.{Row};

use crate::read_cells::ReadCells;
use demangle_cells::{Arena, Depth, Part, Text};
use demangle_entries::{
    ClosureTypeName, CtorDtorName, DataMemberPrefix, Encoding, GlobalCtorDtor, LambdaSig,
    LocalName, MangledName, Name, NestedName, OperatorName, PrefixHandle, SpecialName,
    UnqualifiedName, UnscopedName, UnscopedTemplateNameHandle,
};
use demangle_leaves_from_cells::{
    closure_type_name_from, ctor_dtor_name_from, data_member_prefix_from, lambda_sig_from,
    nested_name_from, operator_name_from, prefix_handle_from, unqualified_name_from,
    unscoped_name_from, unscoped_template_name_handle_from,
};
use demangle_nodes_from_cells::{
    encoding_from, global_ctor_dtor_from, local_name_from, mangled_name_from, name_from,
    special_name_from,
};
use demangle_read::Reader;
use demangle_read_below::Below;
use demangle_read_names::{
    global_ctor_dtor, local_name, special_name, unscoped_name, unscoped_template_name_handle,
};
use demangle_read_nested::{nested_name, prefix_handle};
use demangle_read_rows::data_member_prefix;
use demangle_read_unqualified::{
    closure_type_name, ctor_dtor_name, lambda_sig, operator_name, unqualified_name,
};
use demangle_text::Result;
use std::alloc::Global;

impl ReadCells for MangledName {
    ghost row = { Row.mangled_name };

    ghost tree = { tree_of_mangled_name };

    fn read_row(arena: &mut Arena, depth: Depth, text: Text<'_>, at: u32) -> Result<Part> {
        Reader.mangled_name(arena, depth, text, at)
    }

    fn from_cells(alloc: Global, arena: &Arena, id: u32) -> Result<MangledName> {
        mangled_name_from(alloc, arena, id)
    }
}

impl ReadCells for Encoding {
    ghost row = { Row.encoding };

    ghost tree = { tree_of_encoding };

    fn read_row(arena: &mut Arena, depth: Depth, text: Text<'_>, at: u32) -> Result<Part> {
        Reader.encoding(arena, depth, text, at)
    }

    fn from_cells(alloc: Global, arena: &Arena, id: u32) -> Result<Encoding> {
        encoding_from(alloc, arena, id)
    }
}

impl ReadCells for GlobalCtorDtor {
    ghost row = { Row.global_ctor_dtor };

    ghost tree = { tree_of_global_ctor_dtor };

    fn read_row(arena: &mut Arena, depth: Depth, text: Text<'_>, at: u32) -> Result<Part> {
        global_ctor_dtor(Reader, arena, depth, text, at)
    }

    fn from_cells(alloc: Global, arena: &Arena, id: u32) -> Result<GlobalCtorDtor> {
        global_ctor_dtor_from(alloc, arena, id)
    }
}

impl ReadCells for Name {
    ghost row = { Row.name };

    ghost tree = { tree_of_name };

    fn read_row(arena: &mut Arena, depth: Depth, text: Text<'_>, at: u32) -> Result<Part> {
        Reader.name(arena, depth, text, at)
    }

    fn from_cells(alloc: Global, arena: &Arena, id: u32) -> Result<Name> {
        name_from(alloc, arena, id)
    }
}

impl ReadCells for UnscopedName {
    ghost row = { Row.unscoped_name };

    ghost tree = { tree_of_unscoped_name };

    fn read_row(arena: &mut Arena, depth: Depth, text: Text<'_>, at: u32) -> Result<Part> {
        unscoped_name(Reader, arena, depth, text, at)
    }

    fn from_cells(alloc: Global, arena: &Arena, id: u32) -> Result<UnscopedName> {
        unscoped_name_from(alloc, arena, id)
    }
}

impl ReadCells for UnscopedTemplateNameHandle {
    ghost row = { Row.unscoped_template_name_handle };

    ghost tree = { tree_of_unscoped_template_name_handle };

    fn read_row(arena: &mut Arena, depth: Depth, text: Text<'_>, at: u32) -> Result<Part> {
        unscoped_template_name_handle(Reader, arena, depth, text, at)
    }

    fn from_cells(_alloc: Global, arena: &Arena, id: u32) -> Result<UnscopedTemplateNameHandle> {
        unscoped_template_name_handle_from(arena, id)
    }
}

impl ReadCells for NestedName {
    ghost row = { Row.nested_name };

    ghost tree = { tree_of_nested_name };

    fn read_row(arena: &mut Arena, depth: Depth, text: Text<'_>, at: u32) -> Result<Part> {
        nested_name(Reader, arena, depth, text, at)
    }

    fn from_cells(alloc: Global, arena: &Arena, id: u32) -> Result<NestedName> {
        nested_name_from(alloc, arena, id)
    }
}

impl ReadCells for PrefixHandle {
    ghost row = { Row.prefix_handle };

    ghost tree = { tree_of_prefix_handle };

    fn read_row(arena: &mut Arena, depth: Depth, text: Text<'_>, at: u32) -> Result<Part> {
        prefix_handle(Reader, arena, depth, text, at)
    }

    fn from_cells(_alloc: Global, arena: &Arena, id: u32) -> Result<PrefixHandle> {
        prefix_handle_from(arena, id)
    }
}

impl ReadCells for UnqualifiedName {
    ghost row = { Row.unqualified_name };

    ghost tree = { tree_of_unqualified_name };

    fn read_row(arena: &mut Arena, depth: Depth, text: Text<'_>, at: u32) -> Result<Part> {
        unqualified_name(Reader, arena, depth, text, at)
    }

    fn from_cells(alloc: Global, arena: &Arena, id: u32) -> Result<UnqualifiedName> {
        unqualified_name_from(alloc, arena, id)
    }
}

impl ReadCells for OperatorName {
    ghost row = { Row.operator_name };

    ghost tree = { tree_of_operator_name };

    fn read_row(arena: &mut Arena, depth: Depth, text: Text<'_>, at: u32) -> Result<Part> {
        operator_name(Reader, arena, depth, text, at)
    }

    fn from_cells(_alloc: Global, arena: &Arena, id: u32) -> Result<OperatorName> {
        operator_name_from(arena, id)
    }
}

impl ReadCells for CtorDtorName {
    ghost row = { Row.ctor_dtor_name };

    ghost tree = { tree_of_ctor_dtor_name };

    fn read_row(arena: &mut Arena, depth: Depth, text: Text<'_>, at: u32) -> Result<Part> {
        ctor_dtor_name(Reader, arena, depth, text, at)
    }

    fn from_cells(_alloc: Global, arena: &Arena, id: u32) -> Result<CtorDtorName> {
        ctor_dtor_name_from(arena, id)
    }
}

impl ReadCells for LocalName {
    ghost row = { Row.local_name };

    ghost tree = { tree_of_local_name };

    fn read_row(arena: &mut Arena, depth: Depth, text: Text<'_>, at: u32) -> Result<Part> {
        local_name(Reader, arena, depth, text, at)
    }

    fn from_cells(alloc: Global, arena: &Arena, id: u32) -> Result<LocalName> {
        local_name_from(alloc, arena, id)
    }
}

impl ReadCells for ClosureTypeName {
    ghost row = { Row.closure_type_name };

    ghost tree = { tree_of_closure_type_name };

    fn read_row(arena: &mut Arena, depth: Depth, text: Text<'_>, at: u32) -> Result<Part> {
        closure_type_name(Reader, arena, depth, text, at)
    }

    fn from_cells(alloc: Global, arena: &Arena, id: u32) -> Result<ClosureTypeName> {
        closure_type_name_from(alloc, arena, id)
    }
}

impl ReadCells for LambdaSig {
    ghost row = { Row.lambda_sig };

    ghost tree = { tree_of_lambda_sig };

    fn read_row(arena: &mut Arena, depth: Depth, text: Text<'_>, at: u32) -> Result<Part> {
        lambda_sig(Reader, arena, depth, text, at)
    }

    fn from_cells(alloc: Global, arena: &Arena, id: u32) -> Result<LambdaSig> {
        lambda_sig_from(alloc, arena, id)
    }
}

impl ReadCells for DataMemberPrefix {
    ghost row = { Row.data_member_prefix };

    ghost tree = { tree_of_data_member_prefix };

    fn read_row(arena: &mut Arena, depth: Depth, text: Text<'_>, at: u32) -> Result<Part> {
        data_member_prefix(arena, depth, text, at)
    }

    fn from_cells(_alloc: Global, arena: &Arena, id: u32) -> Result<DataMemberPrefix> {
        data_member_prefix_from(arena, id)
    }
}

impl ReadCells for SpecialName {
    ghost row = { Row.special_name };

    ghost tree = { tree_of_special_name };

    fn read_row(arena: &mut Arena, depth: Depth, text: Text<'_>, at: u32) -> Result<Part> {
        special_name(Reader, arena, depth, text, at)
    }

    fn from_cells(alloc: Global, arena: &Arena, id: u32) -> Result<SpecialName> {
        special_name_from(alloc, arena, id)
    }
}
