//! The rows of types and template arguments.

ghost use Rattle.demangle_leaf_nodes.specs.TreeLeaves.{tree_of_bare_function_type, tree_of_builtin_type};
ghost use Rattle.demangle_leaf_nodes.specs.TreeLeaves.{tree_of_parametric_builtin_type, tree_of_pointer_to_member_type};
ghost use Rattle.demangle_leaf_nodes.specs.TreeLeaves.{tree_of_template_template_param_handle, tree_of_type_handle};
ghost use Rattle.demangle_nodes.specs.TreeNodes.{tree_of_expr_primary, tree_of_template_arg, tree_of_template_args};
ghost use Rattle.demangle_entries.specs.TreeEntries.{tree_of_array_type, tree_of_class_enum_type, tree_of_decltype};
ghost use Rattle.demangle_entries.specs.TreeEntries.{tree_of_exception_spec, tree_of_function_type};
ghost use Rattle.demangle_entries.specs.TreeEntries.{tree_of_vector_type};
ghost use Rattle.demangle_grammar.specs.Rule.{Row};

use crate::read_cells::ReadCells;
use demangle_cells::{Arena, Depth, Part, Text};
use demangle_entries::{
    ArrayType, BareFunctionType, BuiltinType, ClassEnumType, Decltype, ExceptionSpec, ExprPrimary,
    FunctionType, ParametricBuiltinType, PointerToMemberType, TemplateArg, TemplateArgs,
    TemplateTemplateParamHandle, TypeHandle, VectorType,
};
use demangle_leaves_from_cells::{
    bare_function_type_from, builtin_type_from, parametric_builtin_type_from,
    pointer_to_member_type_from, template_template_param_handle_from, type_handle_from,
};
use demangle_nodes_from_cells::{
    array_type_from, class_enum_type_from, decltype_from, exception_spec_from, expr_primary_from,
    function_type_from, template_arg_from, template_args_from, vector_type_from,
};
use demangle_read::Reader;
use demangle_read_below::Below;
use demangle_read_types::{
    array_type, bare_function_type, builtin_type, class_enum_type, decltype, exception_spec,
    expr_primary, function_type, parametric_builtin_type, pointer_to_member_type, template_args,
    template_template_param_handle, vector_type,
};
use demangle_text::Result;
use std::alloc::Global;

impl ReadCells for TypeHandle {
    ghost row = { Row.type_handle };

    ghost tree = { tree_of_type_handle };

    fn read_row(arena: &mut Arena, depth: Depth, text: Text<'_>, at: u32) -> Result<Part> {
        Reader.type_handle(arena, depth, text, at)
    }

    fn from_cells(_alloc: Global, arena: &Arena, id: u32) -> Result<TypeHandle> {
        type_handle_from(arena, id)
    }
}

impl ReadCells for BuiltinType {
    ghost row = { Row.builtin_type };

    ghost tree = { tree_of_builtin_type };

    fn read_row(arena: &mut Arena, depth: Depth, text: Text<'_>, at: u32) -> Result<Part> {
        builtin_type(Reader, arena, depth, text, at)
    }

    fn from_cells(_alloc: Global, arena: &Arena, id: u32) -> Result<BuiltinType> {
        builtin_type_from(arena, id)
    }
}

impl ReadCells for ParametricBuiltinType {
    ghost row = { Row.parametric_builtin_type };

    ghost tree = { tree_of_parametric_builtin_type };

    fn read_row(arena: &mut Arena, depth: Depth, text: Text<'_>, at: u32) -> Result<Part> {
        parametric_builtin_type(Reader, arena, depth, text, at)
    }

    fn from_cells(_alloc: Global, arena: &Arena, id: u32) -> Result<ParametricBuiltinType> {
        parametric_builtin_type_from(arena, id)
    }
}

impl ReadCells for ExceptionSpec {
    ghost row = { Row.exception_spec };

    ghost tree = { tree_of_exception_spec };

    fn read_row(arena: &mut Arena, depth: Depth, text: Text<'_>, at: u32) -> Result<Part> {
        exception_spec(Reader, arena, depth, text, at)
    }

    fn from_cells(alloc: Global, arena: &Arena, id: u32) -> Result<ExceptionSpec> {
        exception_spec_from(alloc, arena, id)
    }
}

impl ReadCells for FunctionType {
    ghost row = { Row.function_type };

    ghost tree = { tree_of_function_type };

    fn read_row(arena: &mut Arena, depth: Depth, text: Text<'_>, at: u32) -> Result<Part> {
        function_type(Reader, arena, depth, text, at)
    }

    fn from_cells(alloc: Global, arena: &Arena, id: u32) -> Result<FunctionType> {
        function_type_from(alloc, arena, id)
    }
}

impl ReadCells for BareFunctionType {
    ghost row = { Row.bare_function_type };

    ghost tree = { tree_of_bare_function_type };

    fn read_row(arena: &mut Arena, depth: Depth, text: Text<'_>, at: u32) -> Result<Part> {
        bare_function_type(Reader, arena, depth, text, at)
    }

    fn from_cells(alloc: Global, arena: &Arena, id: u32) -> Result<BareFunctionType> {
        bare_function_type_from(alloc, arena, id)
    }
}

impl ReadCells for Decltype {
    ghost row = { Row.decltype };

    ghost tree = { tree_of_decltype };

    fn read_row(arena: &mut Arena, depth: Depth, text: Text<'_>, at: u32) -> Result<Part> {
        decltype(Reader, arena, depth, text, at)
    }

    fn from_cells(alloc: Global, arena: &Arena, id: u32) -> Result<Decltype> {
        decltype_from(alloc, arena, id)
    }
}

impl ReadCells for ClassEnumType {
    ghost row = { Row.class_enum_type };

    ghost tree = { tree_of_class_enum_type };

    fn read_row(arena: &mut Arena, depth: Depth, text: Text<'_>, at: u32) -> Result<Part> {
        class_enum_type(Reader, arena, depth, text, at)
    }

    fn from_cells(alloc: Global, arena: &Arena, id: u32) -> Result<ClassEnumType> {
        class_enum_type_from(alloc, arena, id)
    }
}

impl ReadCells for ArrayType {
    ghost row = { Row.array_type };

    ghost tree = { tree_of_array_type };

    fn read_row(arena: &mut Arena, depth: Depth, text: Text<'_>, at: u32) -> Result<Part> {
        array_type(Reader, arena, depth, text, at)
    }

    fn from_cells(alloc: Global, arena: &Arena, id: u32) -> Result<ArrayType> {
        array_type_from(alloc, arena, id)
    }
}

impl ReadCells for VectorType {
    ghost row = { Row.vector_type };

    ghost tree = { tree_of_vector_type };

    fn read_row(arena: &mut Arena, depth: Depth, text: Text<'_>, at: u32) -> Result<Part> {
        vector_type(Reader, arena, depth, text, at)
    }

    fn from_cells(alloc: Global, arena: &Arena, id: u32) -> Result<VectorType> {
        vector_type_from(alloc, arena, id)
    }
}

impl ReadCells for PointerToMemberType {
    ghost row = { Row.pointer_to_member_type };

    ghost tree = { tree_of_pointer_to_member_type };

    fn read_row(arena: &mut Arena, depth: Depth, text: Text<'_>, at: u32) -> Result<Part> {
        pointer_to_member_type(Reader, arena, depth, text, at)
    }

    fn from_cells(_alloc: Global, arena: &Arena, id: u32) -> Result<PointerToMemberType> {
        pointer_to_member_type_from(arena, id)
    }
}

impl ReadCells for TemplateTemplateParamHandle {
    ghost row = { Row.template_template_param_handle };

    ghost tree = { tree_of_template_template_param_handle };

    fn read_row(arena: &mut Arena, depth: Depth, text: Text<'_>, at: u32) -> Result<Part> {
        template_template_param_handle(arena, depth, text, at)
    }

    fn from_cells(_alloc: Global, arena: &Arena, id: u32) -> Result<TemplateTemplateParamHandle> {
        template_template_param_handle_from(arena, id)
    }
}

impl ReadCells for TemplateArgs {
    ghost row = { Row.template_args };

    ghost tree = { tree_of_template_args };

    fn read_row(arena: &mut Arena, depth: Depth, text: Text<'_>, at: u32) -> Result<Part> {
        template_args(Reader, arena, depth, text, at)
    }

    fn from_cells(alloc: Global, arena: &Arena, id: u32) -> Result<TemplateArgs> {
        template_args_from(alloc, arena, id)
    }
}

impl ReadCells for TemplateArg {
    ghost row = { Row.template_arg };

    ghost tree = { tree_of_template_arg };

    fn read_row(arena: &mut Arena, depth: Depth, text: Text<'_>, at: u32) -> Result<Part> {
        Reader.template_arg(arena, depth, text, at)
    }

    fn from_cells(alloc: Global, arena: &Arena, id: u32) -> Result<TemplateArg> {
        template_arg_from(alloc, arena, id)
    }
}

impl ReadCells for ExprPrimary {
    ghost row = { Row.expr_primary };

    ghost tree = { tree_of_expr_primary };

    fn read_row(arena: &mut Arena, depth: Depth, text: Text<'_>, at: u32) -> Result<Part> {
        expr_primary(Reader, arena, depth, text, at)
    }

    fn from_cells(alloc: Global, arena: &Arena, id: u32) -> Result<ExprPrimary> {
        expr_primary_from(alloc, arena, id)
    }
}
