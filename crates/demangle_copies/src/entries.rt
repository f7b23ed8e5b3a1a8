//! Copies of the types above names and expressions: types, prefixes and components.

ghost use Rattle.std.specs.Prelude.{◌≡◌};
ghost use Rattle.demangle_entries.specs.TreeEntries.{
  tree_of_array_type,
  tree_of_class_enum_type,
  tree_of_decltype,
  tree_of_exception_spec,
  tree_of_function_type,
  tree_of_prefix,
  tree_of_substitutable,
  tree_of_type_node,
  tree_of_unresolved_type,
  tree_of_vector_type,
};

use crate::in_cells::{InCells, copied};
use crate::try_clone::TryClone;
use demangle_cells::Arena;
use demangle_entries::{
    ArrayType, ClassEnumType, Decltype, ExceptionSpec, FunctionType, Prefix, Substitutable,
    TypeNode, UnresolvedType, VectorType,
};
use demangle_nodes_from_cells::{
    array_type_from, class_enum_type_from, decltype_from, exception_spec_from, function_type_from,
    prefix_from, substitutable_from, type_node_from, unresolved_type_from, vector_type_from,
};
use demangle_nodes_to_cells::{
    array_type_to, class_enum_type_to, decltype_to, exception_spec_to, function_type_to, prefix_to,
    substitutable_to, type_node_to, unresolved_type_to, vector_type_to,
};
use demangle_text::Result;
use std::alloc::Global;

impl InCells for Decltype {
    ghost tree = { tree_of_decltype };

    fn put(&self, arena: &mut Arena) -> Result<u32> {
        decltype_to(arena, self)
    }

    fn made(alloc: Global, arena: &Arena, id: u32) -> Result<Decltype> {
        decltype_from(alloc, arena, id)
    }
}

impl TryClone for Decltype {
    ghost IsCopy = { λ a b. tree_of_decltype b ≡ tree_of_decltype a };

    fn try_clone(&self, alloc: Global) -> Result<Decltype> {
        copied(alloc, self)
    }
}

impl InCells for Prefix {
    ghost tree = { tree_of_prefix };

    fn put(&self, arena: &mut Arena) -> Result<u32> {
        prefix_to(arena, self)
    }

    fn made(alloc: Global, arena: &Arena, id: u32) -> Result<Prefix> {
        prefix_from(alloc, arena, id)
    }
}

impl TryClone for Prefix {
    ghost IsCopy = { λ a b. tree_of_prefix b ≡ tree_of_prefix a };

    fn try_clone(&self, alloc: Global) -> Result<Prefix> {
        copied(alloc, self)
    }
}

impl InCells for ArrayType {
    ghost tree = { tree_of_array_type };

    fn put(&self, arena: &mut Arena) -> Result<u32> {
        array_type_to(arena, self)
    }

    fn made(alloc: Global, arena: &Arena, id: u32) -> Result<ArrayType> {
        array_type_from(alloc, arena, id)
    }
}

impl TryClone for ArrayType {
    ghost IsCopy = { λ a b. tree_of_array_type b ≡ tree_of_array_type a };

    fn try_clone(&self, alloc: Global) -> Result<ArrayType> {
        copied(alloc, self)
    }
}

impl InCells for VectorType {
    ghost tree = { tree_of_vector_type };

    fn put(&self, arena: &mut Arena) -> Result<u32> {
        vector_type_to(arena, self)
    }

    fn made(alloc: Global, arena: &Arena, id: u32) -> Result<VectorType> {
        vector_type_from(alloc, arena, id)
    }
}

impl TryClone for VectorType {
    ghost IsCopy = { λ a b. tree_of_vector_type b ≡ tree_of_vector_type a };

    fn try_clone(&self, alloc: Global) -> Result<VectorType> {
        copied(alloc, self)
    }
}

impl InCells for ClassEnumType {
    ghost tree = { tree_of_class_enum_type };

    fn put(&self, arena: &mut Arena) -> Result<u32> {
        class_enum_type_to(arena, self)
    }

    fn made(alloc: Global, arena: &Arena, id: u32) -> Result<ClassEnumType> {
        class_enum_type_from(alloc, arena, id)
    }
}

impl TryClone for ClassEnumType {
    ghost IsCopy = { λ a b. tree_of_class_enum_type b ≡ tree_of_class_enum_type a };

    fn try_clone(&self, alloc: Global) -> Result<ClassEnumType> {
        copied(alloc, self)
    }
}

impl InCells for ExceptionSpec {
    ghost tree = { tree_of_exception_spec };

    fn put(&self, arena: &mut Arena) -> Result<u32> {
        exception_spec_to(arena, self)
    }

    fn made(alloc: Global, arena: &Arena, id: u32) -> Result<ExceptionSpec> {
        exception_spec_from(alloc, arena, id)
    }
}

impl TryClone for ExceptionSpec {
    ghost IsCopy = { λ a b. tree_of_exception_spec b ≡ tree_of_exception_spec a };

    fn try_clone(&self, alloc: Global) -> Result<ExceptionSpec> {
        copied(alloc, self)
    }
}

impl InCells for FunctionType {
    ghost tree = { tree_of_function_type };

    fn put(&self, arena: &mut Arena) -> Result<u32> {
        function_type_to(arena, self)
    }

    fn made(alloc: Global, arena: &Arena, id: u32) -> Result<FunctionType> {
        function_type_from(alloc, arena, id)
    }
}

impl TryClone for FunctionType {
    ghost IsCopy = { λ a b. tree_of_function_type b ≡ tree_of_function_type a };

    fn try_clone(&self, alloc: Global) -> Result<FunctionType> {
        copied(alloc, self)
    }
}

impl InCells for TypeNode {
    ghost tree = { tree_of_type_node };

    fn put(&self, arena: &mut Arena) -> Result<u32> {
        type_node_to(arena, self)
    }

    fn made(alloc: Global, arena: &Arena, id: u32) -> Result<TypeNode> {
        type_node_from(alloc, arena, id)
    }
}

impl TryClone for TypeNode {
    ghost IsCopy = { λ a b. tree_of_type_node b ≡ tree_of_type_node a };

    fn try_clone(&self, alloc: Global) -> Result<TypeNode> {
        copied(alloc, self)
    }
}

impl InCells for UnresolvedType {
    ghost tree = { tree_of_unresolved_type };

    fn put(&self, arena: &mut Arena) -> Result<u32> {
        unresolved_type_to(arena, self)
    }

    fn made(alloc: Global, arena: &Arena, id: u32) -> Result<UnresolvedType> {
        unresolved_type_from(alloc, arena, id)
    }
}

impl TryClone for UnresolvedType {
    ghost IsCopy = { λ a b. tree_of_unresolved_type b ≡ tree_of_unresolved_type a };

    fn try_clone(&self, alloc: Global) -> Result<UnresolvedType> {
        copied(alloc, self)
    }
}

impl InCells for Substitutable {
    ghost tree = { tree_of_substitutable };

    fn put(&self, arena: &mut Arena) -> Result<u32> {
        substitutable_to(arena, self)
    }

    fn made(alloc: Global, arena: &Arena, id: u32) -> Result<Substitutable> {
        substitutable_from(alloc, arena, id)
    }
}

impl TryClone for Substitutable {
    ghost IsCopy = { λ a b. tree_of_substitutable b ≡ tree_of_substitutable a };

    fn try_clone(&self, alloc: Global) -> Result<Substitutable> {
        copied(alloc, self)
    }
}
