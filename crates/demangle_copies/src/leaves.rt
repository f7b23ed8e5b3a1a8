//! Copies of the node types that own memory and hold no name, expression or encoding.

ghost use Rattle.std.specs.Prelude.{◌≡◌};
ghost use Rattle.demangle_leaf_nodes.specs.TreeLeaves.{
  tree_of_abi_tags,
  tree_of_bare_function_type,
  tree_of_clone_suffix,
  tree_of_closure_type_name,
  tree_of_lambda_sig,
  tree_of_nested_name,
  tree_of_unqualified_name,
  tree_of_unscoped_name,
  tree_of_unscoped_template_name,
};

use crate::try_clone::TryClone;
use demangle_entries::{
    AbiTags, BareFunctionType, CloneSuffix, ClosureTypeName, LambdaSig, NestedName,
    UnqualifiedName, UnscopedName, UnscopedTemplateName,
};
use demangle_text::Result;
use std::alloc::Global;

impl TryClone for AbiTags {
    ghost IsCopy = { λ a b. tree_of_abi_tags b ≡ tree_of_abi_tags a };

    fn try_clone(&self, alloc: Global) -> Result<AbiTags> {
        AbiTags::try_clone(self, alloc)
    }
}

impl TryClone for CloneSuffix {
    ghost IsCopy = { λ a b. tree_of_clone_suffix b ≡ tree_of_clone_suffix a };

    fn try_clone(&self, alloc: Global) -> Result<CloneSuffix> {
        CloneSuffix::try_clone(self, alloc)
    }
}

impl TryClone for BareFunctionType {
    ghost IsCopy = { λ a b. tree_of_bare_function_type b ≡ tree_of_bare_function_type a };

    fn try_clone(&self, alloc: Global) -> Result<BareFunctionType> {
        BareFunctionType::try_clone(self, alloc)
    }
}

impl TryClone for LambdaSig {
    ghost IsCopy = { λ a b. tree_of_lambda_sig b ≡ tree_of_lambda_sig a };

    fn try_clone(&self, alloc: Global) -> Result<LambdaSig> {
        LambdaSig::try_clone(self, alloc)
    }
}

impl TryClone for ClosureTypeName {
    ghost IsCopy = { λ a b. tree_of_closure_type_name b ≡ tree_of_closure_type_name a };

    fn try_clone(&self, alloc: Global) -> Result<ClosureTypeName> {
        ClosureTypeName::try_clone(self, alloc)
    }
}

impl TryClone for UnqualifiedName {
    ghost IsCopy = { λ a b. tree_of_unqualified_name b ≡ tree_of_unqualified_name a };

    fn try_clone(&self, alloc: Global) -> Result<UnqualifiedName> {
        UnqualifiedName::try_clone(self, alloc)
    }
}

impl TryClone for UnscopedName {
    ghost IsCopy = { λ a b. tree_of_unscoped_name b ≡ tree_of_unscoped_name a };

    fn try_clone(&self, alloc: Global) -> Result<UnscopedName> {
        UnscopedName::try_clone(self, alloc)
    }
}

impl TryClone for UnscopedTemplateName {
    ghost IsCopy = { λ a b. tree_of_unscoped_template_name b ≡ tree_of_unscoped_template_name a };

    fn try_clone(&self, alloc: Global) -> Result<UnscopedTemplateName> {
        UnscopedTemplateName::try_clone(self, alloc)
    }
}

impl TryClone for NestedName {
    ghost IsCopy = { λ a b. tree_of_nested_name b ≡ tree_of_nested_name a };

    fn try_clone(&self, alloc: Global) -> Result<NestedName> {
        NestedName::try_clone(self, alloc)
    }
}
