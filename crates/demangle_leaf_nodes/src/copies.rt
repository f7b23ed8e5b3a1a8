//! Copies of the node types of `leaves` that own memory.

ghost use Rattle.std.specs.Prelude.{◌≡◌, IfOk, IfErr};
ghost use Rattle.demangle_core.specs.Core.{trees};
ghost use Rattle.demangle_text.specs.declared.error.Error.TheVariants.{OutOfMemory};
ghost use Rattle.demangle_leaf_nodes.specs.TreeLeaves.{
  parts_of_clone_suffix,
  tag_of_clone_suffix,
  tree_of_abi_tags,
  tree_of_bare_function_type,
  tree_of_clone_suffix,
  tree_of_closure_type_name,
  tree_of_lambda_sig,
  tree_of_nested_name,
  tree_of_unqualified_name,
  tree_of_unscoped_name,
  tree_of_unscoped_template_name,
};

use crate::leaves::{
    AbiTags, BareFunctionType, CloneSuffix, ClosureTypeName, LambdaSig, NestedName,
    UnqualifiedName, UnscopedName, UnscopedTemplateName,
};
use demangle_text::Result;
use std::alloc::Global;

impl AbiTags {
    /// A copy, equal to what is copied. `OutOfMemory` is its only refusal. The original's `clone`.
    pub fn try_clone(&self, alloc: Global) -> Result<AbiTags>
        ensures equal { IfOk result (λ r. tree_of_abi_tags r ≡ tree_of_abi_tags self.now) }
        ensures refused { IfErr result (λ e. e ≡ OutOfMemory) }
    {
        Ok(AbiTags(Vec::from_slice(alloc, &self.0)?))
    }
}

impl CloneSuffix {
    /// A copy, equal to what is copied. `OutOfMemory` is its only refusal. The original's `clone`.
    pub fn try_clone(&self, alloc: Global) -> Result<CloneSuffix>
        ensures equal { IfOk result (λ r. tree_of_clone_suffix r ≡ tree_of_clone_suffix self.now) }
        ensures refused { IfErr result (λ e. e ≡ OutOfMemory) }
    {
        Ok(CloneSuffix(self.0, Vec::from_slice(alloc, &self.1)?))
    }
}

/// A copy of the suffixes of a clone, equal to them. `OutOfMemory` is its only refusal.
pub fn clone_suffixes(alloc: Global, items: &[CloneSuffix]) -> Result<Vec<CloneSuffix>>
    ensures same_trees { IfOk result (λ r. trees tag_of_clone_suffix parts_of_clone_suffix r.items
        ≡ trees tag_of_clone_suffix parts_of_clone_suffix items.now) }
    ensures refused { IfErr result (λ e. e ≡ OutOfMemory) }
{
    let mut copy = Vec::with_capacity(alloc, items.len())?;
    for item in items {
        copy.push(item.try_clone(alloc)?)?;
    }
    Ok(copy)
}

impl BareFunctionType {
    /// A copy, equal to what is copied. `OutOfMemory` is its only refusal. The original's `clone`.
    pub fn try_clone(&self, alloc: Global) -> Result<BareFunctionType>
        ensures equal { IfOk result (λ r. tree_of_bare_function_type r ≡ tree_of_bare_function_type self.now) }
        ensures refused { IfErr result (λ e. e ≡ OutOfMemory) }
    {
        Ok(BareFunctionType(Vec::from_slice(alloc, &self.0)?))
    }
}

impl LambdaSig {
    /// A copy, equal to what is copied. `OutOfMemory` is its only refusal. The original's `clone`.
    pub fn try_clone(&self, alloc: Global) -> Result<LambdaSig>
        ensures equal { IfOk result (λ r. tree_of_lambda_sig r ≡ tree_of_lambda_sig self.now) }
        ensures refused { IfErr result (λ e. e ≡ OutOfMemory) }
    {
        Ok(LambdaSig(Vec::from_slice(alloc, &self.0)?))
    }
}

impl ClosureTypeName {
    /// A copy, equal to what is copied. `OutOfMemory` is its only refusal. The original's `clone`.
    pub fn try_clone(&self, alloc: Global) -> Result<ClosureTypeName>
        ensures equal { IfOk result (λ r. tree_of_closure_type_name r ≡ tree_of_closure_type_name self.now) }
        ensures refused { IfErr result (λ e. e ≡ OutOfMemory) }
    {
        Ok(ClosureTypeName(self.0.try_clone(alloc)?, self.1))
    }
}

impl UnqualifiedName {
    /// A copy, equal to what is copied. `OutOfMemory` is its only refusal. The original's `clone`.
    pub fn try_clone(&self, alloc: Global) -> Result<UnqualifiedName>
        ensures equal { IfOk result (λ r. tree_of_unqualified_name r ≡ tree_of_unqualified_name self.now) }
        ensures refused { IfErr result (λ e. e ≡ OutOfMemory) }
    {
        match self {
            UnqualifiedName::Operator(name, tags) => Ok(UnqualifiedName::Operator(
                *name,
                tags.try_clone(alloc)?,
            )),
            UnqualifiedName::CtorDtor(name, tags) => Ok(UnqualifiedName::CtorDtor(
                *name,
                tags.try_clone(alloc)?,
            )),
            UnqualifiedName::Source(name, tags) => Ok(UnqualifiedName::Source(
                *name,
                tags.try_clone(alloc)?,
            )),
            UnqualifiedName::LocalSourceName(name, discriminator, tags) => {
                Ok(UnqualifiedName::LocalSourceName(*name, *discriminator, tags.try_clone(alloc)?))
            }
            UnqualifiedName::UnnamedType(name, tags) => Ok(UnqualifiedName::UnnamedType(
                *name,
                tags.try_clone(alloc)?,
            )),
            UnqualifiedName::ClosureType(name, tags) => {
                let name = name.try_clone(alloc)?;
                Ok(UnqualifiedName::ClosureType(name, tags.try_clone(alloc)?))
            }
        }
    }
}

impl UnscopedName {
    /// A copy, equal to what is copied. `OutOfMemory` is its only refusal. The original's `clone`.
    pub fn try_clone(&self, alloc: Global) -> Result<UnscopedName>
        ensures equal { IfOk result (λ r. tree_of_unscoped_name r ≡ tree_of_unscoped_name self.now) }
        ensures refused { IfErr result (λ e. e ≡ OutOfMemory) }
    {
        match self {
            UnscopedName::Unqualified(name) => Ok(UnscopedName::Unqualified(name.try_clone(
                alloc,
            )?)),
            UnscopedName::Std(name) => Ok(UnscopedName::Std(name.try_clone(alloc)?)),
        }
    }
}

impl UnscopedTemplateName {
    /// A copy, equal to what is copied. `OutOfMemory` is its only refusal. The original's `clone`.
    pub fn try_clone(&self, alloc: Global) -> Result<UnscopedTemplateName>
        ensures equal { IfOk result (λ r. tree_of_unscoped_template_name r ≡ tree_of_unscoped_template_name self.now) }
        ensures refused { IfErr result (λ e. e ≡ OutOfMemory) }
    {
        Ok(UnscopedTemplateName(self.0.try_clone(alloc)?))
    }
}

impl NestedName {
    /// A copy, equal to what is copied. `OutOfMemory` is its only refusal. The original's `clone`.
    pub fn try_clone(&self, alloc: Global) -> Result<NestedName>
        ensures equal { IfOk result (λ r. tree_of_nested_name r ≡ tree_of_nested_name self.now) }
        ensures refused { IfErr result (λ e. e ≡ OutOfMemory) }
    {
        match self {
            NestedName::Unqualified(qualifiers, reference, prefix, name) => {
                Ok(NestedName::Unqualified(
                    *qualifiers,
                    *reference,
                    *prefix,
                    name.try_clone(alloc)?,
                ))
            }
            NestedName::Template(qualifiers, reference, prefix) => Ok(NestedName::Template(
                *qualifiers,
                *reference,
                *prefix,
            )),
            NestedName::UnqualifiedExplicitObject(prefix, name, object) => {
                Ok(NestedName::UnqualifiedExplicitObject(*prefix, name.try_clone(alloc)?, *object))
            }
            NestedName::TemplateExplicitObject(prefix, object) => Ok(
                NestedName::TemplateExplicitObject(*prefix, *object),
            ),
        }
    }
}
