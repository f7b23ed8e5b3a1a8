//! Single fields of nodes.

ghost use Rattle.std.specs.Prelude.{◌≡◌, option_map};
ghost use Rattle.demangle_core.specs.Fields.{explicit_object_of, qualifiers_of, ref_qualifier_of, reference_of};
ghost use Rattle.demangle_leaf_nodes.specs.TreeLeaves.{tree_of_prefix_handle, tree_of_unscoped_template_name_handle};
ghost use Rattle.demangle_leaf_nodes.specs.TreeLeaves.{tree_of_template_template_param_handle};
ghost use Rattle.demangle_leaf_nodes.specs.TreeLeaves.{tree_of_unresolved_type_handle, tree_of_type_handle};
ghost use Rattle.demangle_leaf_nodes.specs.TreeLeaves.{tree_of_nested_name, tree_of_cv_qualifiers};
ghost use Rattle.demangle_leaf_nodes.specs.TreeLeaves.{tree_of_ref_qualifier};

use crate::leaves::{
    CvQualifiers, NestedName, PrefixHandle, TemplateTemplateParamHandle, TypeHandle,
    UnresolvedTypeHandle, UnscopedTemplateNameHandle,
};
use demangle_vocab::RefQualifier;

impl PrefixHandle {
    /// The position of the numbered component that this refers to; `None` exactly where it refers to none. The
    /// original's method of this name.
    pub fn back_reference(&self) -> Option<usize>
        ensures { result ≡ reference_of (tree_of_prefix_handle self.now) }
    {
        match self {
            PrefixHandle::BackReference(idx) => Some(*idx),
            _ => None,
        }
    }
}

impl UnscopedTemplateNameHandle {
    /// The position of the numbered component that this refers to; `None` exactly where it refers to none. The
    /// original's method of this name.
    pub fn back_reference(&self) -> Option<usize>
        ensures { result ≡ reference_of (tree_of_unscoped_template_name_handle self.now) }
    {
        match self {
            UnscopedTemplateNameHandle::BackReference(idx) => Some(*idx),
            _ => None,
        }
    }
}

impl TemplateTemplateParamHandle {
    /// The position of the numbered component that this refers to; `None` exactly where it refers to none. The
    /// original's method of this name.
    pub fn back_reference(&self) -> Option<usize>
        ensures { result ≡ reference_of (tree_of_template_template_param_handle self.now) }
    {
        match self {
            TemplateTemplateParamHandle::BackReference(idx) => Some(*idx),
            _ => None,
        }
    }
}

impl UnresolvedTypeHandle {
    /// The position of the numbered component that this refers to; `None` exactly where it refers to none. The
    /// original's method of this name.
    pub fn back_reference(&self) -> Option<usize>
        ensures { result ≡ reference_of (tree_of_unresolved_type_handle self.now) }
    {
        match self {
            UnresolvedTypeHandle::BackReference(idx) => Some(*idx),
            _ => None,
        }
    }
}

impl TypeHandle {
    /// The position of the numbered component that this refers to; `None` exactly where it refers to none. The
    /// original's method of this name.
    pub fn back_reference(&self) -> Option<usize>
        ensures { result ≡ reference_of (tree_of_type_handle self.now) }
    {
        match self {
            TypeHandle::BackReference(idx) => Some(*idx),
            _ => None,
        }
    }
}

impl NestedName {
    /// The qualifiers; `None` exactly for the two explicit-object forms. The original's method of this name.
    pub fn cv_qualifiers(&self) -> Option<&CvQualifiers>
        ensures { option_map (λ x. tree_of_cv_qualifiers x.now) result ≡ qualifiers_of (tree_of_nested_name self.now) }
    {
        match self {
            NestedName::Unqualified(qualifiers, _, _, _) => Some(qualifiers),
            NestedName::Template(qualifiers, _, _) => Some(qualifiers),
            _ => None,
        }
    }

    /// The ref-qualifier; `None` exactly where there is none. The original's method of this name.
    pub fn ref_qualifier(&self) -> Option<&RefQualifier>
        ensures { option_map (λ x. tree_of_ref_qualifier x.now) result
            ≡ ref_qualifier_of (tree_of_nested_name self.now) }
    {
        match self {
            NestedName::Unqualified(_, Some(qualifier), _, _) => Some(qualifier),
            NestedName::Template(_, Some(qualifier), _) => Some(qualifier),
            _ => None,
        }
    }

    /// Whether this is one of the two explicit-object forms. The original's method of this name.
    pub fn has_explicit_obj_param(&self) -> bool
        ensures { result ≡ explicit_object_of (tree_of_nested_name self.now) }
    {
        match self {
            NestedName::UnqualifiedExplicitObject(_, _, _) => true,
            NestedName::TemplateExplicitObject(_, _) => true,
            _ => false,
        }
    }
}
