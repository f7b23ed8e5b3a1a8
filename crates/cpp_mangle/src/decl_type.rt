//! Types of parameters.

ghost use Rattle.std.specs.Prelude.{◌≡◌, ◌&&◌, nat_le};
ghost use Rattle.cpp_mangle.specs.Declarations.{may_be_const, is_object, modifiers, is_param};
ghost use Rattle.cpp_mangle.specs.Plain.{plain_type};

use crate::path::Path;
use demangle_vocab::StandardBuiltinType;
use std::fmt;

/// The most modifiers of a parameter's type.
const MOST_MODIFIERS: u8 = 16;

/// The type of a parameter. `Decl::new` says which of these a parameter may have.
#[derive(Debug, Drop)]
pub enum DeclType {
    /// A builtin type that is one word, `int`.
    Builtin(StandardBuiltinType),
    /// A class, `a::b`.
    Class(Path),
    /// A pointer, `int*`.
    Pointer(Box<DeclType>),
    /// An lvalue reference, `int&`.
    Ref(Box<DeclType>),
    /// An rvalue reference, `int&&`.
    RvalueRef(Box<DeclType>),
    /// A constant type, `int const`.
    Const(Box<DeclType>),
}

impl DeclType {
    /// Whether `const` may stand directly on it: it is neither a constant type nor a reference.
    fn may_be_const(&self) -> bool
        ensures { result ≡ may_be_const (plain_type self.now) }
    {
        !matches!(
            self,
            DeclType::Const(_) | DeclType::Ref(_) | DeclType::RvalueRef(_)
        )
    }

    /// Whether it has no reference, no `const` directly on `const`, and at most so many modifiers.
    fn is_object(&self, most: u8) -> bool
        ensures { result ≡ (is_object (plain_type self.now) && nat_le (modifiers (plain_type self.now)) most) }
    {
        match self {
            DeclType::Builtin(_) => true,
            DeclType::Class(path) => {
                let _ = path.parts();
                true
            }
            DeclType::Pointer(inner) => most > 0 && inner.is_object(most - 1),
            DeclType::Const(inner) => {
                most > 0 && inner.may_be_const() && inner.is_object(most - 1)
            }
            DeclType::Ref(_) | DeclType::RvalueRef(_) => false,
        }
    }

    /// Whether a parameter may have it.
    pub(crate) fn is_param(&self) -> bool
        ensures { result ≡ is_param (plain_type self.now) }
    {
        match self {
            DeclType::Builtin(StandardBuiltinType::Void) => false,
            DeclType::Ref(inner) | DeclType::RvalueRef(inner) => {
                inner.is_object(MOST_MODIFIERS - 1)
            }
            _ => self.is_object(MOST_MODIFIERS),
        }
    }
}

impl PartialEq for DeclType {
    ghost use Rattle.std.specs.Cmp.{on_per, partial_equiv_from_equiv};
    ghost use Rattle.cpp_mangle.specs.Declarations.{same_type};
    ghost use Rattle.cpp_mangle.specs.Plain.{plain_type};
    ghost use Rattle.cpp_mangle.specs.Same.{type_equiv};

    ghost eq = { λ a b. same_type (plain_type a) (plain_type b) };

    ghost laws = { on_per plain_type (partial_equiv_from_equiv type_equiv) };

    fn eq(&self, other: &DeclType) -> bool {
        match self {
            DeclType::Builtin(a) => match other {
                DeclType::Builtin(b) => a == b,
                _ => false,
            },
            DeclType::Class(a) => match other {
                DeclType::Class(b) => a == b,
                _ => false,
            },
            DeclType::Pointer(a) => match other {
                DeclType::Pointer(b) => **a == **b,
                _ => false,
            },
            DeclType::Ref(a) => match other {
                DeclType::Ref(b) => **a == **b,
                _ => false,
            },
            DeclType::RvalueRef(a) => match other {
                DeclType::RvalueRef(b) => **a == **b,
                _ => false,
            },
            DeclType::Const(a) => match other {
                DeclType::Const(b) => **a == **b,
                _ => false,
            },
        }
    }
}

impl Eq for DeclType {
    ghost use Rattle.std.specs.Cmp.{on_equiv};
    ghost use Rattle.cpp_mangle.specs.Plain.{plain_type};
    ghost use Rattle.cpp_mangle.specs.Same.{type_equiv};

    ghost laws = { on_equiv plain_type type_equiv };
}

impl fmt::Display for DeclType {
    ghost use Rattle.std.specs.Prelude.{Some};
    ghost use Rattle.cpp_mangle.specs.Declarations.{type_text};
    ghost use Rattle.cpp_mangle.specs.Plain.{plain_type};

    ghost output = { λ t. Some (type_text (plain_type t)) };

    fn fmt<W: fmt::Write>(&self, f: &mut fmt::Formatter<W>) -> fmt::Result {
        match self {
            DeclType::Builtin(word) => f.write_str(word.text()),
            DeclType::Class(path) => path.fmt(f),
            DeclType::Pointer(inner) => {
                (**inner).fmt(f)?;
                f.write_str("*")
            }
            DeclType::Ref(inner) => {
                (**inner).fmt(f)?;
                f.write_str("&")
            }
            DeclType::RvalueRef(inner) => {
                (**inner).fmt(f)?;
                f.write_str("&&")
            }
            DeclType::Const(inner) => {
                (**inner).fmt(f)?;
                f.write_str(" const")
            }
        }
    }
}
