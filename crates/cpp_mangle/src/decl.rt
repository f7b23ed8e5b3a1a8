//! Declarations of functions.

ghost use Rattle.std.specs.Prelude.{◌≡◌, ◌↔◌, true, false, IfOk, IsErrOf, IsOkUnless, map};
ghost use Rattle.std.specs.Fmt.{WritesOnOk};
ghost use Rattle.std.specs.List.{list_all};
ghost use Rattle.cpp_mangle.specs.Declarations.{is_param, are_params, is_decl, types_text};
ghost use Rattle.cpp_mangle.specs.Plain.{declared, plain_type};

use crate::decl_type::DeclType;
use crate::fault::MangleFault;
use crate::path::Path;
use std::fmt::{self, Display};
use std::marker::Model;

/// The most parameters of a declaration.
const MOST_PARAMS: usize = 64;

/// The declaration of a function: its path and the types of its parameters.
#[derive(Debug, Drop)]
pub struct Decl {
    path: Path,
    params: Vec<DeclType>,
}

impl Model for Decl {
    ghost use Rattle.std.specs.Prelude.{◌≡◌, true};
    ghost use Rattle.cpp_mangle.specs.Declarations.{PlainDecl, is_decl};
    ghost use Rattle.cpp_mangle.specs.Coding.{decl_code};

    ghost Value = { PlainDecl };

    ghost coded = { decl_code };

    ghost use Rattle.cpp_mangle.specs.Plain.{declared};

    ghost view = { λ d. declared d.path d.params.items };

    ghost invariant = { λ d. is_decl (declared d.path d.params.items) ≡ true };
}

/// Whether a parameter may have each of these types.
fn each_is_param(params: &[DeclType]) -> bool
    ensures { result ≡ list_all (λ t. is_param (plain_type t)) params.now }
{
    params.iter().all(|param| param.is_param())
}

/// Whether a function may have parameters of these types.
fn are_params(params: &[DeclType]) -> bool
    ensures { result ≡ are_params (map plain_type params.now) }
{
    params.len() <= MOST_PARAMS && each_is_param(params)
}

impl Decl {
    /// The declaration of the function with this path and parameters of these types.
    ///
    /// `BadType` comes exactly where there are more than 64 parameters, one has more than 16 modifiers, a `Const`
    /// stands directly on a `Const` or on a reference, a reference isn't outermost, or a parameter is `void` itself.
    pub fn new(path: Path, params: Vec<DeclType>) -> Result<Decl, MangleFault>
        ensures made { IfOk result (λ decl. decl ≡ declared path params.items) }
        ensures refused { IsErrOf result MangleFault.BadType ↔ (is_decl (declared path params.items) ≡ false) }
        ensures no_other { IsOkUnless result MangleFault.BadType }
    {
        let _ = path.parts();
        if !are_params(&params) {
            return Err(MangleFault::BadType);
        }
        Ok(Decl { path, params })
    }

    /// Its path.
    pub fn path(&self) -> &Path
        ensures path { result.now ≡ self.now.path }
        ensures decl { is_decl self.now ≡ true }
    {
        &self.path
    }

    /// The types of its parameters.
    pub fn params(&self) -> &[DeclType]
        ensures { map plain_type result.now ≡ self.now.params }
    {
        self.params.as_slice()
    }
}

/// Writes the types of parameters, with `, ` between.
fn write_types<W: fmt::Write>(types: &[DeclType], f: &mut fmt::Formatter<W>) -> fmt::Result
    ensures { WritesOnOk W.write_str_gives f.old result (types_text (map plain_type types.now)) f.new }
{
    let [first, rest @ ..] = types else {
        return Ok(());
    };
    first.fmt(f)?;
    for one in rest {
        f.write_str(", ")?;
        one.fmt(f)?;
    }
    Ok(())
}

impl fmt::Display for Decl {
    ghost use Rattle.std.specs.Prelude.{Some};
    ghost use Rattle.cpp_mangle.specs.Declarations.{decl_text};

    ghost output = { λ d. Some (decl_text d) };

    fn fmt<W: fmt::Write>(&self, f: &mut fmt::Formatter<W>) -> fmt::Result {
        self.path().fmt(f)?;
        f.write_str("(")?;
        write_types(self.params(), f)?;
        f.write_str(")")
    }
}
