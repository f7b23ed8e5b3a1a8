//! Paths: the scopes of a class or a function and its own name.

ghost use Rattle.std.specs.Prelude.{◌≡◌, ◌↔◌, true, false, IfOk, IsErrOf, IsOkUnless};
ghost use Rattle.std.specs.List.{list_all};
ghost use Rattle.cpp_mangle.specs.Declarations.{is_ident, is_path, is_std};

use crate::fault::MangleFault;
use crate::ident::Ident;
use std::fmt;
use std::marker::Model;

/// The most parts of a path.
const MOST_PARTS: usize = 16;

/// The scopes of a class or a function, the outermost first, and its own name. A path has 1 to 16 parts, of which the
/// first isn't `std`: names in it have spellings of their own (ABI section 5.1.10).
#[derive(Debug, Drop)]
pub struct Path {
    parts: Vec<Ident>,
}

impl Model for Path {
    ghost use Rattle.std.specs.Prelude.{◌≡◌, true, ℕ, List};
    ghost use Rattle.cpp_mangle.specs.Declarations.{is_path};

    ghost Value = { List (List ℕ) };

    ghost view = { λ p. p.parts.items };

    ghost invariant = { λ p. is_path p.parts.items ≡ true };
}

/// Whether the first part is `std`.
fn is_std(parts: &[Ident]) -> bool
    ensures { result ≡ is_std parts.now }
{
    match parts {
        [first, ..] => first.as_str() == "std",
        [] => false,
    }
}

/// Each of these is an identifier: what each keeps, of all.
fn each_is_ident(parts: &[Ident])
    ensures { list_all is_ident parts.now ≡ true }
{
    for part in parts {
        let _ = part.as_str();
    }
}

impl Path {
    /// The path of these parts.
    ///
    /// `BadPath` comes exactly where there are no parts or more than 16, or the first is `std`.
    pub fn new(parts: Vec<Ident>) -> Result<Path, MangleFault>
        ensures made { IfOk result (λ path. path ≡ parts.items) }
        ensures refused { IsErrOf result MangleFault.BadPath ↔ (is_path parts.items ≡ false) }
        ensures no_other { IsOkUnless result MangleFault.BadPath }
    {
        each_is_ident(&parts);
        if parts.is_empty() || parts.len() > MOST_PARTS || is_std(&parts) {
            return Err(MangleFault::BadPath);
        }
        Ok(Path { parts })
    }

    /// Its parts.
    pub fn parts(&self) -> &[Ident]
        ensures parts { result.now ≡ self.now }
        ensures path { is_path self.now ≡ true }
    {
        self.parts.as_slice()
    }
}

impl PartialEq for Path {
    ghost use Rattle.std.specs.Cmp.{partial_equiv_from_equiv};
    ghost use Rattle.cpp_mangle.specs.Declarations.{same_parts};
    ghost use Rattle.cpp_mangle.specs.Same.{parts_equiv};

    ghost eq = { λ a b. same_parts a b };

    ghost laws = { partial_equiv_from_equiv parts_equiv };

    fn eq(&self, other: &Path) -> bool {
        self.parts() == other.parts()
    }
}

impl Eq for Path {
    ghost use Rattle.cpp_mangle.specs.Same.{parts_equiv};

    ghost laws = { parts_equiv };
}

impl fmt::Display for Path {
    ghost use Rattle.std.specs.Prelude.{Some};
    ghost use Rattle.cpp_mangle.specs.Declarations.{path_text};

    ghost output = { λ p. Some (path_text p) };

    fn fmt<W: fmt::Write>(&self, f: &mut fmt::Formatter<W>) -> fmt::Result {
        let [first, rest @ ..] = self.parts() else {
            return Ok(());
        };
        first.fmt(f)?;
        for part in rest {
            f.write_str("::")?;
            part.fmt(f)?;
        }
        Ok(())
    }
}
