//! Identifiers.

ghost use Rattle.std.specs.Prelude.{◌≡◌, ◌↔◌, ◌⊎◌, true, false, codes, IfOk, IfErr, IsErrOf};
ghost use Rattle.std.specs.List.{list_all};
ghost use Rattle.demangle_text.specs.Word.{starts};
ghost use Rattle.cpp_mangle.specs.Declarations.{is_name_byte, is_ident, begins_with_digit};

use crate::fault::MangleFault;
use std::alloc::Global;
use std::fmt;
use std::marker::Model;

/// The most bytes of an identifier.
const MOST_BYTES: usize = 255;

/// An identifier: 1 to 255 ASCII letters, digits and `_`, no digit first, and not `_GLOBAL_` first.
#[derive(Debug, Drop)]
pub struct Ident {
    text: String,
}

impl Model for Ident {
    ghost use Rattle.std.specs.Prelude.{◌≡◌, true, ℕ, List, string_bytes};
    ghost use Rattle.cpp_mangle.specs.Declarations.{is_ident};

    ghost Value = { List ℕ };

    ghost view = { λ i. string_bytes i.text };

    ghost invariant = { λ i. is_ident (string_bytes i.text) ≡ true };
}

/// Whether a byte may stand in an identifier.
fn is_name_byte(byte: u8) -> bool
    ensures { result ≡ is_name_byte byte }
{
    matches!(byte, b'0'..=b'9' | b'A'..=b'Z' | b'a'..=b'z' | b'_')
}

/// Whether the first byte is a digit.
fn begins_with_digit(bytes: &[u8]) -> bool
    ensures { result ≡ begins_with_digit bytes.now }
{
    matches!(bytes, [b'0'..=b'9', ..])
}

/// Whether each byte may stand in an identifier.
fn has_name_bytes(bytes: &[u8]) -> bool
    ensures { result ≡ list_all is_name_byte bytes.now }
{
    bytes.iter().all(|byte| is_name_byte(*byte))
}

/// Whether names of compilers begin so.
fn is_global(bytes: &[u8]) -> bool
    ensures { result ≡ starts (codes "_GLOBAL_") bytes.now }
{
    bytes.starts_with(b"_GLOBAL_")
}

/// Whether bytes are an identifier.
fn is_ident(bytes: &[u8]) -> bool
    ensures { result ≡ is_ident bytes.now }
{
    !bytes.is_empty()
        && bytes.len() <= MOST_BYTES
        && has_name_bytes(bytes)
        && !begins_with_digit(bytes)
        && !is_global(bytes)
}

impl Ident {
    /// The identifier of these bytes.
    ///
    /// `BadIdent` comes exactly where there are no bytes or more than 255, a byte is no ASCII letter, digit or `_`, the
    /// first is a digit, or they begin `_GLOBAL_`, as names of compilers do. `OutOfMemory` comes where there is no
    /// memory.
    pub fn new(alloc: Global, bytes: &[u8]) -> Result<Ident, MangleFault>
        ensures made { IfOk result (λ ident. ident ≡ bytes.now) }
        ensures refused { IsErrOf result MangleFault.BadIdent ↔ (is_ident bytes.now ≡ false) }
        ensures no_other { IfErr result (λ e. (e ≡ MangleFault.BadIdent) ⊎ (e ≡ MangleFault.OutOfMemory)) }
    {
        if !is_ident(bytes) {
            return Err(MangleFault::BadIdent);
        }
        match str::from_utf8(bytes) {
            Ok(text) => Ok(Ident {
                text: String::from_str(alloc, text)?,
            }),
            Err(_) => Err(MangleFault::BadIdent),
        }
    }

    /// Its text.
    pub fn as_str(&self) -> &str
        ensures text { result.now ≡ self.now }
        ensures ident { is_ident self.now ≡ true }
    {
        self.text.as_str()
    }
}

impl PartialEq for Ident {
    ghost use Rattle.std.specs.Prelude.{bytes_eq};
    ghost use Rattle.std.specs.Cmp.{partial_equiv_from_equiv};
    ghost use Rattle.std.proofs.lemmas.Cmp.{nat_list_eq_equiv};

    ghost eq = { λ a b. bytes_eq a b };

    ghost laws = { partial_equiv_from_equiv nat_list_eq_equiv };

    fn eq(&self, other: &Ident) -> bool {
        self.text == other.text
    }
}

impl Eq for Ident {
    ghost use Rattle.std.proofs.lemmas.Cmp.{nat_list_eq_equiv};

    ghost laws = { nat_list_eq_equiv };
}

impl fmt::Display for Ident {
    ghost use Rattle.std.specs.Prelude.{Some};

    ghost output = { λ i. Some i };

    fn fmt<W: fmt::Write>(&self, f: &mut fmt::Formatter<W>) -> fmt::Result {
        f.write_str(self.text.as_str())
    }
}
