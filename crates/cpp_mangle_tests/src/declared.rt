//! Declarations from text.

use cpp_mangle::{Decl, DeclType, Ident, Path};
use demangle_text::IndexStr;
use demangle_vocab::StandardBuiltinType;
use std::alloc::Global;
use std::test::Fail;

/// A declaration, its name and its text. Its parameters are spelled with a space between: each is the letters of its
/// modifiers, a colon, and a path, or a dot and the word of a builtin type.
pub(crate) struct Row {
    pub(crate) path: &'static str,
    pub(crate) params: &'static str,
    pub(crate) name: &'static str,
    pub(crate) text: &'static str,
}

/// A path by its parts, with `::` between.
pub(crate) fn path(alloc: Global, text: &str) -> Result<Path, Fail> {
    let mut parts = Vec::new(alloc);
    for part in text.split("::") {
        parts.push(Ident::new(alloc, part.as_bytes())?)?;
    }
    Ok(Path::new(parts)?)
}

/// What modifiers stand on.
fn base(alloc: Global, text: &str) -> Result<DeclType, Fail> {
    match text.strip_prefix(".") {
        Some(word) => {
            let (builtin, _) = StandardBuiltinType::read_word(IndexStr::new(word.as_bytes()))?;
            Ok(DeclType::Builtin(builtin))
        }
        None => Ok(DeclType::Class(path(alloc, text)?)),
    }
}

/// A type, modified by one letter.
fn modified(alloc: Global, letter: char, inner: DeclType) -> Result<DeclType, Fail> {
    let inner = Box::new(alloc, inner)?;
    Ok(match letter {
        'P' => DeclType::Pointer(inner),
        'R' => DeclType::Ref(inner),
        'O' => DeclType::RvalueRef(inner),
        _ => DeclType::Const(inner),
    })
}

/// The type of a parameter.
fn param(alloc: Global, text: &str) -> Result<DeclType, Fail> {
    let (modifiers, inner) = text.split_once(':').ok_or("a parameter without a colon")?;
    let mut whole = base(alloc, inner)?;
    for letter in modifiers.chars().rev() {
        whole = modified(alloc, letter, whole)?;
    }
    Ok(whole)
}

/// The types of parameters.
pub(crate) fn params(alloc: Global, text: &str) -> Result<Vec<DeclType>, Fail> {
    let mut types = Vec::new(alloc);
    for one in text.split_whitespace() {
        types.push(param(alloc, one)?)?;
    }
    Ok(types)
}

/// The declaration of a row.
pub(crate) fn declared(alloc: Global, row: &Row) -> Result<Decl, Fail> {
    Ok(Decl::new(path(alloc, row.path)?, params(alloc, row.params)?)?)
}
