//! Names by scope.

ghost use Rattle.std.specs.Prelude.{◌≡◌, List, [], ◌∷◌, ◌++◌, IfErr, IfOk, OnOk, length};
ghost use Rattle.demangle_context.specs.declared.error.DemangleError.TheVariants.{OutOfMemory};
ghost use Rattle.cpp_demangle.specs.SymbolOf.{contents_of};
ghost use Rattle.demangle_groups.specs.Kept.{Keeps};
ghost use Rattle.demangle_groups.specs.Places.{Entry, Gathers, HasScopes, IsIndexOf, Rises, positions};
ghost use Rattle.demangle_groups.specs.Shown.{refused_of, shown};
ghost use Rattle.demangle_parts.specs.Entries.{entries, entry, entry_in, entry_of, has_no_text};
ghost use Rattle.demangle_parts.specs.Parts.{divided};

use crate::parts::{Parts, parts_of};
use cpp_demangle::{BorrowedSymbol, DemangleOptions, Symbol};
use demangle_context::DemangleError;
use demangle_groups::{Index, IndexBuilder};
use demangle_text::Error;
use std::alloc::{AllocError, Global};

/// The parts of a name that was read; `None` where its tree isn't printed.
fn parts_of_symbol(
    alloc: Global,
    symbol: &BorrowedSymbol<'_>,
    print: &DemangleOptions,
) -> Result<Option<Parts>, AllocError>
    ensures { IfOk result (λ parts. entry_in parts ≡ entry_of (divided print.now (contents_of symbol.now))) }
{
    match parts_of(alloc, symbol, print) {
        Ok(parts) => Ok(Some(parts)),
        Err(error) => match error {
            DemangleError::OutOfMemory => Err(AllocError),
            _ => Ok(None),
        },
    }
}

/// The parts of a name; `None` where it has no text.
fn parts_of_name(
    alloc: Global,
    name: &[u8],
    print: &DemangleOptions,
) -> Result<Option<Parts>, AllocError>
    ensures { IfOk result (λ parts. entry_in parts ≡ entry print.now name.now) }
{
    let symbol: Result<BorrowedSymbol<'_>, Error> = Symbol::new(alloc, name);
    match symbol {
        Ok(symbol) => parts_of_symbol(alloc, &symbol, print),
        Err(error) => match error {
            Error::OutOfMemory => Err(AllocError),
            _ => Ok(None),
        },
    }
}

/// Adds the name at this position.
fn add_name(
    alloc: Global,
    builder: &mut IndexBuilder,
    position: usize,
    name: &[u8],
    print: &DemangleOptions,
) -> Result<(), AllocError>
    ensures { (es : List Entry) → length es ≡ position → Keeps builder.old es
        → OnOk result (Keeps builder.new (es ++ entry print.now name.now ∷ [])) }
{
    match parts_of_name(alloc, name, print)? {
        None => builder.refuse(position),
        Some(parts) => builder.add(parts.scope(), position),
    }
}

fn indexed(alloc: Global, names: &[Vec<u8>], print: &DemangleOptions) -> Result<Index, AllocError>
    ensures { IfOk result (λ index. IsIndexOf (entries print.now names.now) (shown index)) }
{
    let mut builder = IndexBuilder::new(alloc);
    for (position, name) in names.iter().enumerate() {
        add_name(alloc, &mut builder, position, name.as_slice(), print)?;
    }
    builder.finish()
}

/// The names by scope. Each is read under the default options, and divided as `parts_of` does, printed under these
/// without a result type. Each position is in one group, that of the name's scope, or in `refused`, where the name
/// isn't read or its tree isn't printed. `OutOfMemory` is the one refusal.
pub fn index_of(
    alloc: Global,
    names: &[Vec<u8>],
    print: &DemangleOptions,
) -> Result<Index, DemangleError>
    ensures refused { IfOk result (λ index. refused_of index ≡ positions (has_no_text print.now) names.now) }
    ensures rises { IfOk result (λ index. Rises (shown index)) }
    ensures gathers { IfOk result (λ index. Gathers (entries print.now names.now) (shown index)) }
    ensures has_scopes { IfOk result (λ index. HasScopes (entries print.now names.now) (shown index)) }
    ensures lacked { IfErr result (λ e. e ≡ OutOfMemory) }
{
    match indexed(alloc, names, print) {
        Ok(index) => Ok(index),
        Err(_) => Err(DemangleError::OutOfMemory),
    }
}
