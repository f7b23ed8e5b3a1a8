//! The parts of names.

use cpp_demangle::{BorrowedSymbol, DemangleOptions, Symbol};
use demangle_parts::parts_of;
use std::alloc::{AllocError, Global};

/// The parts of a name as one text, or why it has none.
fn shown(alloc: Global, name: &[u8]) -> Result<String, AllocError> {
    let symbol: BorrowedSymbol<'_> = match Symbol::new(alloc, name) {
        Ok(symbol) => symbol,
        Err(error) => return format!(in alloc; "Read {error:?}"),
    };
    let parts = match parts_of(alloc, &symbol, &DemangleOptions::new()) {
        Ok(parts) => parts,
        Err(error) => return format!(in alloc; "Print {error:?}"),
    };
    let kind = parts.kind();
    let scope = parts.scope().unwrap_or("-");
    let base = parts.base();
    let after = parts.after();
    match parts.arity() {
        None => format!(in alloc; "{kind:?}|{scope}|{base}|{after}|-"),
        Some(arity) => format!(in alloc; "{kind:?}|{scope}|{base}|{after}|{arity}"),
    }
}

/// Names of each kind, and some whose parts are easily taken for others.
static ROWS: [(&[u8], &str); 11] = [
    // A scope in a class of a template, and one in a namespace.
    (
        b"_ZNSt6vectorIiSaIiEE9push_backERKi",
        "Function|std::vector<int, std::allocator<int> >|push_back|(int const&)|1",
    ),
    (b"_ZSt4cout", "Data|std|cout||-"),
    // Template arguments go to the base, and the result isn't counted.
    (b"_Z1fIiEvT_", "Function|-|f<int>|(int)|1"),
    (b"_ZTV1a", "Special|-|{vtable(a)}||-"),
    (
        b"_GLOBAL__I__Z1fv",
        "Keyed|-|global constructors keyed to f()||-",
    ),
    (
        b"___Z1fv_block_invoke",
        "Block|-|invocation function for block in f()||-",
    ),
    (b"Pi", "TopType|-|int*||-"),
    // What stands in a function has no scope.
    (
        b"_ZZ1fvENKUlvE_clEv",
        "Function|-|f()::{lambda()#1}::operator()() const||0",
    ),
    (b"_Z1fT_", "Print Reference(BadTemplateArgReference)"),
    (b"_Z", "Read UnexpectedEnd"),
    // The cases from elsewhere have this as no name: they were made before identifiers held characters past ASCII.
    (b"_Z2\xc3\xa9v", "Function|-|\u{e9}|()|0"),
];

#[test]
fn names_of_each_kind_have_their_parts(rt: HostRuntime) -> Result<(), AllocError> {
    for (name, parts) in &ROWS {
        let found = shown(rt.alloc(), *name)?;
        assert_eq!(rt; found.as_str(), *parts, "at {name:?}");
    }
    Ok(())
}
