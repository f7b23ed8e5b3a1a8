//! Symbols: what is kept of a name, tails, copies, and what a listener is told.

use crate::checks::{holds, same};
use crate::listener::Noted;
use cpp_demangle::error::{DemangleError, Error};
use cpp_demangle::{
    BorrowedSymbol, DemangleOptions, OwnedSymbol, ParseOptions, SymbolFault,
    structured_demangle_symbol,
};
use std::alloc::Global;
use std::process::Abort;
use std::test::Fail;

const NAME: &[u8] = b"_ZN5space3fooEibc";

const TEXT: &str = "space::foo(int, bool, char)";

/// Names, the piece at which a listener fails, what it is told nevertheless, and the fault.
static TOLD: [(&[u8], u64, &str, Option<DemangleError>); 8] = [
    (b"_ZN1a1bEv", u64::MAX, "<N <P <U a>>::<U b>>()", None),
    (b"_ZN1a1bEv", 0, "<N <P <U >>>", Some(DemangleError::Sink)),
    (b"_ZN1a1bEv", 1, "<N <P <U a>>>", Some(DemangleError::Sink)),
    (
        b"_ZN1a1bEv",
        2,
        "<N <P <U a>>::<U >>",
        Some(DemangleError::Sink),
    ),
    (
        b"_ZN1a1bEv",
        3,
        "<N <P <U a>>::<U b>>",
        Some(DemangleError::Sink),
    ),
    (b"_Z1fv", 0, "<U >", Some(DemangleError::Sink)),
    (
        b"_Z1fIiEvT_",
        u64::MAX,
        "void <U f><<A int>>(<T int>)",
        None,
    ),
    (
        b"_Z1fT_",
        u64::MAX,
        "<U f>(<T >",
        Some(DemangleError::Reference(Error::BadTemplateArgReference)),
    ),
];

fn symbols_are_copied_and_compared(
    rt: &impl Abort,
    alloc: Global,
    symbol: &BorrowedSymbol<'_>,
    owned: &OwnedSymbol,
) -> Result<(), Fail> {
    holds(rt, "the trees", owned.parsed() == symbol.parsed());
    let lengths = symbol.substitutions().lengths();
    holds(rt, "the table", lengths == (1, 1));
    holds(rt, "owned", owned.try_clone(alloc)? == *owned);
    holds(rt, "borrowed", symbol.try_clone(alloc)? == *symbol);
    let other = BorrowedSymbol::new(alloc, b"_ZN5space3fooEii".as_slice())?;
    let text = other.demangle(alloc)?;
    same(rt, "another", text.as_str(), "space::foo(int, int)");
    holds(rt, "another", other != *symbol);
    Ok(())
}

#[test]
fn symbols_are_read_and_printed(rt: HostRuntime) -> Result<(), Fail> {
    let symbol = BorrowedSymbol::new(rt.alloc(), NAME)?;
    same(&rt, "borrowed", symbol.demangle(rt.alloc())?.as_str(), TEXT);
    same(&rt, "the bytes", *symbol.raw(), NAME);
    let deep = ParseOptions::default().recursion_limit(1024);
    let owned = OwnedSymbol::new_with_options(rt.alloc(), NAME.to_vec(rt.alloc())?, &deep)?;
    let options = DemangleOptions::new().recursion_limit(1024);
    let text = owned.demangle_with_options(rt.alloc(), &options)?;
    same(&rt, "owned", text.as_str(), TEXT);
    symbols_are_copied_and_compared(&rt, rt.alloc(), &symbol, &owned)
}

#[test]
fn a_tail_is_left(rt: HostRuntime) -> Result<(), Fail> {
    let input = b"_ZN5space3fooEibc and some trailing junk".as_slice();
    let deep = ParseOptions::default().recursion_limit(1024);
    let (symbol, tail) = BorrowedSymbol::with_tail(rt.alloc(), input)?;
    same(&rt, "the name", symbol.demangle(rt.alloc())?.as_str(), TEXT);
    same(&rt, "the tail", tail, b" and some trailing junk".as_slice());
    let (deeper, other) = BorrowedSymbol::with_tail_and_options(rt.alloc(), input, &deep)?;
    holds(&rt, "under a limit", deeper == symbol);
    same(&rt, "under a limit", other, tail);
    let fault = BorrowedSymbol::new(rt.alloc(), input).err();
    same(&rt, "the whole", fault, Some(Error::UnexpectedText));
    Ok(())
}

// A name with so many parts that its text needs more levels than there are.
fn deep_name(alloc: Global) -> Result<Vec<u8>, Fail> {
    let mut name = b"_ZN".to_vec(alloc)?;
    for _ in 0..200 {
        name.extend_from_slice(b"1a")?;
    }
    name.extend_from_slice(b"Ev")?;
    Ok(name)
}

#[test]
fn a_deep_name_is_read_and_not_printed(rt: HostRuntime) -> Result<(), Fail> {
    let symbol = OwnedSymbol::new(rt.alloc(), deep_name(rt.alloc())?)?;
    let error = symbol.demangle(rt.alloc()).err();
    same(&rt, "printed", error, Some(DemangleError::TooMuchRecursion));
    Ok(())
}

#[test]
fn listeners_are_told_of_nodes(rt: HostRuntime) -> Result<(), Fail> {
    for (name, fails_at, text, fault) in &TOLD {
        let case = (*name, *fails_at);
        let print = DemangleOptions::default();
        let symbol = BorrowedSymbol::new(rt.alloc(), *name)?;
        let mut out = Noted::failing_at(rt.alloc(), *fails_at);
        let told = symbol.structured_demangle(rt.alloc(), &mut out, &print);
        same(&rt, case, told.err(), *fault);
        same(&rt, case, out.text(), *text);
        let mut out = Noted::failing_at(rt.alloc(), *fails_at);
        let parse = ParseOptions::default();
        let told = structured_demangle_symbol(rt.alloc(), *name, &mut out, &parse, &print);
        same(&rt, case, told.err(), fault.map(SymbolFault::Print));
        same(&rt, case, out.text(), *text);
    }
    Ok(())
}
