//! Names that are cut off or broken at each byte, and names whose text doubles again and again.

use crate::checks::{holds, same};
use cpp_demangle::error::DemangleError;
use cpp_demangle::{BorrowedSymbol, DemangleOptions, ParseOptions, SymbolFault, demangle_symbol};
use std::alloc::Global;
use std::process::Abort;
use std::test::Fail;

/// Names of many kinds.
static NAMES: [&[u8]; 20] = [
    b"_ZN5space3fooEibc",
    b"__Z28JS_GetPropertyDescriptorByIdP9JSContextN2JS6HandleIP8JSObjectEENS2_I4jsidEENS1_13MutableHandleINS1_18\
      PropertyDescriptorEEE",
    b"_ZN5space3fooEibc and some trailing junk",
    b"_Z1fP1aS_",
    b"_Z1fP1aS0_",
    b"_Z1fP1aS1_",
    b"_ZNSt6vectorIiSaIiEE9push_backERKi",
    b"_Z1fIiEvT_",
    b"_Z1fIR1aEvOT_",
    b"_Z1fPFPFivEvE",
    b"PFivE",
    b"_Z1fRA10_i",
    b"_Z1fM1aFivE",
    b"_Z1fN1a1bEPNS0_1dE",
    b"_Z1fIN1a1bEEvRKNT_1cE",
    b"_Z1fM1aKFvN1b1cEE",
    b"_ZZ1fvENKUlvE_clEv",
    b"_ZN1acvT_IiEEv",
    b"_Z1fIiEDTplfp_Li1EET_",
    b"_ZTC1a0_1b",
];

/// The text by the two calls of a symbol, or why there is none.
fn in_two_steps(alloc: Global, name: &[u8]) -> Result<String, SymbolFault> {
    let symbol = BorrowedSymbol::new_with_options(alloc, name, &ParseOptions::default());
    match symbol {
        Ok(symbol) => symbol
            .demangle_with_options(alloc, &DemangleOptions::default())
            .map_err(SymbolFault::Print),
        Err(error) => Err(SymbolFault::Read(error)),
    }
}

/// Ends the test where a name's text or fault isn't that of the two steps, or is want of memory.
fn is_told_alike(rt: &impl Abort, alloc: Global, name: &[u8]) {
    let parse = ParseOptions::default();
    let at_once = demangle_symbol(alloc, name, &parse, &DemangleOptions::default());
    holds(rt, name, at_once != Err(SymbolFault::OutOfMemory));
    same(rt, name, at_once, in_two_steps(alloc, name));
}

#[test]
fn cut_and_broken_names_are_told_alike(rt: HostRuntime) -> Result<(), Fail> {
    for name in &NAMES {
        for at in 0..name.len() {
            is_told_alike(&rt, rt.alloc(), &name[..at]);
            let mut broken = name.to_vec(rt.alloc())?;
            broken[at] = 0xff;
            is_told_alike(&rt, rt.alloc(), broken.as_slice());
        }
        is_told_alike(&rt, rt.alloc(), *name);
    }
    Ok(())
}

/// Limits on the levels of printing and on the bytes of a text that doubles nine times, and its length or the fault.
static DOUBLED: [(u32, usize, Result<usize, DemangleError>); 4] = [
    (60, 20_000, Err(DemangleError::TooMuchRecursion)),
    (61, 20_000, Ok(13_260)),
    (61, 13_260, Ok(13_260)),
    (61, 13_259, Err(DemangleError::TooLong)),
];

/// A name in which each of nine components holds the one before twice.
fn doubling(alloc: Global) -> Result<Vec<u8>, Fail> {
    let mut name = b"_Z1f1aI1bS0_E".to_vec(alloc)?;
    for last in 1..10u32 {
        name.extend_from_slice(format!(in alloc; "S_IS{last}_S{last}_E")?.as_bytes())?;
    }
    Ok(name)
}

#[test]
fn a_text_that_doubles_is_bounded(rt: HostRuntime) -> Result<(), Fail> {
    let name = doubling(rt.alloc())?;
    let parse = ParseOptions::default();
    for (levels, bytes, length) in &DOUBLED {
        let print = DemangleOptions::new()
            .recursion_limit((*levels).max(1))
            .output_limit(*bytes);
        let answer = demangle_symbol(rt.alloc(), name.as_slice(), &parse, &print);
        let found = answer.map(|text| text.len());
        let wanted = length.map_err(SymbolFault::Print);
        same(&rt, (*levels, *bytes), found, wanted);
    }
    Ok(())
}
