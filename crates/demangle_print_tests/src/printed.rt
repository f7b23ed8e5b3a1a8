//! Names that are read and then printed. Nodes and tables are let go by calls, since each other crate that drops one
//! proves the drops of all node types anew.

use demangle_entries::{BuiltinType, CvQualifiers, MangledName, TypeHandle};
use demangle_leaf_rows::ParseContext;
use demangle_parse::Parse;
use demangle_print::Demangle;
use demangle_release::{release, release_table};
use demangle_scope::{DemangleContext, DemangleError, DemangleOptions, DemangleWrite, TextSink};
use demangle_table::SubstitutionTable;
use demangle_text::{IndexStr, ParseOptions};
use demangle_vocab::StandardBuiltinType;
use std::alloc::Global;

/// With so many levels each name here is read.
const READING_LEVELS: u32 = 1024;

/// The type that these bytes are, and the table; `None` where it isn't read, or bytes are left.
pub fn read_type(alloc: Global, bytes: &[u8]) -> Option<(TypeHandle, SubstitutionTable)> {
    let mut ctx = ParseContext::new(ParseOptions::default().recursion_limit(READING_LEVELS));
    let mut subs = SubstitutionTable::new(alloc);
    if let Ok((handle, rest)) = TypeHandle::parse(
        alloc,
        &mut ctx,
        &mut subs,
        IndexStr::new(bytes),
    ) {
        if rest.is_empty() {
            return Some((handle, subs));
        }
    }
    release_table(subs);
    None
}

/// The qualifier `const`.
pub fn constant() -> CvQualifiers {
    CvQualifiers {
        restrict: false,
        volatile: false,
        const_: true,
    }
}

/// The type `int`.
pub fn int() -> TypeHandle {
    TypeHandle::Builtin(BuiltinType::Standard(StandardBuiltinType::Int))
}

/// What printing a name's tree answers; `None` where the level isn't as before.
fn tell_name<'a, W: 'a + DemangleWrite>(
    alloc: Global,
    name: &'a MangledName,
    subs: &'a SubstitutionTable,
    input: &'a [u8],
    options: DemangleOptions,
    out: &mut W,
) -> Option<Result<(), DemangleError>> {
    match DemangleContext::new(alloc, subs, input, options, out) {
        Ok(mut ctx) => {
            let answer = name.demangle(&mut ctx, None);
            let level = ctx.recursion_level();
            let _out = ctx.end();
            if level == 0 { Some(answer) } else { None }
        }
        Err(error) => Some(Err(error)),
    }
}

/// What printing a type answers; `None` where the level isn't as before.
pub fn tell_type<'a>(
    alloc: Global,
    handle: &'a TypeHandle,
    subs: &'a SubstitutionTable,
    input: &'a [u8],
    out: &mut TextSink,
) -> Option<Result<(), DemangleError>> {
    match DemangleContext::new(alloc, subs, input, DemangleOptions::new(), out) {
        Ok(mut ctx) => {
            let answer = handle.demangle(&mut ctx, None);
            let level = ctx.recursion_level();
            let _out = ctx.end();
            if level == 0 { Some(answer) } else { None }
        }
        Err(error) => Some(Err(error)),
    }
}

/// What printing a whole name answers; `None` where it isn't read.
pub fn print_name<W: DemangleWrite>(
    alloc: Global,
    name: &[u8],
    options: DemangleOptions,
    out: &mut W,
) -> Option<Result<(), DemangleError>> {
    let mut ctx = ParseContext::new(ParseOptions::default().recursion_limit(READING_LEVELS));
    let mut subs = SubstitutionTable::new(alloc);
    match MangledName::parse(alloc, &mut ctx, &mut subs, IndexStr::new(name)) {
        Ok((node, rest)) => {
            let answer = tell_name(alloc, &node, &subs, name, options, out);
            release(node, subs);
            if rest.is_empty() { answer } else { None }
        }
        Err(_) => {
            release_table(subs);
            None
        }
    }
}

/// What printing a type answers; `None` where it isn't read.
pub fn print_type(
    alloc: Global,
    bytes: &[u8],
    out: &mut TextSink,
) -> Option<Result<(), DemangleError>> {
    let (handle, subs) = read_type(alloc, bytes)?;
    let answer = tell_type(alloc, &handle, &subs, bytes, out);
    release_table(subs);
    answer
}

/// Whether a name is printed as this text, or refused with this error.
pub fn is_printed(
    alloc: Global,
    name: &[u8],
    options: DemangleOptions,
    wanted: Result<&str, DemangleError>,
) -> bool {
    let mut sink = TextSink::new(alloc);
    match (print_name(alloc, name, options, &mut sink), wanted) {
        (Some(Ok(())), Ok(text)) => sink.as_str() == text,
        (Some(Err(error)), Err(other)) => error == other,
        _ => false,
    }
}

/// The first name that isn't printed as the text beside it.
pub fn first_other(alloc: Global, names: &[(&'static str, &'static str)]) -> Option<&'static str> {
    for (name, text) in names {
        if !is_printed(alloc, name.as_bytes(), DemangleOptions::new(), Ok(*text)) {
            return Some(*name);
        }
    }
    None
}
