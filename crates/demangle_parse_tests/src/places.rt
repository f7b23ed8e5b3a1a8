//! Inputs that begin behind their index: places count from the begin of the whole.

use crate::checks::same;
use demangle_entries::{TypeHandle, UnqualifiedName};
use demangle_leaf_rows::ParseContext;
use demangle_parse::Parse;
use demangle_table::SubstitutionTable;
use demangle_text::{IndexStr, ParseOptions};
use std::alloc::{AllocError, Global};
use std::fmt::Debug;

// The node from the third byte on, where the rest behind it begins, and the first component.
fn shown<X: Parse + Debug + Drop>(alloc: Global, bytes: &[u8]) -> Result<String, AllocError> {
    let mut ctx = ParseContext::new(ParseOptions::default());
    let mut subs = SubstitutionTable::new(alloc);
    let text = match IndexStr::new(bytes).try_split_at(2) {
        Some((_, input)) => match X::parse(alloc, &mut ctx, &mut subs, input) {
            Ok((node, rest)) => {
                let next = rest.index();
                let first = subs.get(0);
                format!(in alloc; "{node:?}, goes on at {next}, {first:?}")
            }
            Err(error) => format!(in alloc; "{error:?}"),
        },
        None => format!(in alloc; "too short"),
    };
    subs.release();
    text
}

#[test]
fn places_count_from_the_begin(rt: HostRuntime) {
    let alloc = rt.alloc();
    let name = shown::<UnqualifiedName>(alloc, b"xx1az");
    let wanted =
        "Source(SourceName(Identifier { start: 3, end: 4 }), AbiTags([])), goes on at 4, None";
    same(&rt, "a name", is_text(name, wanted), true);
    let ty = shown::<TypeHandle>(alloc, b"xx1a");
    let wanted =
        "BackReference(0), goes on at 4, Some(TypeNode(ClassEnum(Named(Unscoped(Unqualified(Source(\
         SourceName(Identifier { start: 3, end: 4 }), AbiTags([]))))))))";
    same(&rt, "a type", is_text(ty, wanted), true);
    let refused = shown::<TypeHandle>(alloc, b"xxP");
    same(&rt, "a refusal", is_text(refused, "UnexpectedEnd"), true);
}

fn is_text(shown: Result<String, AllocError>, wanted: &str) -> bool {
    match shown {
        Ok(text) => text.as_str() == wanted,
        Err(_) => false,
    }
}
