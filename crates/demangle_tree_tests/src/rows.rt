//! Nodes by the rows that they are read by: their copies, their comparison with others that are read apart, and worked
//! texts of `{:?}`, which no clause states.

use crate::checks::same;
use crate::reading::read;
use crate::wholes::Whole;
use demangle_discard::Discard;
use demangle_entries::{
    AbiTags, BareFunctionType, CloneSuffix, ClosureTypeName, Encoding, ExceptionSpec, Expression,
    LambdaSig, MangledName, Name, SpecialName, TemplateArg, TemplateArgs, UnqualifiedName,
    UnresolvedQualifierLevel,
};
use demangle_parse::Parse;
use demangle_release::release_table;
use demangle_table::SubstitutionTable;
use demangle_text::Result;
use std::alloc::Global;
use std::fmt::Debug;

/// A row of the grammar, by the type of its node.
#[derive(Clone, Copy)]
enum Row {
    AbiTags,
    BareFunctionType,
    CloneSuffix,
    ClosureTypeName,
    Encoding,
    ExceptionSpec,
    Expression,
    LambdaSig,
    MangledName,
    Name,
    SpecialName,
    TemplateArg,
    TemplateArgs,
    UnqualifiedName,
    UnresolvedQualifierLevel,
}

/// A row, bytes, other bytes, and whether the two nodes are equal.
type Case = (Row, &'static [u8], &'static [u8], bool);

/// Each node is copied too, and each part whose type has a copy of its own. Blanks at the front move what is read.
static CASES: [Case; 36] = [
    (Row::AbiTags, b"B3foo", b"B3foo", true),
    (Row::CloneSuffix, b".clone.12", b".clone.1", false),
    (Row::BareFunctionType, b"iPi", b"ii", false),
    (Row::LambdaSig, b"iPi", b"iPi", true),
    (Row::ClosureTypeName, b"UliE1_", b"UliE_", false),
    (Row::UnqualifiedName, b"1aB3foo", b"1a", false),
    (Row::Name, b"St1aB3foo", b"St1aB3foo", true),
    (Row::Name, b"1a", b" 1a", false),
    (Row::Name, b"1aIiE", b"1aIiE", true),
    (Row::Name, b"NKR1aC1E", b"NKO1aC1E", false),
    (Row::Name, b"Z1fvE1a", b"Z1fvE1a_1", false),
    (Row::Name, b"Z1fvE1a_1", b"Z1fvE1a_1", true),
    (Row::SpecialName, b"GTx1fv", b"GTx1fv", true),
    (Row::Encoding, b"St1aB3fooi", b"St1aB3foo", false),
    (
        Row::MangledName,
        b"_ZSt1aB3fooi.clone.12",
        b"_ZSt1aB3fooi.clone.12",
        true,
    ),
    (Row::MangledName, b"_ZSt1aB3fooi.clone.12", b"i", false),
    (
        Row::MangledName,
        b"_GLOBAL__I__Z1fv",
        b"_GLOBAL__D__Z1fv",
        false,
    ),
    (Row::Expression, b"fLplLi1Etwtr", b"fLplLi1Etwtr", true),
    (Row::Expression, b"fLplLi1Etwtr", b"tr", false),
    (Row::Expression, b"flplT_", b"frplT_", false),
    (Row::Expression, b"Li1E", b"Lj1E", false),
    (Row::Expression, b"L_Z1fvE", b"L_Z1fvE", true),
    (Row::Expression, b"soiLi3En8E", b"soiLi3E8E", false),
    (Row::Expression, b"nw_ipiLi1EE", b"nw_iE", false),
    (Row::Expression, b"dttr1aIiE", b"pttr1aIiE", false),
    (Row::Expression, b"gs1aIiE", b"  1aIiE", false),
    (Row::Expression, b"dn1aIiE", b"  1aIiE", false),
    (Row::Expression, b"srT_1a", b"srT_1a", true),
    (Row::TemplateArg, b"XfLplLi1EtwtrE", b"XtrE", false),
    (Row::TemplateArgs, b"IXfLplLi1EtwtrEE", b"IXtrEE", false),
    (Row::TemplateArgs, b"IiE", b"  IiE", true),
    (Row::TemplateArgs, b"  IiE", b"  IiiE", false),
    (Row::UnresolvedQualifierLevel, b"1aIiE", b"1a", false),
    (Row::ExceptionSpec, b"DOfLplLi1EtwtrE", b"Do", false),
    (Row::ExceptionSpec, b"Do", b"Do", true),
    (Row::Expression, b"tr", b"tr", true),
];

/// Whether both are equal and have the same text, that of places in lists of arguments too.
fn is_same<X: PartialEq + Debug + Discard>(alloc: Global, node: &X, copied: Result<X>) -> bool {
    let Ok(copied) = copied else {
        return false;
    };
    let is_shown_alike = match format!(in alloc; "{node:?}") {
        Ok(text) => is_shown(alloc, &copied, text.as_str()),
        Err(_) => false,
    };
    let is_same = is_shown_alike && copied == *node;
    copied.discard();
    is_same
}

/// Whether the text of `{:?}` is this.
pub fn is_shown<X: Debug>(alloc: Global, node: &X, text: &str) -> bool {
    match format!(in alloc; "{node:?}") {
        Ok(shown) => shown.as_str() == text,
        Err(_) => false,
    }
}

/// Whether a copy of the node is the same, and the node again whose part was copied by itself.
pub fn is_copied<X: Whole + Debug + Discard>(alloc: Global, node: &X) -> bool {
    is_same(alloc, node, node.try_clone(alloc)) && is_same(alloc, node, node.again(alloc))
}

/// Whether both nodes are copied, and are equal; `None` where one isn't read. Each is read from an empty table.
fn judged<X: Parse + Whole + Debug + Discard>(
    alloc: Global,
    bytes: &[u8],
    other: &[u8],
) -> Option<(bool, bool)> {
    let mut subs = SubstitutionTable::new(alloc);
    let one = read::<X>(alloc, &mut subs, bytes);
    subs.cut_back((0, 0));
    let two = read::<X>(alloc, &mut subs, other);
    release_table(subs);
    let answer = match (&one, &two) {
        (Some(one), Some(two)) => {
            let are_copied = is_copied(alloc, one) && is_copied(alloc, two);
            Some((are_copied, one.is_equal(two)))
        }
        _ => None,
    };
    one.discard();
    two.discard();
    answer
}

fn answer(alloc: Global, case: Case) -> Option<(bool, bool)> {
    let (row, bytes, other, _) = case;
    match row {
        Row::AbiTags => judged::<AbiTags>(alloc, bytes, other),
        Row::BareFunctionType => judged::<BareFunctionType>(alloc, bytes, other),
        Row::CloneSuffix => judged::<CloneSuffix>(alloc, bytes, other),
        Row::ClosureTypeName => judged::<ClosureTypeName>(alloc, bytes, other),
        Row::Encoding => judged::<Encoding>(alloc, bytes, other),
        Row::ExceptionSpec => judged::<ExceptionSpec>(alloc, bytes, other),
        Row::Expression => judged::<Expression>(alloc, bytes, other),
        Row::LambdaSig => judged::<LambdaSig>(alloc, bytes, other),
        Row::MangledName => judged::<MangledName>(alloc, bytes, other),
        Row::Name => judged::<Name>(alloc, bytes, other),
        Row::SpecialName => judged::<SpecialName>(alloc, bytes, other),
        Row::TemplateArg => judged::<TemplateArg>(alloc, bytes, other),
        Row::TemplateArgs => judged::<TemplateArgs>(alloc, bytes, other),
        Row::UnqualifiedName => judged::<UnqualifiedName>(alloc, bytes, other),
        Row::UnresolvedQualifierLevel => judged::<UnresolvedQualifierLevel>(alloc, bytes, other),
    }
}

#[test]
fn nodes_read_apart_are_copied_and_compared(rt: HostRuntime) {
    for (i, case) in CASES.iter().enumerate() {
        let (_, _, _, are_equal) = *case;
        same(&rt, i, answer(rt.alloc(), *case), Some((true, are_equal)));
    }
}
