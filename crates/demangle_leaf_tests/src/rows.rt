//! What no clause says: answers that come from outside, and that each call is met by some input and, with ample memory,
//! succeeds.

use crate::checks::{holds, same};
use demangle_leaf_nodes::{
    AbiTag, CallOffset, CloneTypeIdentifier, CvQualifiers, Discriminator, FunctionParam,
    Identifier, NvOffset, ResourceName, SeqId, SourceName, Substitution, TemplateParam,
    UnnamedTypeName, VOffset,
};
use demangle_leaf_rows::{
    Depth, ParseContext, read_abi_tag, read_abi_tags, read_call_offset, read_clone_suffix,
    read_clone_type_identifier, read_cv_qualifiers, read_discriminator, read_function_param,
    read_identifier, read_number, read_nv_offset, read_resource_name, read_seq_id,
    read_source_name, read_template_param, read_unnamed_type_name, read_v_offset, substitution,
};
use demangle_text::{Error, IndexStr, ParseOptions, Result};
use demangle_vocab::WellKnownComponent;
use std::alloc::Global;
use std::process::Abort;

// Whether the answer is the node that is wanted and these bytes behind it, or the error that is wanted.
fn is<X: PartialEq + Drop>(answer: Result<(X, IndexStr<'_>)>, want: Result<(X, &[u8])>) -> bool {
    match (answer, want) {
        (Ok((node, rest)), Ok((wanted, left))) => node == wanted && rest.eq_bytes(left),
        (Err(error), Err(wanted)) => error == wanted,
        _ => false,
    }
}

fn context() -> ParseContext {
    ParseContext::new(ParseOptions::default())
}

/// Bytes, and the name at their front with what is behind it.
static NAMES: [(&[u8], Result<(SourceName, &[u8])>); 11] = [
    (
        b"3fooE",
        Ok((SourceName(Identifier { start: 1, end: 4 }), b"E")),
    ),
    (
        b"1$x",
        Ok((SourceName(Identifier { start: 1, end: 2 }), b"x")),
    ),
    (
        b"12_GLOBAL__N_11f",
        Ok((SourceName(Identifier { start: 2, end: 14 }), b"1f")),
    ),
    (
        b"2\xC3\xA9v",
        Ok((SourceName(Identifier { start: 1, end: 3 }), b"v")),
    ),
    (b"", Err(Error::UnexpectedEnd)),
    (b"foo", Err(Error::UnexpectedText)),
    (b"0foo", Err(Error::UnexpectedText)),
    (b"03foo", Err(Error::UnexpectedText)),
    (b"4foo", Err(Error::UnexpectedEnd)),
    (b"3f-o", Err(Error::UnexpectedText)),
    (b"99999999999999999999f", Err(Error::Overflow)),
];

/// The same of identifiers.
static IDENTIFIERS: [(&[u8], Result<(Identifier, &[u8])>); 6] = [
    (b"a.b-", Ok((Identifier { start: 0, end: 3 }, b"-"))),
    (
        b"\xC3\xA9.\xC3\xA9$_",
        Ok((Identifier { start: 0, end: 7 }, b"")),
    ),
    (b"a\xFFb", Ok((Identifier { start: 0, end: 1 }, b"\xFFb"))),
    (b"\xED\xA0\x80", Err(Error::UnexpectedText)),
    (b"-", Err(Error::UnexpectedText)),
    (b"", Err(Error::UnexpectedEnd)),
];

#[test]
fn names_are_read_as_the_grammar_says(rt: HostRuntime) {
    for (bytes, want) in &NAMES {
        let answer = read_source_name(&mut context(), IndexStr::new(*bytes));
        holds(&rt, *bytes, is(answer, *want));
    }
    for (bytes, want) in &IDENTIFIERS {
        let answer = read_identifier(&mut context(), IndexStr::new(*bytes));
        holds(&rt, *bytes, is(answer, *want));
    }
}

/// The same of parts of resource names.
static RESOURCE_NAMES: [(&[u8], Result<(ResourceName, &[u8])>); 9] = [
    (b"iso4217$_E", Ok((ResourceName { start: 0, end: 9 }, b"E"))),
    (b"ja_a$S", Ok((ResourceName { start: 0, end: 6 }, b""))),
    (b"a$$", Ok((ResourceName { start: 0, end: 3 }, b""))),
    (b"c1a", Ok((ResourceName { start: 0, end: 3 }, b""))),
    (
        b"\xED\xA0\x80",
        Ok((ResourceName { start: 0, end: 3 }, b"")),
    ),
    (b"", Err(Error::UnexpectedEnd)),
    (b"$S", Err(Error::UnexpectedText)),
    (b"java$", Err(Error::UnexpectedText)),
    (b"java$x", Err(Error::UnexpectedText)),
];

#[test]
fn parts_of_resource_names_end_behind_an_escape(rt: HostRuntime) {
    for (bytes, want) in &RESOURCE_NAMES {
        let answer = read_resource_name(&mut context(), IndexStr::new(*bytes));
        holds(&rt, *bytes, is(answer, *want));
    }
}

/// Bytes, how many tags are at their front, and what is behind them.
static TAGS: [(&[u8], usize, &[u8]); 5] = [
    (b"B1ax", 1, b"x"),
    (b"B5cxx11B1bE", 2, b"E"),
    (b"", 0, b""),
    (b"B1", 0, b"B1"),
    (b"B1aB2b", 1, b"B2b"),
];

fn are_tags(alloc: Global, bytes: &[u8], count: usize, left: &[u8]) -> bool {
    match read_abi_tags(alloc, &mut context(), IndexStr::new(bytes)) {
        Ok((tags, rest)) => tags.0.len() == count && rest.eq_bytes(left),
        Err(_) => false,
    }
}

#[test]
fn tags_are_read_one_after_the_other(rt: HostRuntime) {
    for (bytes, count, left) in &TAGS {
        holds(&rt, *bytes, are_tags(rt.alloc(), *bytes, *count, *left));
    }
}

/// Where a suffix's word ends, its numbers, and what is behind it.
type Suffix = (usize, &'static [isize], &'static [u8]);

/// Bytes, and the suffix at their front.
static SUFFIXES: [(&[u8], Result<Suffix>); 7] = [
    (b".clone.0", Ok((6, &[0], b""))),
    (
        b".isra.12.3.constprop.1",
        Ok((5, &[12, 3], b".constprop.1")),
    ),
    (b".a.01", Ok((2, &[], b".01"))),
    (b".0", Ok((2, &[], b""))),
    (b"clone", Err(Error::UnexpectedText)),
    (b"..", Err(Error::UnexpectedText)),
    (b".", Err(Error::UnexpectedEnd)),
];

fn is_suffix(alloc: Global, bytes: &[u8], want: Result<Suffix>) -> bool {
    let answer = read_clone_suffix(alloc, &mut context(), IndexStr::new(bytes));
    match (answer, want) {
        (Ok((suffix, rest)), Ok((end, numbers, left))) => {
            let word = CloneTypeIdentifier { start: 1, end };
            suffix.0 == word && *suffix.1 == *numbers && rest.eq_bytes(left)
        }
        (Err(error), Err(wanted)) => error == wanted,
        _ => false,
    }
}

#[test]
fn suffixes_of_clones_hold_a_type_and_numbers(rt: HostRuntime) {
    for (bytes, want) in &SUFFIXES {
        holds(&rt, *bytes, is_suffix(rt.alloc(), *bytes, *want));
    }
}

/// Bytes, and the component at their front with what is behind it.
static COMPONENTS: [(&[u8], Result<(Substitution, &[u8])>); 9] = [
    (
        b"St1a",
        Ok((Substitution::WellKnown(WellKnownComponent::Std), b"1a")),
    ),
    (b"S_", Ok((Substitution::BackReference(0), b""))),
    (b"S0_i", Ok((Substitution::BackReference(1), b"i"))),
    (b"S1_", Err(Error::BadBackReference)),
    (b"SZ", Err(Error::BadBackReference)),
    (b"S0", Err(Error::UnexpectedEnd)),
    (b"S0i", Err(Error::UnexpectedText)),
    (b"", Err(Error::UnexpectedEnd)),
    (b"T_", Err(Error::UnexpectedText)),
];

#[test]
fn components_are_numbered_from_zero(rt: HostRuntime) {
    let depth = Depth {
        levels: 2,
        conversion: false,
    };
    for (bytes, want) in &COMPONENTS {
        let answer = substitution(depth, 2, IndexStr::new(*bytes));
        holds(&rt, *bytes, is(answer, *want));
    }
}

#[test]
fn a_level_at_the_limit_is_refused(rt: HostRuntime) {
    let mut ctx = ParseContext::new(ParseOptions::default().recursion_limit(2));
    let deep = Err(Error::TooMuchRecursion);
    let answer = read_source_name(&mut ctx, IndexStr::new(b"1a"));
    holds(&rt, "a name", is(answer, deep));
    holds(&rt, "a level", ctx.enter().is_ok() && ctx.enter().is_err());
    same(&rt, "the level", ctx.recursion_level(), 1);
    let deep = Err(Error::TooMuchRecursion);
    let answer = read_cv_qualifiers(&mut ctx, IndexStr::new(b"K"));
    holds(&rt, "qualifiers", is(answer, deep));
    if ctx.recursion_level() > 0 {
        ctx.leave();
    }
    let was_set = ctx.set_in_conversion(true);
    holds(&rt, "the flag", !was_set && ctx.in_conversion());
}

fn qualifiers_and_words_are_read(rt: &impl Abort, ctx: &mut ParseContext) {
    let qualifiers = CvQualifiers {
        restrict: false,
        volatile: true,
        const_: true,
    };
    let answer = read_cv_qualifiers(ctx, IndexStr::new(b"VKi"));
    holds(rt, "VKi", is(answer, Ok((qualifiers, b"i"))));
    let word = CloneTypeIdentifier { start: 0, end: 1 };
    let answer = read_clone_type_identifier(ctx, IndexStr::new(b"a.b"));
    holds(rt, "a.b", is(answer, Ok((word, b".b"))));
    let tag = AbiTag(SourceName(Identifier { start: 2, end: 7 }));
    let answer = read_abi_tag(ctx, IndexStr::new(b"B5cxx11"));
    holds(rt, "B5cxx11", is(answer, Ok((tag, b""))));
    let answer = read_unnamed_type_name(ctx, IndexStr::new(b"Ut0_"));
    holds(rt, "Ut0_", is(answer, Ok((UnnamedTypeName(Some(0)), b""))));
}

fn numbers_and_offsets_are_read(rt: &impl Abort, ctx: &mut ParseContext) {
    let answer = read_number(ctx, IndexStr::new(b"n12_"));
    holds(rt, "n12_", is(answer, Ok((-12, b"_"))));
    let answer = read_seq_id(ctx, IndexStr::new(b"1Z_"));
    holds(rt, "1Z_", is(answer, Ok((SeqId(71), b"_"))));
    let answer = read_nv_offset(ctx, IndexStr::new(b"n8_"));
    holds(rt, "n8_", is(answer, Ok((NvOffset(-8), b"_"))));
    let offset = VOffset(0, -24);
    let answer = read_v_offset(ctx, IndexStr::new(b"0_n24_"));
    holds(rt, "0_n24_", is(answer, Ok((offset, b"_"))));
    let answer = read_call_offset(ctx, IndexStr::new(b"v0_n24_1f"));
    holds(
        rt,
        "v0_n24_1f",
        is(answer, Ok((CallOffset::Virtual(offset), b"1f"))),
    );
}

fn numbered_things_are_read(rt: &impl Abort, ctx: &mut ParseContext) {
    let answer = read_discriminator(ctx, IndexStr::new(b"__12_"));
    holds(rt, "__12_", is(answer, Ok((Discriminator(12), b""))));
    let last = TemplateParam(9223372036854775808);
    let answer = read_template_param(ctx, IndexStr::new(b"T9223372036854775807_"));
    holds(rt, "the last parameter", is(answer, Ok((last, b""))));
    let qualifiers = CvQualifiers {
        restrict: false,
        volatile: false,
        const_: true,
    };
    let param = FunctionParam(2, qualifiers, Some(2));
    let answer = read_function_param(ctx, IndexStr::new(b"fL2pK1_"));
    holds(rt, "fL2pK1_", is(answer, Ok((param, b""))));
}

#[test]
fn each_other_row_is_read(rt: HostRuntime) {
    let mut ctx = context();
    qualifiers_and_words_are_read(&rt, &mut ctx);
    numbers_and_offsets_are_read(&rt, &mut ctx);
    numbered_things_are_read(&rt, &mut ctx);
}

fn rows_raise_the_deepest_level(rt: &impl Abort, alloc: Global, ctx: &mut ParseContext) {
    let refused = read_call_offset(ctx, IndexStr::new(b"E")).is_err();
    same(rt, "an offset", (refused, ctx.deepest()), (true, 1));
    let refused = read_function_param(ctx, IndexStr::new(b"fL0p0")).is_err();
    same(rt, "a parameter", (refused, ctx.deepest()), (true, 2));
    let read = read_number(ctx, IndexStr::new(b"1")).is_ok();
    same(rt, "a number", (read, ctx.deepest()), (true, 2));
    let read = read_abi_tag(ctx, IndexStr::new(b"B1A")).is_ok();
    same(rt, "a tag", (read, ctx.deepest()), (true, 3));
    let read = read_clone_suffix(alloc, ctx, IndexStr::new(b".i_ra.3")).is_ok();
    same(rt, "a suffix", (read, ctx.deepest()), (true, 3));
}

#[test]
fn the_deepest_level_is_known(rt: HostRuntime) {
    let mut ctx = context();
    same(&rt, "at first", (ctx.limit(), ctx.deepest()), (96, 0));
    rows_raise_the_deepest_level(&rt, rt.alloc(), &mut ctx);
    same(&rt, "a level", ctx.enter(), Ok(()));
    let was = ctx.reset_deepest();
    same(&rt, "from a level on", (was, ctx.deepest()), (3, 1));
    let read = read_source_name(&mut ctx, IndexStr::new(b"1a")).is_ok();
    same(&rt, "below a level", (read, ctx.deepest()), (true, 3));
    if ctx.limit() > 5 {
        ctx.raise_deepest(5);
        ctx.raise_deepest(4);
    }
    same(&rt, "raised", ctx.deepest(), 5);
}
