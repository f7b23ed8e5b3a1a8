//! The tests of whole names: their texts.

use crate::checks::{holds, same};
use crate::expressions::EXPRESSIONS;
use crate::names::NAMES;
use crate::printed::{first_other, print_type};
use crate::special_names::SPECIAL_NAMES;
use crate::types::{PLAIN_TYPES, TYPES};
use demangle_scope::TextSink;
use std::alloc::Global;

#[test]
fn names_of_all_kinds_have_their_texts(rt: HostRuntime) {
    let alloc = rt.alloc();
    same(&rt, "names", first_other(alloc, &NAMES), None);
    same(&rt, "types", first_other(alloc, &TYPES), None);
    same(&rt, "expressions", first_other(alloc, &EXPRESSIONS), None);
    same(
        &rt,
        "special names",
        first_other(alloc, &SPECIAL_NAMES),
        None,
    );
}

fn is_type_printed(alloc: Global, bytes: &[u8], text: &str) -> bool {
    let mut sink = TextSink::new(alloc);
    match print_type(alloc, bytes, &mut sink) {
        Some(Ok(())) => sink.as_str() == text,
        _ => false,
    }
}

#[test]
fn a_type_is_printed_by_itself(rt: HostRuntime) {
    for (bytes, text) in &PLAIN_TYPES {
        let is_right = is_type_printed(rt.alloc(), bytes.as_bytes(), *text);
        holds(&rt, *bytes, is_right);
    }
}
