//! Components of tables that are read, and the tables: their copies, their comparison with others that are read apart,
//! and worked texts of `{:?}`.

use crate::checks::same;
use crate::reading::{component, table_of};
use crate::rows::{is_copied, is_shown};
use crate::wholes::Whole;
use demangle_copies::TryClone;
use demangle_release::release_table;
use demangle_table::SubstitutionTable;
use std::alloc::Global;

/// A type and a component of it, by its number.
type Component = (&'static [u8], usize);

/// Two components, whether they are equal, and whether their tables are.
type Case = (Component, Component, bool, bool);

/// Components of all kinds. The places of lists of arguments are left out by equality.
static CASES: [Case; 14] = [
    ((b"AfLplLi1Etwtr_i", 0), (b"AfLplLi1Etwtr_i", 0), true, true),
    (
        (b"AfLplLi1Etwtr_i", 0),
        (b"DvfLplLi1Etwtr_i", 0),
        false,
        false,
    ),
    (
        (b"DTfLplLi1EtwtrE", 0),
        (b"DtfLplLi1EtwtrE", 0),
        false,
        false,
    ),
    ((b"N1aIiE1bE", 1), (b"DTtrE", 0), false, false),
    (
        (b"N1aIXfLplLi1EtwtrEE1bE", 1),
        (b"N1aIXfLplLi1EtwtrEE1bE", 1),
        true,
        true,
    ),
    ((b"T_IiE", 1), (b"T0_IiE", 1), true, false),
    ((b"PDBtr_", 0), (b"PDBT__", 0), true, false),
    ((b"PDBtr_", 1), (b"PDBT__", 1), false, false),
    (
        (b"PDBfLplLi1Etwtr_", 1),
        (b"PDBfLplLi1Etwtr_", 1),
        true,
        true,
    ),
    ((b"KDOtrEFYivRE", 0), (b"DOtrEFYivE", 0), false, false),
    ((b"1aIiE", 0), (b"St1aIiE", 0), false, false),
    ((b"1aIiE", 1), (b"1aIjE", 1), false, false),
    ((b"DTsrDTtrE1aE", 0), (b"NDTtrE1aE", 0), false, false),
    (
        (b"FvPiRiOiKiA3_iMiiDv4_iKFivEE", 8),
        (b"U1aIiEi", 0),
        false,
        false,
    ),
];

/// Types, and the texts of their tables.
static TEXTS: [(&[u8], &str); 5] = [
    (
        b"i",
        "SubstitutionTable { substitutions: [], non_substitutions: [] }",
    ),
    (
        b"PDBtr_",
        "SubstitutionTable { substitutions: [TypeNode(PointerTo(Builtin(Parametric(SignedBitIntExpression(\
         NonSubstitution(0))))))], non_substitutions: [Expression(Rethrow)] }",
    ),
    (
        b"DoFYvE",
        "SubstitutionTable { substitutions: [TypeNode(Function(FunctionType { cv_qualifiers: CvQualifiers { \
         restrict: false, volatile: false, const_: false }, exception_spec: Some(NoExcept), transaction_safe: \
         false, extern_c: true, bare: BareFunctionType([Builtin(Standard(Void))]), ref_qualifier: None }))], \
         non_substitutions: [] }",
    ),
    (
        b"DBcltrstPiE_",
        "SubstitutionTable { substitutions: [TypeNode(PointerTo(Builtin(Standard(Int))))], non_substitutions: \
         [Expression(Call(Rethrow, [SizeofType(BackReference(0))]))] }",
    ),
    (
        b"DBsoiLi3En8E_",
        "SubstitutionTable { substitutions: [], non_substitutions: [Expression(Subobject(SubobjectExpr { ty: \
         Builtin(Standard(Int)), expr: Primary(Literal(Builtin(Standard(Int)), 7, 8)), offset: -8 }))] }",
    ),
];

/// Whether a copy of the table is equal and has the same text, and a copy of each component.
pub fn is_table_copied(alloc: Global, subs: &SubstitutionTable) -> bool {
    for idx in 0..subs.entry_count() {
        match component(subs, idx) {
            Some(node) if is_copied(alloc, node) => {}
            _ => return false,
        }
    }
    let Ok(copied) = subs.try_clone(alloc) else {
        return false;
    };
    let is_shown_alike = match format!(in alloc; "{subs:?}") {
        Ok(text) => is_shown(alloc, &copied, text.as_str()),
        Err(_) => false,
    };
    let is_same = is_shown_alike && copied == *subs;
    release_table(copied);
    is_same
}

/// Whether the components are equal, where both are there, whether the tables are equal, and whether both are copied.
fn judged(alloc: Global, one: Component, other: Component) -> Option<(bool, bool, bool)> {
    let (subs, other_subs) = (table_of(alloc, one.0)?, table_of(alloc, other.0));
    let judged = match &other_subs {
        Some(other_subs) => Some((
            match (component(&subs, one.1), component(other_subs, other.1)) {
                (Some(node), Some(other)) => node.is_equal(other),
                _ => false,
            },
            subs == *other_subs,
            is_table_copied(alloc, &subs) && is_table_copied(alloc, other_subs),
        )),
        None => None,
    };
    release_table(subs);
    if let Some(other_subs) = other_subs {
        release_table(other_subs);
    }
    judged
}

#[test]
fn components_and_tables_read_apart_are_copied_and_compared(rt: HostRuntime) {
    for (i, (one, other, are_equal, are_tables_equal)) in CASES.iter().enumerate() {
        let wanted = Some((*are_equal, *are_tables_equal, true));
        same(&rt, i, judged(rt.alloc(), *one, *other), wanted);
    }
}

fn has_text(alloc: Global, bytes: &[u8], text: &str) -> Option<bool> {
    let subs = table_of(alloc, bytes)?;
    let has_text = is_shown(alloc, &subs, text);
    release_table(subs);
    Some(has_text)
}

#[test]
fn tables_are_shown(rt: HostRuntime) {
    for (i, (bytes, text)) in TEXTS.iter().enumerate() {
        same(&rt, i, has_text(rt.alloc(), *bytes, *text), Some(true));
    }
}
