//! Where nodes begin and end in the text.

use crate::checks::holds;
use crate::listener::Listener;
use crate::printed::print_name;
use demangle_scope::{DemangleError, DemangleOptions};
use demangle_text::Error;
use std::alloc::Global;

/// Nodes of all kinds; also one in another of its kind.
static EVENTS: [(&str, &str); 13] = [
    ("i", "int"),
    (
        "PFPN1a1bEvE",
        "‹NestedName ‹Prefix ‹UnqualifiedName a››::‹UnqualifiedName b››* (*)()",
    ),
    (
        "_Z1fIiEDTplfp_Li1EET_",
        "‹Decltype decltype ({parm#1}+(1))› ‹UnqualifiedName f›<‹TemplateArgs int›>(‹TemplateParam int›)",
    ),
    (
        "_ZN1a1bEv",
        "‹NestedName ‹Prefix ‹UnqualifiedName a››::‹UnqualifiedName b››()",
    ),
    ("_ZN3foo3barS_E", "‹NestedName ‹UnqualifiedName foo››"),
    (
        "_Z1fIiEvT_",
        "void ‹UnqualifiedName f›<‹TemplateArgs int›>(‹TemplateParam int›)",
    ),
    (
        "_ZN1AcvT_IiEI1CEEv",
        "‹NestedName ‹TemplatePrefix ‹Prefix ‹UnqualifiedName A››::‹UnqualifiedName operator ‹TemplateParam int›\
         <‹TemplateArgs int›>››<‹TemplateArgs ‹UnqualifiedName C››>›()",
    ),
    (
        "_ZNK7Members1xMUlvE_clEv",
        "‹NestedName ‹Prefix ‹Prefix ‹Prefix ‹UnqualifiedName Members››::‹DataMemberPrefix x››::\
         ‹UnqualifiedName {lambda()#1}››::‹UnqualifiedName operator()››() const",
    ),
    (
        "_ZZ1fvEN1aC1Ev",
        "‹UnqualifiedName f›()::‹NestedName ‹Prefix ‹UnqualifiedName a››::‹UnqualifiedName a››()",
    ),
    (
        "_Z1fIiEvNT_1aE",
        "void ‹UnqualifiedName f›<‹TemplateArgs int›>(‹NestedName ‹Prefix ‹TemplateParam int››::\
         ‹UnqualifiedName a››)",
    ),
    (
        "_ZNKR1a1bIiEEvv",
        "void ‹NestedName ‹TemplatePrefix ‹Prefix ‹UnqualifiedName a››::‹UnqualifiedName b››\
         <‹TemplateArgs int›>›() const &",
    ),
    (
        "_Z1fDtfp_E",
        "‹UnqualifiedName f›(‹Decltype decltype ({parm#1})›)",
    ),
    (
        "_ZTVN4Heya1AE",
        "{vtable(‹VirtualTable ‹NestedName ‹Prefix ‹UnqualifiedName Heya››::‹UnqualifiedName A›››)}",
    ),
];

/// Names of which a part refers to nothing, or is no text, and what is told before it.
static FAULTS: [(&[u8], DemangleError, &str); 6] = [
    (
        b"_ZC1v",
        DemangleError::Reference(Error::BadLeafNameReference),
        "‹UnqualifiedName ",
    ),
    (
        b"_Z1fT_",
        DemangleError::Reference(Error::BadTemplateArgReference),
        "‹UnqualifiedName f›(‹TemplateParam ",
    ),
    (
        b"_Z1fIT_Evv",
        DemangleError::Reference(Error::ForwardTemplateArgReference),
        "void ‹UnqualifiedName f›<‹TemplateArgs ‹TemplateParam ",
    ),
    (
        b"_ZN1aIiEcvT_Ev",
        DemangleError::Reference(Error::BadTemplateArgReference),
        "‹NestedName ‹Prefix ‹TemplatePrefix ‹UnqualifiedName a››<‹TemplateArgs int›>›::‹UnqualifiedName \
         operator ‹TemplateParam ",
    ),
    (
        b"_Z1fILi\xFFEEvv",
        DemangleError::NotUtf8,
        "void ‹UnqualifiedName f›<‹TemplateArgs ",
    ),
    (
        b"_Z1fILf\xFFEEvv",
        DemangleError::NotUtf8,
        "void ‹UnqualifiedName f›<‹TemplateArgs (float)[",
    ),
];

fn are_told(alloc: Global, name: &str, events: &str) -> bool {
    let mut listener = Listener::new(alloc);
    let answer = print_name(
        alloc,
        name.as_bytes(),
        DemangleOptions::new(),
        &mut listener,
    );
    answer == Some(Ok(()))
        && listener.is_closed()
        && listener.is_in_order()
        && listener.told() == events
}

// Behind a fault nodes may end, no more than stood open.
fn are_told_before(alloc: Global, name: &[u8], fault: DemangleError, events: &str) -> bool {
    let mut listener = Listener::new(alloc);
    let answer = print_name(alloc, name, DemangleOptions::new(), &mut listener);
    answer == Some(Err(fault))
        && listener.is_in_order()
        && listener.told().trim_end_matches('›') == events
}

#[test]
fn a_listener_is_told_where_nodes_begin_and_end(rt: HostRuntime) {
    for (name, events) in &EVENTS {
        holds(&rt, *name, are_told(rt.alloc(), *name, *events));
    }
}

#[test]
fn what_stands_before_a_fault_is_told(rt: HostRuntime) {
    for (name, fault, events) in &FAULTS {
        let is_told = are_told_before(rt.alloc(), *name, *fault, *events);
        holds(&rt, *events, is_told);
    }
}
