//! Names and texts of declarations.

use crate::declared::{Row, declared};
use crate::rows::ROWS;
use cpp_mangle::mangle;
use std::alloc::Global;
use std::process::Abort;
use std::test::Fail;

const WORKED: [Row; 4] = [
    Row {
        path: "a::f",
        params: ":a RK:a RK:a",
        name: "_ZN1a1fES_RKS_S1_",
        text: "a::f(a, a const&, a const&)",
    },
    Row {
        path: "f",
        params: ":a::b P:a::c :a::b::d",
        name: "_Z1fN1a1bEPNS_1cENS0_1dE",
        text: "f(a::b, a::c*, a::b::d)",
    },
    Row {
        path: "f",
        params: ":a::b P:a::b::d",
        name: "_Z1fN1a1bEPNS0_1dE",
        text: "f(a::b, a::b::d*)",
    },
    Row {
        path: "f",
        params: "",
        name: "_Z1fv",
        text: "f()",
    },
];

/// Each has its name and its text.
fn have_names(rt: &impl Abort, alloc: Global, rows: &[Row]) -> Result<(), Fail> {
    for row in rows {
        let decl = declared(alloc, row)?;
        let name = String::from_utf8(mangle(alloc, &decl)?)?;
        assert_eq!(rt; name.as_str(), row.name);
        assert_eq!(rt; decl.to_string(alloc)?.as_str(), row.text);
    }
    Ok(())
}

#[test]
fn worked_declarations_have_their_names(rt: HostRuntime) -> Result<(), Fail> {
    have_names(&rt, rt.alloc(), &WORKED)
}

#[test]
fn declarations_from_outside_have_their_names(rt: HostRuntime) -> Result<(), Fail> {
    have_names(&rt, rt.alloc(), &ROWS)
}
