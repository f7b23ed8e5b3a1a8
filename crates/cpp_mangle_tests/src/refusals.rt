//! What is no part of a declaration, and why.

use crate::declared::{params, path};
use cpp_mangle::{Decl, Ident, MangleFault, Path};
use std::alloc::Global;
use std::process::Abort;
use std::test::Fail;

/// Bytes that are identifiers, and bytes that aren't.
const IDENTIFIERS: [(&str, bool); 9] = [
    ("a", true),
    ("_a9Z", true),
    ("_GLOBAL", true),
    ("", false),
    ("1a", false),
    ("a.b", false),
    ("a$", false),
    ("_GLOBAL_", false),
    ("\u{e9}", false),
];

/// Parameters that a function may have, and those that none has.
const PARAMETERS: [(&str, bool); 12] = [
    ("", true),
    ("P:.v", true),
    ("PPPPPPPPPPPPPPPP:.i", true),
    ("RPPPPPPPPPPPPPPP:a", true),
    ("RK:.v", true),
    (":.v", false),
    ("PPPPPPPPPPPPPPPPP:.i", false),
    ("KK:.i", false),
    ("KR:.i", false),
    ("PR:.i", false),
    ("RO:.i", false),
    ("PKKP:a", false),
];

/// As many identifiers of one letter.
fn many(alloc: Global, count: usize) -> Result<Vec<Ident>, Fail> {
    let mut parts = Vec::new(alloc);
    for _ in 0..count {
        parts.push(Ident::new(alloc, b"a")?)?;
    }
    Ok(parts)
}

#[test]
fn identifiers(rt: HostRuntime) -> Result<(), Fail> {
    for (text, is_one) in &IDENTIFIERS {
        match Ident::new(rt.alloc(), text.as_bytes()) {
            Ok(ident) => assert!(rt; *is_one && ident.as_str() == *text, "{text}"),
            Err(fault) => assert!(rt; !*is_one && fault == MangleFault::BadIdent, "{text}"),
        }
    }
    for (count, is_one) in [(255, true), (256, false)] {
        let bytes = vec![in rt.alloc(); b'a'; count]?;
        assert_eq!(rt; Ident::new(rt.alloc(), &bytes).is_ok(), is_one);
    }
    Ok(())
}

#[test]
fn paths(rt: HostRuntime) -> Result<(), Fail> {
    for (count, is_one) in [(0, false), (1, true), (16, true), (17, false)] {
        let made = Path::new(many(rt.alloc(), count)?);
        assert_eq!(rt; made.is_ok(), is_one);
    }
    for (first, fault) in [("std", Err(MangleFault::BadPath)), ("x", Ok(()))] {
        let mut parts = Vec::new(rt.alloc());
        parts.push(Ident::new(rt.alloc(), first.as_bytes())?)?;
        parts.push(Ident::new(rt.alloc(), b"std")?)?;
        assert_eq!(rt; Path::new(parts).map(|_| ()), fault);
    }
    Ok(())
}

#[test]
fn parameters(rt: HostRuntime) -> Result<(), Fail> {
    for (text, are_some) in &PARAMETERS {
        match Decl::new(path(rt.alloc(), "f")?, params(rt.alloc(), text)?) {
            Ok(_) => assert!(rt; *are_some, "{text}"),
            Err(fault) => assert!(rt; !*are_some && fault == MangleFault::BadType, "{text}"),
        }
    }
    Ok(())
}
