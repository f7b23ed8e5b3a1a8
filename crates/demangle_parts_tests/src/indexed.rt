//! Names by scope.

use cpp_demangle::DemangleOptions;
use demangle_parts::{Group, index_of};
use std::alloc::{AllocError, Global};
use std::test::Fail;

/// Names of which each has a scope of its own, none or a refusal.
static NAMES: [&[u8]; 6] = [
    b"_ZN1a1bEv",
    b"_Z",
    b"_Z1fv",
    b"_ZN1a1cE",
    b"_Z1fT_",
    b"_ZNSt6vectorIiSaIiEE9push_backERKi",
];

/// The groups of an index as one text: each scope with its positions.
fn listed(alloc: Global, groups: &[Group]) -> Result<String, AllocError> {
    let mut text = String::new(alloc);
    for group in groups {
        let scope = group.scope().unwrap_or("-");
        let positions = group.positions();
        text.push_str(format!(in alloc; "{scope}{positions:?};")?.as_str())?;
    }
    Ok(text)
}

#[test]
fn names_stand_in_the_groups_of_their_scopes(rt: HostRuntime) -> Result<(), Fail> {
    let alloc = rt.alloc();
    let mut names = Vec::new(alloc);
    for name in &NAMES {
        names.push(name.to_vec(alloc)?)?;
    }
    let index = index_of(alloc, names.as_slice(), &DemangleOptions::new())?;
    let groups = listed(alloc, index.groups())?;
    let wanted = "-[2];a[0, 3];std::vector<int, std::allocator<int> >[5];";
    assert_eq!(rt; groups.as_str(), wanted);
    assert_eq!(rt; index.refused(), [1, 4].as_slice());
    Ok(())
}
