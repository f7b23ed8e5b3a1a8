//! An index as it is made, from the first entry of a list to the last.

ghost use Rattle.std.specs.Prelude.{◌≡◌, List, Some, None, [], ◌∷◌, ◌++◌, IfOk, OnOk, OnErr, length, map, option_map};
ghost use Rattle.std.specs.BTreeMap.{IsOrdered};
ghost use Rattle.std.specs.String.{string_cmp};
ghost use Rattle.demangle_groups.specs.Kept.{Adds, Keeps, Stays, first_groups, group_at};
ghost use Rattle.demangle_groups.specs.Places.{Entry, IsIndexOf};
ghost use Rattle.demangle_groups.specs.Shown.{shown};

use crate::index::{Group, Index};
use std::alloc::{AllocError, Global};
use std::collections::BTreeMap;

/// The positions so far, by scope.
#[derive(Drop)]
pub struct IndexBuilder {
    alloc: Global,
    without: Vec<usize>,
    within: BTreeMap<String, Vec<usize>>,
    refused: Vec<usize>,
}

/// Adds a position to those of a scope.
fn add_within(
    alloc: Global,
    within: &mut BTreeMap<String, Vec<usize>>,
    scope: &str,
    position: usize,
) -> Result<(), AllocError>
    ensures added { OnOk result (Adds scope.now position within.old within.new) }
    ensures lacked { OnErr result (Stays within.old within.new) }
{
    if let Some(positions) = within.get_mut(scope) {
        positions.push(position)?;
        return Ok(());
    }
    let mut positions = Vec::new(alloc);
    positions.push(position)?;
    within.insert(String::from_str(alloc, scope)?, positions)?;
    Ok(())
}

/// The group of the entries without a scope, where there are any.
fn first_groups(alloc: Global, without: Vec<usize>) -> Result<Vec<Group>, AllocError>
    ensures { IfOk result (λ groups. groups.items ≡ first_groups without) }
{
    let mut groups = Vec::new(alloc);
    if without.is_empty() {
        return Ok(groups);
    }
    groups.push(Group {
        scope: None,
        positions: without,
    })?;
    Ok(groups)
}

/// The groups of these scopes, behind others.
fn push_groups(
    groups: &mut Vec<Group>,
    within: BTreeMap<String, Vec<usize>>,
) -> Result<(), AllocError>
    ensures pushed { OnOk result (groups.new.items ≡ groups.old.items ++ map group_at within.entries) }
    ensures ordered { OnOk result (IsOrdered string_cmp within) }
{
    for (scope, positions) in within {
        groups.push(Group {
            scope: Some(scope),
            positions,
        })?;
    }
    Ok(())
}

impl IndexBuilder {
    /// An index of no entries.
    pub fn new(alloc: Global) -> IndexBuilder
        ensures { Keeps result [] }
    {
        IndexBuilder {
            alloc,
            without: Vec::new(alloc),
            within: BTreeMap::new(alloc),
            refused: Vec::new(alloc),
        }
    }

    /// The entry at this position, behind those so far, is in this scope, or in none. Where there is no memory the
    /// index is as before.
    pub fn add(&mut self, scope: Option<&str>, position: usize) -> Result<(), AllocError>
        ensures added { (es : List Entry) → length es ≡ position → Keeps self.old es
            → OnOk result (Keeps self.new (es ++ Some (option_map (λ x. x.now) scope.entry) ∷ [])) }
        ensures lacked { (es : List Entry) → Keeps self.old es → OnErr result (Keeps self.new es) }
    {
        match scope {
            None => {
                self.without.push(position)?;
                Ok(())
            }
            Some(scope) => add_within(self.alloc, &mut self.within, scope, position),
        }
    }

    /// The entry at this position, behind those so far, is refused. Where there is no memory the index is as before.
    pub fn refuse(&mut self, position: usize) -> Result<(), AllocError>
        ensures refused { (es : List Entry) → length es ≡ position → Keeps self.old es
            → OnOk result (Keeps self.new (es ++ None ∷ [])) }
        ensures lacked { (es : List Entry) → Keeps self.old es → OnErr result (Keeps self.new es) }
    {
        self.refused.push(position)?;
        Ok(())
    }

    /// The index of the entries so far.
    pub fn finish(self) -> Result<Index, AllocError>
        ensures { (es : List Entry) → Keeps self es → IfOk result (λ index. IsIndexOf es (shown index)) }
    {
        let IndexBuilder {
            alloc,
            without,
            within,
            refused,
        } = self;
        let mut groups = first_groups(alloc, without)?;
        push_groups(&mut groups, within)?;
        Ok(Index { groups, refused })
    }
}
