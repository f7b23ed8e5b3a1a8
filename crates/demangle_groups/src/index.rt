//! Positions by scope.

ghost use Rattle.std.specs.Prelude.{◌≡◌, option_map};
ghost use Rattle.demangle_groups.specs.Shown.{groups_of, positions_of, refused_of, scope_of};

/// The entries of one scope.
#[derive(Drop, Debug)]
pub struct Group {
    pub(crate) scope: Option<String>,
    pub(crate) positions: Vec<usize>,
}

impl Group {
    /// The scope; `None` for the entries without one.
    pub fn scope(&self) -> Option<&str>
        ensures { option_map (λ x. x.now) result ≡ scope_of self.now }
    {
        match &self.scope {
            None => None,
            Some(scope) => Some(scope.as_str()),
        }
    }

    /// Where its entries stand in the list, rising.
    pub fn positions(&self) -> &[usize]
        ensures { result.now ≡ positions_of self.now }
    {
        self.positions.as_slice()
    }
}

/// The entries of a list by their scopes.
#[derive(Drop, Debug)]
pub struct Index {
    pub(crate) groups: Vec<Group>,
    pub(crate) refused: Vec<usize>,
}

impl Index {
    /// The groups, by scope: the entries without one first, and then by the bytes of the scope.
    pub fn groups(&self) -> &[Group]
        ensures { result.now ≡ groups_of self.now }
    {
        self.groups.as_slice()
    }

    /// Where the entries stand in the list that were refused, rising.
    pub fn refused(&self) -> &[usize]
        ensures { result.now ≡ refused_of self.now }
    {
        self.refused.as_slice()
    }
}
