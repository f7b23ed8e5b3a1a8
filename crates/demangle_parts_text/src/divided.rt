//! The parts of a printed name.

ghost use Rattle.std.specs.Prelude.{◌≤◌, ◌+◌, string_bytes};
ghost use Rattle.std.specs.Option.{ForSome};
ghost use Rattle.std.specs.Str.{IsCharBoundary};
ghost use Rattle.demangle_parts_text.specs.Walk.{base_from};

/// A printed name in three parts: its scope, where it has one, its base, and what is behind the base. They are ranges
/// of one text, in which `::` stands between the scope and the base.
#[derive(Drop, Debug)]
pub struct Divided {
    pub(crate) text: String,
    pub(crate) scope: Option<usize>,
    pub(crate) end: usize,
    pub ghost scope_ends: { ForSome scope (λ n. IsCharBoundary (string_bytes text) n) },
    pub ghost base_begins: { ForSome scope (λ n. IsCharBoundary (string_bytes text) (n + 2)) },
    pub ghost base_ends: { IsCharBoundary (string_bytes text) end },
    pub ghost order: { base_from scope ≤ end },
}

impl Divided {
    ghost use Rattle.std.specs.Prelude.{◌≡◌, option_map};
    ghost use Rattle.demangle_parts_text.specs.Divided.{shown};

    /// The scope, as `std::vector<int>`; `None` where the name has none.
    pub fn scope(&self) -> Option<&str>
        ensures { option_map (λ x. x.now) result ≡ (shown self.now).scope }
    {
        match self.scope {
            None => None,
            Some(end) => Some(&self.text.as_str()[..end]),
        }
    }

    /// The name in its scope, with the template arguments, as `push_back`.
    pub fn base(&self) -> &str
        ensures { result.now ≡ (shown self.now).base }
    {
        let from = match self.scope {
            None => 0,
            Some(end) => end + 2,
        };
        &self.text.as_str()[from..self.end]
    }

    /// What is behind the base, as `(int)`.
    pub fn after(&self) -> &str
        ensures { result.now ≡ (shown self.now).after }
    {
        &self.text.as_str()[self.end..]
    }
}
