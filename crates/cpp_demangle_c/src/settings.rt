//! The options that C hands in.

use cpp_demangle::{DemangleOptions, ParseOptions};

/// The limit on a text that stands for none.
pub const ANY_LENGTH: usize = usize::MAX;

/// How a name is read and printed. The header's `cpp_demangle_options`.
#[repr(C)]
#[derive(Clone, Copy)]
pub struct Settings {
    /// The limit on levels of nesting in a name, at least 1.
    pub parse_limit: u32,
    /// The limit on levels of nesting in a text, at least 1.
    pub print_limit: u32,
    /// The greatest number of bytes of a text; `ANY_LENGTH` for texts of any length.
    pub output_limit: usize,
    /// Whether functions are printed without their parameters.
    pub no_params: bool,
    /// Whether function templates are printed without their result types.
    pub no_return_type: bool,
    /// Whether literals in expressions are printed without their types.
    pub hide_literal_types: bool,
}

impl Settings {
    ghost use Rattle.std.specs.Prelude.{◌≡◌, ◌<◌, ◌↔◌, IsTrue};
    ghost use Rattle.cpp_demangle_c.specs.Asked.{IsInRange, print_options};

    /// Whether neither limit on levels is 0.
    pub(crate) fn is_in_range(&self) -> bool
        ensures { IsTrue result ↔ IsInRange self.now }
    {
        self.parse_limit > 0 && self.print_limit > 0
    }

    /// The options of reading.
    pub(crate) fn parse(&self) -> ParseOptions
        requires { 0 < self.now.parse_limit }
        ensures { result ≡ self.now.parse_limit }
    {
        ParseOptions::default().recursion_limit(self.parse_limit)
    }

    /// The options of printing.
    pub(crate) fn print(&self) -> DemangleOptions
        requires { 0 < self.now.print_limit }
        ensures { result ≡ print_options self.now }
    {
        let mut options = DemangleOptions::new().recursion_limit(self.print_limit);
        if self.no_params {
            options = options.no_params();
        }
        if self.no_return_type {
            options = options.no_return_type();
        }
        if self.hide_literal_types {
            options = options.hide_expression_literal_types();
        }
        match self.output_limit {
            ANY_LENGTH => options,
            most => options.output_limit(most),
        }
    }
}
