//! The options of printing.

ghost use Rattle.std.specs.Prelude.{◌≡◌, ◌<◌, ◌↔◌, true, not, Some, IsTrue};
ghost use Rattle.demangle_context.specs.Options.{default_options, is_default};

use std::marker::Model;

/// The limit on levels where none was set.
const DEFAULT_RECURSION_LIMIT: u32 = 128;

/// How a tree is printed. In a contract it is the record of its options. The original's type of this name; the limit on
/// the text and `is_default` are additions.
#[derive(Clone, Copy, Debug)]
pub struct DemangleOptions {
    limit: u32,
    no_params: bool,
    no_return_type: bool,
    hide_expression_literal_types: bool,
    output_limit: Option<usize>,
}

impl Model for DemangleOptions {
    ghost use Rattle.std.specs.Prelude.{◌<◌};
    ghost use Rattle.demangle_printing.specs.Outcome.{Options};

    ghost Value = { Options };

    ghost view = { λ o. record {
      limit = o.limit;
      no_params = o.no_params;
      no_return_type = o.no_return_type;
      hide_expression_literal_types = o.hide_expression_literal_types;
      output_limit = o.output_limit;
    } };

    ghost invariant = { λ o. 0 < o.limit };

    ghost inverse = { λ o. record {
      limit = o.limit;
      no_params = o.no_params;
      no_return_type = o.no_return_type;
      hide_expression_literal_types = o.hide_expression_literal_types;
      output_limit = o.output_limit;
    } };
}

impl Default for DemangleOptions {
    ghost is_default = { λ o. o ≡ default_options };

    fn default() -> DemangleOptions {
        DemangleOptions {
            limit: DEFAULT_RECURSION_LIMIT,
            no_params: false,
            no_return_type: false,
            hide_expression_literal_types: false,
            output_limit: None,
        }
    }
}

impl DemangleOptions {
    /// The options where none was set: all of a name is printed, on at most 128 levels, at any length.
    pub fn new() -> DemangleOptions
        ensures { result ≡ default_options }
    {
        DemangleOptions::default()
    }

    /// The same options, but functions have no parameters.
    pub fn no_params(self) -> DemangleOptions
        ensures { result ≡ record self { no_params = true } }
    {
        let mut options = self;
        options.no_params = true;
        options
    }

    /// The same options, but functions have no result type.
    pub fn no_return_type(self) -> DemangleOptions
        ensures { result ≡ record self { no_return_type = true } }
    {
        let mut options = self;
        options.no_return_type = true;
        options
    }

    /// The same options, but literals in expressions have no types.
    pub fn hide_expression_literal_types(self) -> DemangleOptions
        ensures { result ≡ record self { hide_expression_literal_types = true } }
    {
        let mut options = self;
        options.hide_expression_literal_types = true;
        options
    }

    /// The same options, with this limit on levels: a printing that enters level `limit` is refused.
    pub fn recursion_limit(self, limit: u32) -> DemangleOptions
        requires { 0 < limit }
        ensures { result ≡ record self { limit = limit } }
    {
        let mut options = self;
        options.limit = limit;
        options
    }

    /// The same options, with this greatest number of bytes of a text, 0 included.
    pub fn output_limit(self, bytes: usize) -> DemangleOptions
        ensures { result ≡ record self { output_limit = Some bytes } }
    {
        let mut options = self;
        options.output_limit = Some(bytes);
        options
    }

    /// The greatest number of bytes of a text; `None` where none was set.
    pub fn output_bytes(&self) -> Option<usize>
        ensures { result ≡ self.now.output_limit }
    {
        self.output_limit
    }

    /// The limit on levels, 128 where none was set.
    pub fn limit(&self) -> u32
        ensures value { result ≡ self.now.limit }
        ensures positive { 0 < result }
    {
        self.limit
    }

    /// Whether each option is as where none was set; a limit of 128 levels may have been set.
    pub fn is_default(&self) -> bool
        ensures value { result ≡ is_default self.now }
        ensures exactly { IsTrue result ↔ (self.now ≡ default_options) }
    {
        let limits = self.limit == DEFAULT_RECURSION_LIMIT && self.output_limit.is_none();
        let left_out = self.no_params || self.no_return_type || self.hide_expression_literal_types;
        limits && !left_out
    }

    /// Whether functions have their parameters, function templates their result, and literals their types.
    pub(crate) fn shows(&self) -> (bool, bool, bool)
        ensures params { result.0 ≡ not self.now.no_params }
        ensures results { result.1 ≡ not self.now.no_return_type }
        ensures literal_types { result.2 ≡ not self.now.hide_expression_literal_types }
    {
        (
            !self.no_params,
            !self.no_return_type,
            !self.hide_expression_literal_types,
        )
    }
}
