//! The rows of one word of a table.

ghost use Rattle.demangle_leaf_nodes.specs.TreeLeaves.{tree_of_well_known_component, tree_of_simple_operator_name};
ghost use Rattle.demangle_leaf_nodes.specs.TreeLeaves.{tree_of_standard_builtin_type, tree_of_ref_qualifier};
ghost use Rattle.demangle_leaf_nodes.specs.TreeLeaves.{tree_of_explicit_object_parameter};
ghost use Rattle.demangle_grammar.specs.Rule.{Row};

use crate::depth::Depth;
use crate::read_leaf::ReadLeaf;
use demangle_text::{IndexStr, Result};
use demangle_vocab::{
    ExplicitObjectParameter, RefQualifier, SimpleOperatorName, StandardBuiltinType,
    WellKnownComponent,
};

/// One of the abbreviated names of `std`. ABI section 5.1.10.
///
/// ```text
/// <substitution> ::= St | Sa | Sb | Ss | Si | So | Sd
/// ```
impl ReadLeaf for WellKnownComponent {
    ghost leaf_row = { Row.well_known_component };

    ghost leaf_tree = { tree_of_well_known_component };

    #[tactic(auto, unfolding(demangle_grammar::specs::Code::cread, demangle_grammar::specs::Rows::rule))]
    fn read_leaf<'b>(
        depth: Depth,
        input: IndexStr<'b>,
    ) -> Result<(WellKnownComponent, IndexStr<'b>)> {
        let _depth = depth.enter()?;
        WellKnownComponent::read_word(input)
    }
}

/// An operator whose name is one word. ABI section 5.1.3.
///
/// ```text
/// <operator-name> ::= nw | na | dl | da | ..   # a word of the table
/// ```
impl ReadLeaf for SimpleOperatorName {
    ghost leaf_row = { Row.simple_operator_name };

    ghost leaf_tree = { tree_of_simple_operator_name };

    #[tactic(auto, unfolding(demangle_grammar::specs::Code::cread, demangle_grammar::specs::Rows::rule))]
    fn read_leaf<'b>(
        depth: Depth,
        input: IndexStr<'b>,
    ) -> Result<(SimpleOperatorName, IndexStr<'b>)> {
        let _depth = depth.enter()?;
        SimpleOperatorName::read_word(input)
    }
}

/// A builtin type whose name is one word. ABI section 5.1.5.2.
///
/// ```text
/// <builtin-type> ::= v | w | b | c | ..   # a word of the table
/// ```
impl ReadLeaf for StandardBuiltinType {
    ghost leaf_row = { Row.standard_builtin_type };

    ghost leaf_tree = { tree_of_standard_builtin_type };

    #[tactic(auto, unfolding(demangle_grammar::specs::Code::cread, demangle_grammar::specs::Rows::rule))]
    fn read_leaf<'b>(
        depth: Depth,
        input: IndexStr<'b>,
    ) -> Result<(StandardBuiltinType, IndexStr<'b>)> {
        let _depth = depth.enter()?;
        StandardBuiltinType::read_word(input)
    }
}

/// `&` or `&&`. ABI section 5.1.5.3.
///
/// ```text
/// <ref-qualifier> ::= R | O
/// ```
impl ReadLeaf for RefQualifier {
    ghost leaf_row = { Row.ref_qualifier };

    ghost leaf_tree = { tree_of_ref_qualifier };

    #[tactic(auto, unfolding(demangle_grammar::specs::Code::cread, demangle_grammar::specs::Rows::rule))]
    fn read_leaf<'b>(depth: Depth, input: IndexStr<'b>) -> Result<(RefQualifier, IndexStr<'b>)> {
        let _depth = depth.enter()?;
        RefQualifier::read_word(input)
    }
}

/// The mark of a member function whose first parameter is the object. ABI section 5.1.2.
impl ReadLeaf for ExplicitObjectParameter {
    ghost leaf_row = { Row.explicit_object_parameter };

    ghost leaf_tree = { tree_of_explicit_object_parameter };

    #[tactic(auto, unfolding(demangle_grammar::specs::Code::cread, demangle_grammar::specs::Rows::rule))]
    fn read_leaf<'b>(
        depth: Depth,
        input: IndexStr<'b>,
    ) -> Result<(ExplicitObjectParameter, IndexStr<'b>)> {
        let _depth = depth.enter()?;
        ExplicitObjectParameter::read_word(input)
    }
}
