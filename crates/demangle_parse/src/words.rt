//! The rows of words.

ghost use Rattle.demangle_leaf_nodes.specs.TreeLeaves.{tree_of_explicit_object_parameter, tree_of_ref_qualifier};
ghost use Rattle.demangle_leaf_nodes.specs.TreeLeaves.{tree_of_simple_operator_name, tree_of_standard_builtin_type};
ghost use Rattle.demangle_leaf_nodes.specs.TreeLeaves.{tree_of_well_known_component};
ghost use Rattle.demangle_grammar.specs.Rule.{Row};

use crate::parse::Parse;
use demangle_leaf_rows::{ParseContext, read_leaf_in};
use demangle_table::SubstitutionTable;
use demangle_text::{IndexStr, Result};
use demangle_vocab::{
    ExplicitObjectParameter, RefQualifier, SimpleOperatorName, StandardBuiltinType,
    WellKnownComponent,
};
use std::alloc::Global;

impl Parse for SimpleOperatorName {
    ghost row = { Row.simple_operator_name };

    ghost tree = { tree_of_simple_operator_name };

    fn parse<'b>(
        _alloc: Global,
        ctx: &mut ParseContext,
        _subs: &mut SubstitutionTable,
        input: IndexStr<'b>,
    ) -> Result<(SimpleOperatorName, IndexStr<'b>)> {
        read_leaf_in(ctx, input)
    }
}

impl Parse for StandardBuiltinType {
    ghost row = { Row.standard_builtin_type };

    ghost tree = { tree_of_standard_builtin_type };

    fn parse<'b>(
        _alloc: Global,
        ctx: &mut ParseContext,
        _subs: &mut SubstitutionTable,
        input: IndexStr<'b>,
    ) -> Result<(StandardBuiltinType, IndexStr<'b>)> {
        read_leaf_in(ctx, input)
    }
}

impl Parse for WellKnownComponent {
    ghost row = { Row.well_known_component };

    ghost tree = { tree_of_well_known_component };

    fn parse<'b>(
        _alloc: Global,
        ctx: &mut ParseContext,
        _subs: &mut SubstitutionTable,
        input: IndexStr<'b>,
    ) -> Result<(WellKnownComponent, IndexStr<'b>)> {
        read_leaf_in(ctx, input)
    }
}

impl Parse for RefQualifier {
    ghost row = { Row.ref_qualifier };

    ghost tree = { tree_of_ref_qualifier };

    fn parse<'b>(
        _alloc: Global,
        ctx: &mut ParseContext,
        _subs: &mut SubstitutionTable,
        input: IndexStr<'b>,
    ) -> Result<(RefQualifier, IndexStr<'b>)> {
        read_leaf_in(ctx, input)
    }
}

impl Parse for ExplicitObjectParameter {
    ghost row = { Row.explicit_object_parameter };

    ghost tree = { tree_of_explicit_object_parameter };

    fn parse<'b>(
        _alloc: Global,
        ctx: &mut ParseContext,
        _subs: &mut SubstitutionTable,
        input: IndexStr<'b>,
    ) -> Result<(ExplicitObjectParameter, IndexStr<'b>)> {
        read_leaf_in(ctx, input)
    }
}
