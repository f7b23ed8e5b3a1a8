//! The rows that need no recursion.

ghost use Rattle.demangle_leaf_nodes.specs.TreeLeaves.{tree_of_abi_tag, tree_of_abi_tags, tree_of_call_offset};
ghost use Rattle.demangle_leaf_nodes.specs.TreeLeaves.{tree_of_clone_suffix, tree_of_clone_type_identifier};
ghost use Rattle.demangle_leaf_nodes.specs.TreeLeaves.{tree_of_cv_qualifiers, tree_of_discriminator};
ghost use Rattle.demangle_leaf_nodes.specs.TreeLeaves.{tree_of_function_param, tree_of_identifier, tree_of_nv_offset};
ghost use Rattle.demangle_leaf_nodes.specs.TreeLeaves.{tree_of_resource_name, tree_of_seq_id, tree_of_signed};
ghost use Rattle.demangle_leaf_nodes.specs.TreeLeaves.{tree_of_source_name, tree_of_substitution};
ghost use Rattle.demangle_leaf_nodes.specs.TreeLeaves.{tree_of_template_param, tree_of_unnamed_type_name};
ghost use Rattle.demangle_leaf_nodes.specs.TreeLeaves.{tree_of_v_offset};
ghost use Rattle.demangle_grammar.specs.Rule.{Row};

use crate::parse::Parse;
use demangle_entries::{
    AbiTag, AbiTags, CallOffset, CloneSuffix, CloneTypeIdentifier, CvQualifiers, Discriminator,
    FunctionParam, Identifier, Number, NvOffset, ResourceName, SeqId, SourceName, Substitution,
    TemplateParam, UnnamedTypeName, VOffset,
};
use demangle_leaf_rows::{
    ParseContext, read_abi_tags, read_clone_suffix, read_leaf_in, substitution_in,
};
use demangle_table::SubstitutionTable;
use demangle_text::{IndexStr, Result};
use std::alloc::Global;

impl Parse for Number {
    ghost row = { Row.number };

    ghost tree = { tree_of_signed };

    fn parse<'b>(
        _alloc: Global,
        ctx: &mut ParseContext,
        _subs: &mut SubstitutionTable,
        input: IndexStr<'b>,
    ) -> Result<(Number, IndexStr<'b>)> {
        read_leaf_in(ctx, input)
    }
}

impl Parse for SeqId {
    ghost row = { Row.seq_id };

    ghost tree = { tree_of_seq_id };

    fn parse<'b>(
        _alloc: Global,
        ctx: &mut ParseContext,
        _subs: &mut SubstitutionTable,
        input: IndexStr<'b>,
    ) -> Result<(SeqId, IndexStr<'b>)> {
        read_leaf_in(ctx, input)
    }
}

impl Parse for SourceName {
    ghost row = { Row.source_name };

    ghost tree = { tree_of_source_name };

    fn parse<'b>(
        _alloc: Global,
        ctx: &mut ParseContext,
        _subs: &mut SubstitutionTable,
        input: IndexStr<'b>,
    ) -> Result<(SourceName, IndexStr<'b>)> {
        read_leaf_in(ctx, input)
    }
}

impl Parse for Identifier {
    ghost row = { Row.identifier };

    ghost tree = { tree_of_identifier };

    fn parse<'b>(
        _alloc: Global,
        ctx: &mut ParseContext,
        _subs: &mut SubstitutionTable,
        input: IndexStr<'b>,
    ) -> Result<(Identifier, IndexStr<'b>)> {
        read_leaf_in(ctx, input)
    }
}

impl Parse for CloneTypeIdentifier {
    ghost row = { Row.clone_type_identifier };

    ghost tree = { tree_of_clone_type_identifier };

    fn parse<'b>(
        _alloc: Global,
        ctx: &mut ParseContext,
        _subs: &mut SubstitutionTable,
        input: IndexStr<'b>,
    ) -> Result<(CloneTypeIdentifier, IndexStr<'b>)> {
        read_leaf_in(ctx, input)
    }
}

impl Parse for AbiTag {
    ghost row = { Row.abi_tag };

    ghost tree = { tree_of_abi_tag };

    fn parse<'b>(
        _alloc: Global,
        ctx: &mut ParseContext,
        _subs: &mut SubstitutionTable,
        input: IndexStr<'b>,
    ) -> Result<(AbiTag, IndexStr<'b>)> {
        read_leaf_in(ctx, input)
    }
}

impl Parse for AbiTags {
    ghost row = { Row.abi_tags };

    ghost tree = { tree_of_abi_tags };

    fn parse<'b>(
        alloc: Global,
        ctx: &mut ParseContext,
        _subs: &mut SubstitutionTable,
        input: IndexStr<'b>,
    ) -> Result<(AbiTags, IndexStr<'b>)> {
        read_abi_tags(alloc, ctx, input)
    }
}

impl Parse for CloneSuffix {
    ghost row = { Row.clone_suffix };

    ghost tree = { tree_of_clone_suffix };

    fn parse<'b>(
        alloc: Global,
        ctx: &mut ParseContext,
        _subs: &mut SubstitutionTable,
        input: IndexStr<'b>,
    ) -> Result<(CloneSuffix, IndexStr<'b>)> {
        read_clone_suffix(alloc, ctx, input)
    }
}

impl Parse for NvOffset {
    ghost row = { Row.nv_offset };

    ghost tree = { tree_of_nv_offset };

    fn parse<'b>(
        _alloc: Global,
        ctx: &mut ParseContext,
        _subs: &mut SubstitutionTable,
        input: IndexStr<'b>,
    ) -> Result<(NvOffset, IndexStr<'b>)> {
        read_leaf_in(ctx, input)
    }
}

impl Parse for VOffset {
    ghost row = { Row.v_offset };

    ghost tree = { tree_of_v_offset };

    fn parse<'b>(
        _alloc: Global,
        ctx: &mut ParseContext,
        _subs: &mut SubstitutionTable,
        input: IndexStr<'b>,
    ) -> Result<(VOffset, IndexStr<'b>)> {
        read_leaf_in(ctx, input)
    }
}

impl Parse for CallOffset {
    ghost row = { Row.call_offset };

    ghost tree = { tree_of_call_offset };

    fn parse<'b>(
        _alloc: Global,
        ctx: &mut ParseContext,
        _subs: &mut SubstitutionTable,
        input: IndexStr<'b>,
    ) -> Result<(CallOffset, IndexStr<'b>)> {
        read_leaf_in(ctx, input)
    }
}

impl Parse for Discriminator {
    ghost row = { Row.discriminator };

    ghost tree = { tree_of_discriminator };

    fn parse<'b>(
        _alloc: Global,
        ctx: &mut ParseContext,
        _subs: &mut SubstitutionTable,
        input: IndexStr<'b>,
    ) -> Result<(Discriminator, IndexStr<'b>)> {
        read_leaf_in(ctx, input)
    }
}

impl Parse for TemplateParam {
    ghost row = { Row.template_param };

    ghost tree = { tree_of_template_param };

    fn parse<'b>(
        _alloc: Global,
        ctx: &mut ParseContext,
        _subs: &mut SubstitutionTable,
        input: IndexStr<'b>,
    ) -> Result<(TemplateParam, IndexStr<'b>)> {
        read_leaf_in(ctx, input)
    }
}

impl Parse for FunctionParam {
    ghost row = { Row.function_param };

    ghost tree = { tree_of_function_param };

    fn parse<'b>(
        _alloc: Global,
        ctx: &mut ParseContext,
        _subs: &mut SubstitutionTable,
        input: IndexStr<'b>,
    ) -> Result<(FunctionParam, IndexStr<'b>)> {
        read_leaf_in(ctx, input)
    }
}

impl Parse for CvQualifiers {
    ghost row = { Row.cv_qualifiers };

    ghost tree = { tree_of_cv_qualifiers };

    fn parse<'b>(
        _alloc: Global,
        ctx: &mut ParseContext,
        _subs: &mut SubstitutionTable,
        input: IndexStr<'b>,
    ) -> Result<(CvQualifiers, IndexStr<'b>)> {
        read_leaf_in(ctx, input)
    }
}

impl Parse for UnnamedTypeName {
    ghost row = { Row.unnamed_type_name };

    ghost tree = { tree_of_unnamed_type_name };

    fn parse<'b>(
        _alloc: Global,
        ctx: &mut ParseContext,
        _subs: &mut SubstitutionTable,
        input: IndexStr<'b>,
    ) -> Result<(UnnamedTypeName, IndexStr<'b>)> {
        read_leaf_in(ctx, input)
    }
}

impl Parse for ResourceName {
    ghost row = { Row.resource_name };

    ghost tree = { tree_of_resource_name };

    fn parse<'b>(
        _alloc: Global,
        ctx: &mut ParseContext,
        _subs: &mut SubstitutionTable,
        input: IndexStr<'b>,
    ) -> Result<(ResourceName, IndexStr<'b>)> {
        read_leaf_in(ctx, input)
    }
}

impl Parse for Substitution {
    ghost row = { Row.substitution };

    ghost tree = { tree_of_substitution };

    fn parse<'b>(
        _alloc: Global,
        ctx: &mut ParseContext,
        subs: &mut SubstitutionTable,
        input: IndexStr<'b>,
    ) -> Result<(Substitution, IndexStr<'b>)> {
        substitution_in(ctx, subs.len(), input)
    }
}
