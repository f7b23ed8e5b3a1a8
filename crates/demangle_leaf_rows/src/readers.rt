//! The readers, each in a context. The level, the limit and the flag are as before after every answer.
//!
//! Each reads a row of the grammar, which counts a level, and the levels of the rows in it: where the level that
//! would be entered is the limit, the answer is `TooMuchRecursion`. Each other refusal is the row's. The deepest level
//! that the row enters, in an alternative that is only tried too, raises the context's.

ghost use Rattle.demangle_leaf_nodes.specs.TreeLeaves.{tree_of_abi_tag, tree_of_abi_tags, tree_of_call_offset};
ghost use Rattle.demangle_leaf_nodes.specs.TreeLeaves.{tree_of_clone_suffix, tree_of_clone_type_identifier};
ghost use Rattle.demangle_leaf_nodes.specs.TreeLeaves.{tree_of_cv_qualifiers, tree_of_discriminator};
ghost use Rattle.demangle_leaf_nodes.specs.TreeLeaves.{tree_of_function_param, tree_of_identifier, tree_of_nv_offset};
ghost use Rattle.demangle_leaf_nodes.specs.TreeLeaves.{tree_of_resource_name, tree_of_seq_id, tree_of_signed};
ghost use Rattle.demangle_leaf_nodes.specs.TreeLeaves.{tree_of_source_name, tree_of_template_param};
ghost use Rattle.demangle_leaf_nodes.specs.TreeLeaves.{tree_of_unnamed_type_name, tree_of_v_offset};
ghost use Rattle.demangle_grammar.specs.Rule.{Row};
ghost use Rattle.demangle_leaf_rows.specs.Context.{AnswersInContext, AnswersInContextOrOutOfMemory, Keeps};
ghost use Rattle.demangle_leaf_rows.specs.Deepest.{DeepensLeaf};

use crate::context::ParseContext;
use crate::deepening::{deepening, read_leaf_in};
use crate::lists::{abi_tags, clone_suffix};
use demangle_leaf_nodes::{
    AbiTag, AbiTags, CallOffset, CloneSuffix, CloneTypeIdentifier, CvQualifiers, Discriminator,
    FunctionParam, Identifier, Number, NvOffset, ResourceName, SeqId, SourceName, TemplateParam,
    UnnamedTypeName, VOffset,
};
use demangle_text::{IndexStr, Result};
use std::alloc::Global;

/// A number that may be negative, ABI section 5.1.2, <number>. `n` before the digits is the sign. Leading zeros are
/// `UnexpectedText`, a value past 2^63 - 1 is `Overflow`.
pub fn read_number<'b>(
    ctx: &mut ParseContext,
    input: IndexStr<'b>,
) -> Result<(Number, IndexStr<'b>)>
    ensures reads { AnswersInContext tree_of_signed Row.number ctx.old input.entry result }
    ensures deepest { DeepensLeaf Row.number ctx.old ctx.new input.entry result }
    ensures context { Keeps ctx.old ctx.new }
{
    read_leaf_in(ctx, input)
}

/// The number of a component in base 36, ABI section 5.1.10, <seq-id>. Leading zeros are `UnexpectedText`, a value past
/// 2^63 - 1 is `Overflow`.
pub fn read_seq_id<'b>(ctx: &mut ParseContext, input: IndexStr<'b>) -> Result<(SeqId, IndexStr<'b>)>
    ensures reads { AnswersInContext tree_of_seq_id Row.seq_id ctx.old input.entry result }
    ensures deepest { DeepensLeaf Row.seq_id ctx.old ctx.new input.entry result }
    ensures context { Keeps ctx.old ctx.new }
{
    read_leaf_in(ctx, input)
}

/// A source name, ABI section 5.1.2, <source-name>: a number and just so many bytes of an identifier. A length of 0
/// and bytes that are no identifier's are `UnexpectedText`, fewer bytes `UnexpectedEnd`.
pub fn read_source_name<'b>(
    ctx: &mut ParseContext,
    input: IndexStr<'b>,
) -> Result<(SourceName, IndexStr<'b>)>
    ensures reads { AnswersInContext tree_of_source_name Row.source_name ctx.old input.entry result }
    ensures deepest { DeepensLeaf Row.source_name ctx.old ctx.new input.entry result }
    ensures context { Keeps ctx.old ctx.new }
{
    read_leaf_in(ctx, input)
}

/// An identifier, ABI section 5.1.2, <identifier>: the longest run of ASCII letters, digits, `$`, `_`, `.` and
/// characters past U+007F in UTF-8. Nothing left is `UnexpectedEnd`, an empty run `UnexpectedText`.
pub fn read_identifier<'b>(
    ctx: &mut ParseContext,
    input: IndexStr<'b>,
) -> Result<(Identifier, IndexStr<'b>)>
    ensures reads { AnswersInContext tree_of_identifier Row.identifier ctx.old input.entry result }
    ensures deepest { DeepensLeaf Row.identifier ctx.old ctx.new input.entry result }
    ensures context { Keeps ctx.old ctx.new }
{
    read_leaf_in(ctx, input)
}

/// The type of a clone, behind the first dot of its suffix, as compilers append it: the longest run of ASCII letters,
/// digits, `$` and `_`. Nothing left is `UnexpectedEnd`, an empty run `UnexpectedText`.
pub fn read_clone_type_identifier<'b>(
    ctx: &mut ParseContext,
    input: IndexStr<'b>,
) -> Result<(CloneTypeIdentifier, IndexStr<'b>)>
    ensures reads { AnswersInContext tree_of_clone_type_identifier Row.clone_type_identifier
        ctx.old input.entry result }
    ensures deepest { DeepensLeaf Row.clone_type_identifier ctx.old ctx.new input.entry result }
    ensures context { Keeps ctx.old ctx.new }
{
    read_leaf_in(ctx, input)
}

/// An ABI tag, ABI section 5.1.2, <abi-tag>: `B` and a source name.
pub fn read_abi_tag<'b>(
    ctx: &mut ParseContext,
    input: IndexStr<'b>,
) -> Result<(AbiTag, IndexStr<'b>)>
    ensures reads { AnswersInContext tree_of_abi_tag Row.abi_tag ctx.old input.entry result }
    ensures deepest { DeepensLeaf Row.abi_tag ctx.old ctx.new input.entry result }
    ensures context { Keeps ctx.old ctx.new }
{
    read_leaf_in(ctx, input)
}

/// A fixed offset, ABI section 5.1.4.2, <nv-offset>: a number.
pub fn read_nv_offset<'b>(
    ctx: &mut ParseContext,
    input: IndexStr<'b>,
) -> Result<(NvOffset, IndexStr<'b>)>
    ensures reads { AnswersInContext tree_of_nv_offset Row.nv_offset ctx.old input.entry result }
    ensures deepest { DeepensLeaf Row.nv_offset ctx.old ctx.new input.entry result }
    ensures context { Keeps ctx.old ctx.new }
{
    read_leaf_in(ctx, input)
}

/// A fixed and a virtual offset, ABI section 5.1.4.2, <v-offset>: two numbers with `_` between them.
pub fn read_v_offset<'b>(
    ctx: &mut ParseContext,
    input: IndexStr<'b>,
) -> Result<(VOffset, IndexStr<'b>)>
    ensures reads { AnswersInContext tree_of_v_offset Row.v_offset ctx.old input.entry result }
    ensures deepest { DeepensLeaf Row.v_offset ctx.old ctx.new input.entry result }
    ensures context { Keeps ctx.old ctx.new }
{
    read_leaf_in(ctx, input)
}

/// How a thunk changes `this` or the result, ABI section 5.1.4.2, <call-offset>: `h` and a fixed offset or `v` and a
/// virtual one, and `_`. Nothing left is `UnexpectedEnd`, another first byte `UnexpectedText`.
pub fn read_call_offset<'b>(
    ctx: &mut ParseContext,
    input: IndexStr<'b>,
) -> Result<(CallOffset, IndexStr<'b>)>
    ensures reads { AnswersInContext tree_of_call_offset Row.call_offset ctx.old input.entry result }
    ensures deepest { DeepensLeaf Row.call_offset ctx.old ctx.new input.entry result }
    ensures context { Keeps ctx.old ctx.new }
{
    read_leaf_in(ctx, input)
}

/// What tells local entities of one name apart, ABI section 5.1.7, <discriminator>: `_` and a digit, or `__`, a
/// number and `_`. A number below 10 in the long form is `UnexpectedText`.
pub fn read_discriminator<'b>(
    ctx: &mut ParseContext,
    input: IndexStr<'b>,
) -> Result<(Discriminator, IndexStr<'b>)>
    ensures reads { AnswersInContext tree_of_discriminator Row.discriminator ctx.old input.entry result }
    ensures deepest { DeepensLeaf Row.discriminator ctx.old ctx.new input.entry result }
    ensures context { Keeps ctx.old ctx.new }
{
    read_leaf_in(ctx, input)
}

/// A template parameter by its index, ABI section 5.1.5.8, <template-param>: `T_` is the first, `T0_` the second.
pub fn read_template_param<'b>(
    ctx: &mut ParseContext,
    input: IndexStr<'b>,
) -> Result<(TemplateParam, IndexStr<'b>)>
    ensures reads { AnswersInContext tree_of_template_param Row.template_param ctx.old input.entry result }
    ensures deepest { DeepensLeaf Row.template_param ctx.old ctx.new input.entry result }
    ensures context { Keeps ctx.old ctx.new }
{
    read_leaf_in(ctx, input)
}

/// A function parameter, `this` for none, ABI section 5.1.5.9, <function-param>. `fp_` is the first, `fp0_` the second.
pub fn read_function_param<'b>(
    ctx: &mut ParseContext,
    input: IndexStr<'b>,
) -> Result<(FunctionParam, IndexStr<'b>)>
    ensures reads { AnswersInContext tree_of_function_param Row.function_param ctx.old input.entry result }
    ensures deepest { DeepensLeaf Row.function_param ctx.old ctx.new input.entry result }
    ensures context { Keeps ctx.old ctx.new }
{
    read_leaf_in(ctx, input)
}

/// Qualifiers, of which there may be none, ABI section 5.1.5.1, <CV-qualifiers>. The one refusal is `TooMuchRecursion`.
pub fn read_cv_qualifiers<'b>(
    ctx: &mut ParseContext,
    input: IndexStr<'b>,
) -> Result<(CvQualifiers, IndexStr<'b>)>
    ensures reads { AnswersInContext tree_of_cv_qualifiers Row.cv_qualifiers ctx.old input.entry result }
    ensures deepest { DeepensLeaf Row.cv_qualifiers ctx.old ctx.new input.entry result }
    ensures context { Keeps ctx.old ctx.new }
{
    read_leaf_in(ctx, input)
}

/// The name of an unnamed type, ABI section 5.1.7, <unnamed-type-name>: `Ut`, a number or none, and `_`.
pub fn read_unnamed_type_name<'b>(
    ctx: &mut ParseContext,
    input: IndexStr<'b>,
) -> Result<(UnnamedTypeName, IndexStr<'b>)>
    ensures reads { AnswersInContext tree_of_unnamed_type_name Row.unnamed_type_name ctx.old input.entry result }
    ensures deepest { DeepensLeaf Row.unnamed_type_name ctx.old ctx.new input.entry result }
    ensures context { Keeps ctx.old ctx.new }
{
    read_leaf_in(ctx, input)
}

/// A part of the name of a Java resource, the original's `ResourceName`: the bytes up to the next `$`, and with it
/// one of `$S`, `$_` and `$$`. Nothing left is `UnexpectedEnd`; no byte before the `$`, and another byte behind it or
/// none, are `UnexpectedText`.
pub fn read_resource_name<'b>(
    ctx: &mut ParseContext,
    input: IndexStr<'b>,
) -> Result<(ResourceName, IndexStr<'b>)>
    ensures reads { AnswersInContext tree_of_resource_name Row.resource_name ctx.old input.entry result }
    ensures deepest { DeepensLeaf Row.resource_name ctx.old ctx.new input.entry result }
    ensures context { Keeps ctx.old ctx.new }
{
    read_leaf_in(ctx, input)
}

/// ABI tags one after the other, of which there may be none, ABI section 5.1.2, <abi-tags>. For want of memory the
/// answer is `OutOfMemory`.
pub fn read_abi_tags<'b>(
    alloc: Global,
    ctx: &mut ParseContext,
    input: IndexStr<'b>,
) -> Result<(AbiTags, IndexStr<'b>)>
    ensures reads { AnswersInContextOrOutOfMemory tree_of_abi_tags Row.abi_tags ctx.old input.entry result }
    ensures deepest { DeepensLeaf Row.abi_tags ctx.old ctx.new input.entry result }
    ensures context { Keeps ctx.old ctx.new }
{
    deepening(ctx, |depth| abi_tags(alloc, depth, input))
}

/// The suffix of a clone, as compilers append it: a dot and the type, and then any count of numbers, each with a dot
/// before it. For want of memory the answer is `OutOfMemory`.
pub fn read_clone_suffix<'b>(
    alloc: Global,
    ctx: &mut ParseContext,
    input: IndexStr<'b>,
) -> Result<(CloneSuffix, IndexStr<'b>)>
    ensures reads { AnswersInContextOrOutOfMemory tree_of_clone_suffix Row.clone_suffix ctx.old input.entry result }
    ensures deepest { DeepensLeaf Row.clone_suffix ctx.old ctx.new input.entry result }
    ensures context { Keeps ctx.old ctx.new }
{
    deepening(ctx, |depth| clone_suffix(alloc, depth, input))
}
