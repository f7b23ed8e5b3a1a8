//! The node types that hold each other.

ghost use Rattle.demangle_cells.specs.Cells.{list_tree};
ghost use Rattle.demangle_cells.specs.View.{view};
ghost use Rattle.demangle_core.specs.Core.{node, trees};
ghost use Rattle.demangle_leaf_nodes.specs.TreeLeaves.{tree_of_option};
ghost use Rattle.demangle_leaves_to_cells.specs.Put.{Put, Waits};
ghost use Rattle.demangle_nodes.specs.TreeNodes.{boxed_name, parts_of_expression, parts_of_template_arg};
ghost use Rattle.demangle_nodes.specs.TreeNodes.{parts_of_unresolved_qualifier_level, tag_of_expression};
ghost use Rattle.demangle_nodes.specs.TreeNodes.{tag_of_template_arg, tag_of_unresolved_qualifier_level};
ghost use Rattle.demangle_nodes.specs.TreeNodes.{tree_of_base_unresolved_name, tree_of_destructor_name};
ghost use Rattle.demangle_nodes.specs.TreeNodes.{tree_of_encoding, tree_of_expr_primary, tree_of_expression};
ghost use Rattle.demangle_nodes.specs.TreeNodes.{tree_of_fold_expr, tree_of_global_ctor_dtor, tree_of_initializer};
ghost use Rattle.demangle_nodes.specs.TreeNodes.{tree_of_local_name, tree_of_mangled_name, tree_of_member_name};
ghost use Rattle.demangle_nodes.specs.TreeNodes.{tree_of_name, tree_of_simple_id, tree_of_special_name};
ghost use Rattle.demangle_nodes.specs.TreeNodes.{tree_of_subobject_expr, tree_of_template_arg};
ghost use Rattle.demangle_nodes.specs.TreeNodes.{tree_of_template_args, tree_of_unresolved_name};
ghost use Rattle.demangle_nodes.specs.TreeNodes.{tree_of_unresolved_qualifier_level};

use demangle_cells::{Arena, ListOf, Tag, absent_id};
use demangle_leaf_nodes::{FunctionParam, TemplateParam};
use demangle_leaves_to_cells::{
    bare_function_type_to, call_offset_to, clone_suffix_list_to, empty, function_param_to, gather,
    nested_name_to, number_to, one, operator_name_to, optional_discriminator_to,
    optional_signed_to, place_to, resource_name_list_to, signed_to, simple_operator_name_to,
    source_name_to, template_param_to, three, two, type_handle_to, unresolved_type_handle_to,
    unscoped_name_to, unscoped_template_name_handle_to, wait,
};
use demangle_nodes::{
    BaseUnresolvedName, DestructorName, Encoding, ExprPrimary, Expression, FoldExpr,
    GlobalCtorDtor, Initializer, LocalName, MangledName, MemberName, Name, SimpleId, SpecialName,
    SubobjectExpr, TemplateArg, TemplateArgs, UnresolvedName, UnresolvedQualifierLevel,
};
use demangle_text::{Error, Result};

/// Puts the node into the arena: the index of its tree. `OutOfMemory` is its only refusal.
#[cycle(nodes)]
pub fn mangled_name_to(arena: &mut Arena, node: &MangledName) -> Result<u32>
    ensures { Put (view arena.old) (view arena.new) result (tree_of_mangled_name node.now) }
{
    match node {
        MangledName::Encoding(first, second) => {
            let first = encoding_to(arena, first);
            let second = clone_suffix_list_to(arena, second, ListOf::Node(Tag::Several));
            two(arena, Tag::MangledNameEncoding, first, second)
        }
        MangledName::BlockInvoke(first, second) => {
            let first = encoding_to(arena, first);
            let second = optional_signed_to(arena, second);
            two(arena, Tag::MangledNameBlockInvoke, first, second)
        }
        MangledName::TopLevelType(first) => {
            let first = type_handle_to(arena, first);
            one(arena, Tag::MangledNameTopLevelType, first)
        }
        MangledName::GlobalCtorDtor(first) => {
            let first = global_ctor_dtor_to(arena, first);
            one(arena, Tag::MangledNameGlobalCtorDtor, first)
        }
    }
}

/// Puts the node into the arena: the index of its tree. `OutOfMemory` is its only refusal.
#[cycle(nodes)]
pub fn encoding_to(arena: &mut Arena, node: &Encoding) -> Result<u32>
    ensures { Put (view arena.old) (view arena.new) result (tree_of_encoding node.now) }
{
    match node {
        Encoding::Function(first, second) => {
            let first = name_to(arena, first);
            let second = bare_function_type_to(arena, second);
            two(arena, Tag::EncodingFunction, first, second)
        }
        Encoding::Data(first) => {
            let first = name_to(arena, first);
            one(arena, Tag::EncodingData, first)
        }
        Encoding::Special(first) => {
            let first = special_name_to(arena, first);
            one(arena, Tag::EncodingSpecial, first)
        }
    }
}

/// Puts the node into the arena: the index of its tree. `OutOfMemory` is its only refusal.
#[cycle(nodes)]
pub fn global_ctor_dtor_to(arena: &mut Arena, node: &GlobalCtorDtor) -> Result<u32>
    ensures { Put (view arena.old) (view arena.new) result (tree_of_global_ctor_dtor node.now) }
{
    match node {
        GlobalCtorDtor::Ctor(first) => {
            let first = mangled_name_to(arena, first);
            one(arena, Tag::GlobalCtorDtorCtor, first)
        }
        GlobalCtorDtor::Dtor(first) => {
            let first = mangled_name_to(arena, first);
            one(arena, Tag::GlobalCtorDtorDtor, first)
        }
    }
}

/// Puts the node into the arena: the index of its tree. `OutOfMemory` is its only refusal.
#[cycle(nodes)]
pub fn name_to(arena: &mut Arena, node: &Name) -> Result<u32>
    ensures { Put (view arena.old) (view arena.new) result (tree_of_name node.now) }
{
    match node {
        Name::Nested(first) => {
            let first = nested_name_to(arena, first);
            one(arena, Tag::NameNested, first)
        }
        Name::Unscoped(first) => {
            let first = unscoped_name_to(arena, first);
            one(arena, Tag::NameUnscoped, first)
        }
        Name::UnscopedTemplate(first, second) => {
            let first = unscoped_template_name_handle_to(arena, first);
            let second = template_args_to(arena, second);
            two(arena, Tag::NameUnscopedTemplate, first, second)
        }
        Name::Local(first) => {
            let first = local_name_to(arena, first);
            one(arena, Tag::NameLocal, first)
        }
    }
}

/// Puts the node into the arena: the index of its tree. `OutOfMemory` is its only refusal.
#[cycle(nodes)]
pub fn template_args_to(arena: &mut Arena, node: &TemplateArgs) -> Result<u32>
    ensures { Put (view arena.old) (view arena.new) result (tree_of_template_args node.now) }
{
    if node.1 > u32::MAX as usize {
        return Err(Error::OutOfMemory);
    }
    template_arg_list_to(arena, &node.0, ListOf::Arguments(node.1 as u32))
}

/// Puts the node into the arena: the index of its tree. `OutOfMemory` is its only refusal.
#[cycle(nodes)]
pub fn template_arg_to(arena: &mut Arena, node: &TemplateArg) -> Result<u32>
    ensures { Put (view arena.old) (view arena.new) result (tree_of_template_arg node.now) }
{
    match node {
        TemplateArg::TypeArg(first) => {
            let first = type_handle_to(arena, first);
            one(arena, Tag::TemplateArgTypeArg, first)
        }
        TemplateArg::Expression(first) => {
            let first = expression_to(arena, first);
            one(arena, Tag::TemplateArgExpression, first)
        }
        TemplateArg::SimpleExpression(first) => {
            let first = expr_primary_to(arena, first);
            one(arena, Tag::TemplateArgSimpleExpression, first)
        }
        TemplateArg::ArgPack(first) => {
            let first = template_arg_list_to(arena, first, ListOf::Node(Tag::Several));
            one(arena, Tag::TemplateArgArgPack, first)
        }
    }
}

/// Puts the node into the arena: the index of its tree. `OutOfMemory` is its only refusal.
#[cycle(nodes)]
pub fn member_name_to(arena: &mut Arena, node: &MemberName) -> Result<u32>
    ensures { Put (view arena.old) (view arena.new) result (tree_of_member_name node.now) }
{
    let first = name_to(arena, &node.0);
    one(arena, Tag::MemberName, first)
}

/// Puts the node into the arena: the index of its tree. `OutOfMemory` is its only refusal.
#[cycle(nodes)]
pub fn initializer_to(arena: &mut Arena, node: &Initializer) -> Result<u32>
    ensures { Put (view arena.old) (view arena.new) result (tree_of_initializer node.now) }
{
    let first = expression_list_to(arena, &node.0, ListOf::Node(Tag::Several));
    one(arena, Tag::Initializer, first)
}

/// Puts the node into the arena: the index of its tree. `OutOfMemory` is its only refusal.
#[cycle(nodes)]
pub fn expression_to(arena: &mut Arena, node: &Expression) -> Result<u32>
    ensures { Put (view arena.old) (view arena.new) result (tree_of_expression node.now) }
{
    match node {
        Expression::Unary(first, second) => {
            let first = operator_name_to(arena, first);
            let second = expression_to(arena, second);
            two(arena, Tag::ExpressionUnary, first, second)
        }
        Expression::Binary(first, second, third) => {
            let first = operator_name_to(arena, first);
            let second = expression_to(arena, second);
            let third = expression_to(arena, third);
            three(arena, Tag::ExpressionBinary, first, second, third)
        }
        Expression::Ternary(first, second, third, fourth) => {
            let from = arena.waiting();
            let first = operator_name_to(arena, first);
            let until_first = wait(arena, Ok(()), first);
            let second = expression_to(arena, second);
            let until_second = wait(arena, until_first, second);
            let third = expression_to(arena, third);
            let until_third = wait(arena, until_second, third);
            let fourth = expression_to(arena, fourth);
            let until_fourth = wait(arena, until_third, fourth);
            gather(
                arena,
                from,
                ListOf::Node(Tag::ExpressionTernary),
                until_fourth,
            )
        }
        Expression::PrefixInc(first) => {
            let first = expression_to(arena, first);
            one(arena, Tag::ExpressionPrefixInc, first)
        }
        Expression::PrefixDec(first) => {
            let first = expression_to(arena, first);
            one(arena, Tag::ExpressionPrefixDec, first)
        }
        Expression::Call(first, second) => {
            let first = expression_to(arena, first);
            let second = expression_list_to(arena, second, ListOf::Node(Tag::Several));
            two(arena, Tag::ExpressionCall, first, second)
        }
        Expression::ConversionOne(first, second) => {
            let first = type_handle_to(arena, first);
            let second = expression_to(arena, second);
            two(arena, Tag::ExpressionConversionOne, first, second)
        }
        Expression::ConversionMany(first, second) => {
            let first = type_handle_to(arena, first);
            let second = expression_list_to(arena, second, ListOf::Node(Tag::Several));
            two(arena, Tag::ExpressionConversionMany, first, second)
        }
        Expression::ConversionBraced(first, second) => {
            let first = type_handle_to(arena, first);
            let second = expression_list_to(arena, second, ListOf::Node(Tag::Several));
            two(arena, Tag::ExpressionConversionBraced, first, second)
        }
        Expression::BracedInitList(first) => {
            let first = expression_list_to(arena, first, ListOf::Node(Tag::Several));
            one(arena, Tag::ExpressionBracedInitList, first)
        }
        Expression::New(first, second, third) => {
            let first = expression_list_to(arena, first, ListOf::Node(Tag::Several));
            let second = type_handle_to(arena, second);
            let third = optional_initializer_to(arena, third);
            three(arena, Tag::ExpressionNew, first, second, third)
        }
        Expression::GlobalNew(first, second, third) => {
            let first = expression_list_to(arena, first, ListOf::Node(Tag::Several));
            let second = type_handle_to(arena, second);
            let third = optional_initializer_to(arena, third);
            three(arena, Tag::ExpressionGlobalNew, first, second, third)
        }
        Expression::NewArray(first, second, third) => {
            let first = expression_list_to(arena, first, ListOf::Node(Tag::Several));
            let second = type_handle_to(arena, second);
            let third = optional_initializer_to(arena, third);
            three(arena, Tag::ExpressionNewArray, first, second, third)
        }
        Expression::GlobalNewArray(first, second, third) => {
            let first = expression_list_to(arena, first, ListOf::Node(Tag::Several));
            let second = type_handle_to(arena, second);
            let third = optional_initializer_to(arena, third);
            three(arena, Tag::ExpressionGlobalNewArray, first, second, third)
        }
        Expression::Delete(first) => {
            let first = expression_to(arena, first);
            one(arena, Tag::ExpressionDelete, first)
        }
        Expression::GlobalDelete(first) => {
            let first = expression_to(arena, first);
            one(arena, Tag::ExpressionGlobalDelete, first)
        }
        Expression::DeleteArray(first) => {
            let first = expression_to(arena, first);
            one(arena, Tag::ExpressionDeleteArray, first)
        }
        Expression::GlobalDeleteArray(first) => {
            let first = expression_to(arena, first);
            one(arena, Tag::ExpressionGlobalDeleteArray, first)
        }
        Expression::DynamicCast(first, second) => {
            let first = type_handle_to(arena, first);
            let second = expression_to(arena, second);
            two(arena, Tag::ExpressionDynamicCast, first, second)
        }
        Expression::StaticCast(first, second) => {
            let first = type_handle_to(arena, first);
            let second = expression_to(arena, second);
            two(arena, Tag::ExpressionStaticCast, first, second)
        }
        Expression::ConstCast(first, second) => {
            let first = type_handle_to(arena, first);
            let second = expression_to(arena, second);
            two(arena, Tag::ExpressionConstCast, first, second)
        }
        Expression::ReinterpretCast(first, second) => {
            let first = type_handle_to(arena, first);
            let second = expression_to(arena, second);
            two(arena, Tag::ExpressionReinterpretCast, first, second)
        }
        Expression::TypeidType(first) => {
            let first = type_handle_to(arena, first);
            one(arena, Tag::ExpressionTypeidType, first)
        }
        Expression::TypeidExpr(first) => {
            let first = expression_to(arena, first);
            one(arena, Tag::ExpressionTypeidExpr, first)
        }
        Expression::SizeofType(first) => {
            let first = type_handle_to(arena, first);
            one(arena, Tag::ExpressionSizeofType, first)
        }
        Expression::SizeofExpr(first) => {
            let first = expression_to(arena, first);
            one(arena, Tag::ExpressionSizeofExpr, first)
        }
        Expression::AlignofType(first) => {
            let first = type_handle_to(arena, first);
            one(arena, Tag::ExpressionAlignofType, first)
        }
        Expression::AlignofExpr(first) => {
            let first = expression_to(arena, first);
            one(arena, Tag::ExpressionAlignofExpr, first)
        }
        Expression::Noexcept(first) => {
            let first = expression_to(arena, first);
            one(arena, Tag::ExpressionNoexcept, first)
        }
        Expression::Subobject(first) => {
            let first = subobject_expr_to(arena, first);
            one(arena, Tag::ExpressionSubobject, first)
        }
        Expression::TemplateParam(first) => {
            let first = template_param_to(arena, first);
            one(arena, Tag::ExpressionTemplateParam, first)
        }
        Expression::FunctionParam(first) => {
            let first = function_param_to(arena, first);
            one(arena, Tag::ExpressionFunctionParam, first)
        }
        Expression::Member(first, second) => {
            let first = expression_to(arena, first);
            let second = member_name_to(arena, second);
            two(arena, Tag::ExpressionMember, first, second)
        }
        Expression::DerefMember(first, second) => {
            let first = expression_to(arena, first);
            let second = member_name_to(arena, second);
            two(arena, Tag::ExpressionDerefMember, first, second)
        }
        Expression::PointerToMember(first, second) => {
            let first = expression_to(arena, first);
            let second = expression_to(arena, second);
            two(arena, Tag::ExpressionPointerToMember, first, second)
        }
        Expression::SizeofTemplatePack(first) => {
            let first = template_param_to(arena, first);
            one(arena, Tag::ExpressionSizeofTemplatePack, first)
        }
        Expression::SizeofFunctionPack(first) => {
            let first = function_param_to(arena, first);
            one(arena, Tag::ExpressionSizeofFunctionPack, first)
        }
        Expression::SizeofCapturedTemplatePack(first) => {
            let first = template_arg_list_to(arena, first, ListOf::Node(Tag::Several));
            one(arena, Tag::ExpressionSizeofCapturedTemplatePack, first)
        }
        Expression::PackExpansion(first) => {
            let first = expression_to(arena, first);
            one(arena, Tag::ExpressionPackExpansion, first)
        }
        Expression::Fold(first) => {
            let first = fold_expr_to(arena, first);
            one(arena, Tag::ExpressionFold, first)
        }
        Expression::Throw(first) => {
            let first = expression_to(arena, first);
            one(arena, Tag::ExpressionThrow, first)
        }
        Expression::Rethrow => empty(arena, Tag::ExpressionRethrow),
        Expression::UnresolvedName(first) => {
            let first = unresolved_name_to(arena, first);
            one(arena, Tag::ExpressionUnresolvedName, first)
        }
        Expression::Primary(first) => {
            let first = expr_primary_to(arena, first);
            one(arena, Tag::ExpressionPrimary, first)
        }
    }
}

/// Puts the node into the arena: the index of its tree. `OutOfMemory` is its only refusal.
#[cycle(nodes)]
pub fn unresolved_name_to(arena: &mut Arena, node: &UnresolvedName) -> Result<u32>
    ensures { Put (view arena.old) (view arena.new) result (tree_of_unresolved_name node.now) }
{
    match node {
        UnresolvedName::Name(first) => {
            let first = base_unresolved_name_to(arena, first);
            one(arena, Tag::UnresolvedNameName, first)
        }
        UnresolvedName::Global(first) => {
            let first = base_unresolved_name_to(arena, first);
            one(arena, Tag::UnresolvedNameGlobal, first)
        }
        UnresolvedName::Nested1(first, second, third) => {
            let first = unresolved_type_handle_to(arena, first);
            let second = unresolved_qualifier_level_list_to(
                arena,
                second,
                ListOf::Node(Tag::Several),
            );
            let third = base_unresolved_name_to(arena, third);
            three(arena, Tag::UnresolvedNameNested1, first, second, third)
        }
        UnresolvedName::Nested2(first, second) => {
            let first = unresolved_qualifier_level_list_to(
                arena,
                first,
                ListOf::Node(Tag::Several),
            );
            let second = base_unresolved_name_to(arena, second);
            two(arena, Tag::UnresolvedNameNested2, first, second)
        }
        UnresolvedName::GlobalNested2(first, second) => {
            let first = unresolved_qualifier_level_list_to(
                arena,
                first,
                ListOf::Node(Tag::Several),
            );
            let second = base_unresolved_name_to(arena, second);
            two(arena, Tag::UnresolvedNameGlobalNested2, first, second)
        }
    }
}

/// Puts the node into the arena: the index of its tree. `OutOfMemory` is its only refusal.
#[cycle(nodes)]
pub fn unresolved_qualifier_level_to(
    arena: &mut Arena,
    node: &UnresolvedQualifierLevel,
) -> Result<u32>
    ensures { Put (view arena.old) (view arena.new) result (tree_of_unresolved_qualifier_level node.now) }
{
    let first = simple_id_to(arena, &node.0);
    one(arena, Tag::UnresolvedQualifierLevel, first)
}

/// Puts the node into the arena: the index of its tree. `OutOfMemory` is its only refusal.
#[cycle(nodes)]
pub fn simple_id_to(arena: &mut Arena, node: &SimpleId) -> Result<u32>
    ensures { Put (view arena.old) (view arena.new) result (tree_of_simple_id node.now) }
{
    let first = source_name_to(arena, &node.0);
    let second = optional_template_args_to(arena, &node.1);
    two(arena, Tag::SimpleId, first, second)
}

/// Puts the node into the arena: the index of its tree. `OutOfMemory` is its only refusal.
#[cycle(nodes)]
pub fn base_unresolved_name_to(arena: &mut Arena, node: &BaseUnresolvedName) -> Result<u32>
    ensures { Put (view arena.old) (view arena.new) result (tree_of_base_unresolved_name node.now) }
{
    match node {
        BaseUnresolvedName::Name(first) => {
            let first = simple_id_to(arena, first);
            one(arena, Tag::BaseUnresolvedNameName, first)
        }
        BaseUnresolvedName::Operator(first, second) => {
            let first = operator_name_to(arena, first);
            let second = optional_template_args_to(arena, second);
            two(arena, Tag::BaseUnresolvedNameOperator, first, second)
        }
        BaseUnresolvedName::Destructor(first) => {
            let first = destructor_name_to(arena, first);
            one(arena, Tag::BaseUnresolvedNameDestructor, first)
        }
    }
}

/// Puts the node into the arena: the index of its tree. `OutOfMemory` is its only refusal.
#[cycle(nodes)]
pub fn destructor_name_to(arena: &mut Arena, node: &DestructorName) -> Result<u32>
    ensures { Put (view arena.old) (view arena.new) result (tree_of_destructor_name node.now) }
{
    match node {
        DestructorName::Unresolved(first) => {
            let first = unresolved_type_handle_to(arena, first);
            one(arena, Tag::DestructorNameUnresolved, first)
        }
        DestructorName::Name(first) => {
            let first = simple_id_to(arena, first);
            one(arena, Tag::DestructorNameName, first)
        }
    }
}

/// Puts the node into the arena: the index of its tree. `OutOfMemory` is its only refusal.
#[cycle(nodes)]
pub fn expr_primary_to(arena: &mut Arena, node: &ExprPrimary) -> Result<u32>
    ensures { Put (view arena.old) (view arena.new) result (tree_of_expr_primary node.now) }
{
    match node {
        ExprPrimary::Literal(first, second, third) => {
            let first = type_handle_to(arena, first);
            let place = place_to(arena, *second, *third);
            two(arena, Tag::ExprPrimaryLiteral, first, place)
        }
        ExprPrimary::External(first) => {
            let first = mangled_name_to(arena, first);
            one(arena, Tag::ExprPrimaryExternal, first)
        }
    }
}

/// Puts the node into the arena: the index of its tree. `OutOfMemory` is its only refusal.
#[cycle(nodes)]
pub fn local_name_to(arena: &mut Arena, node: &LocalName) -> Result<u32>
    ensures { Put (view arena.old) (view arena.new) result (tree_of_local_name node.now) }
{
    match node {
        LocalName::Relative(first, second, third) => {
            let first = encoding_to(arena, first);
            let second = optional_name_to(arena, second);
            let third = optional_discriminator_to(arena, third);
            three(arena, Tag::LocalNameRelative, first, second, third)
        }
        LocalName::Default(first, second, third) => {
            let first = encoding_to(arena, first);
            let second = optional_signed_to(arena, second);
            let third = name_to(arena, third);
            three(arena, Tag::LocalNameDefault, first, second, third)
        }
    }
}

/// Puts the node into the arena: the index of its tree. `OutOfMemory` is its only refusal.
#[cycle(nodes)]
pub fn special_name_to(arena: &mut Arena, node: &SpecialName) -> Result<u32>
    ensures { Put (view arena.old) (view arena.new) result (tree_of_special_name node.now) }
{
    match node {
        SpecialName::VirtualTable(first) => {
            let first = type_handle_to(arena, first);
            one(arena, Tag::SpecialNameVirtualTable, first)
        }
        SpecialName::Vtt(first) => {
            let first = type_handle_to(arena, first);
            one(arena, Tag::SpecialNameVtt, first)
        }
        SpecialName::Typeinfo(first) => {
            let first = type_handle_to(arena, first);
            one(arena, Tag::SpecialNameTypeinfo, first)
        }
        SpecialName::TypeinfoName(first) => {
            let first = type_handle_to(arena, first);
            one(arena, Tag::SpecialNameTypeinfoName, first)
        }
        SpecialName::VirtualOverrideThunk(first, second) => {
            let first = call_offset_to(arena, first);
            let second = encoding_to(arena, second);
            two(arena, Tag::SpecialNameVirtualOverrideThunk, first, second)
        }
        SpecialName::VirtualOverrideThunkCovariant(first, second, third) => {
            let first = call_offset_to(arena, first);
            let second = call_offset_to(arena, second);
            let third = encoding_to(arena, third);
            three(
                arena,
                Tag::SpecialNameVirtualOverrideThunkCovariant,
                first,
                second,
                third,
            )
        }
        SpecialName::Guard(first) => {
            let first = name_to(arena, first);
            one(arena, Tag::SpecialNameGuard, first)
        }
        SpecialName::GuardTemporary(first, second) => {
            let first = name_to(arena, first);
            let second = number_to(arena, *second);
            two(arena, Tag::SpecialNameGuardTemporary, first, second)
        }
        SpecialName::ConstructionVtable(first, second, third) => {
            let first = type_handle_to(arena, first);
            let second = number_to(arena, *second);
            let third = type_handle_to(arena, third);
            three(
                arena,
                Tag::SpecialNameConstructionVtable,
                first,
                second,
                third,
            )
        }
        SpecialName::TypeinfoFunction(first) => {
            let first = type_handle_to(arena, first);
            one(arena, Tag::SpecialNameTypeinfoFunction, first)
        }
        SpecialName::TlsInit(first) => {
            let first = name_to(arena, first);
            one(arena, Tag::SpecialNameTlsInit, first)
        }
        SpecialName::TlsWrapper(first) => {
            let first = name_to(arena, first);
            one(arena, Tag::SpecialNameTlsWrapper, first)
        }
        SpecialName::JavaResource(first) => {
            let first = resource_name_list_to(arena, first, ListOf::Node(Tag::Several));
            one(arena, Tag::SpecialNameJavaResource, first)
        }
        SpecialName::TransactionClone(first) => {
            let first = encoding_to(arena, first);
            one(arena, Tag::SpecialNameTransactionClone, first)
        }
        SpecialName::NonTransactionClone(first) => {
            let first = encoding_to(arena, first);
            one(arena, Tag::SpecialNameNonTransactionClone, first)
        }
    }
}

/// Puts the node into the arena: the index of its tree. `OutOfMemory` is its only refusal.
#[cycle(nodes)]
pub fn subobject_expr_to(arena: &mut Arena, node: &SubobjectExpr) -> Result<u32>
    ensures { Put (view arena.old) (view arena.new) result (tree_of_subobject_expr node.now) }
{
    let ty = type_handle_to(arena, &node.ty);
    let expr = expression_to(arena, &node.expr);
    let offset = signed_to(arena, &node.offset);
    three(arena, Tag::SubobjectExpr, ty, expr, offset)
}

/// Puts the node into the arena: the index of its tree. `OutOfMemory` is its only refusal.
#[cycle(nodes)]
pub fn fold_expr_to(arena: &mut Arena, node: &FoldExpr) -> Result<u32>
    ensures { Put (view arena.old) (view arena.new) result (tree_of_fold_expr node.now) }
{
    match node {
        FoldExpr::UnaryLeft(first, second) => {
            let first = simple_operator_name_to(arena, first);
            let second = expression_to(arena, second);
            two(arena, Tag::FoldExprUnaryLeft, first, second)
        }
        FoldExpr::UnaryRight(first, second) => {
            let first = simple_operator_name_to(arena, first);
            let second = expression_to(arena, second);
            two(arena, Tag::FoldExprUnaryRight, first, second)
        }
        FoldExpr::BinaryLeft(first, second, third) => {
            let first = simple_operator_name_to(arena, first);
            let second = expression_to(arena, second);
            let third = expression_to(arena, third);
            three(arena, Tag::FoldExprBinaryLeft, first, second, third)
        }
        FoldExpr::BinaryRight(first, second, third) => {
            let first = simple_operator_name_to(arena, first);
            let second = expression_to(arena, second);
            let third = expression_to(arena, third);
            three(arena, Tag::FoldExprBinaryRight, first, second, third)
        }
    }
}

/// The same of a part that may not be there.
#[cycle(nodes)]
pub fn optional_template_args_to(arena: &mut Arena, node: &Option<TemplateArgs>) -> Result<u32>
    ensures { Put (view arena.old) (view arena.new) result (tree_of_option tree_of_template_args node.now) }
{
    match node {
        None => Ok(absent_id()),
        Some(part) => {
            let part = template_args_to(arena, part);
            one(arena, Tag::Present, part)
        }
    }
}

/// The same of a part that may not be there.
#[cycle(nodes)]
pub fn optional_initializer_to(arena: &mut Arena, node: &Option<Initializer>) -> Result<u32>
    ensures { Put (view arena.old) (view arena.new) result (tree_of_option tree_of_initializer node.now) }
{
    match node {
        None => Ok(absent_id()),
        Some(part) => {
            let part = initializer_to(arena, part);
            one(arena, Tag::Present, part)
        }
    }
}

/// The same of a part that may not be there.
#[cycle(nodes)]
pub fn optional_name_to(arena: &mut Arena, node: &Option<Box<Name>>) -> Result<u32>
    ensures { Put (view arena.old) (view arena.new) result (tree_of_option boxed_name node.now) }
{
    match node {
        None => Ok(absent_id()),
        Some(part) => {
            let part = name_to(arena, part);
            one(arena, Tag::Present, part)
        }
    }
}

#[cycle(nodes)]
fn wait_template_arg_list(arena: &mut Arena, nodes: &[TemplateArg]) -> Result<()>
    ensures { Waits (view arena.old) (view arena.new) result
        (trees tag_of_template_arg parts_of_template_arg nodes.now) }
{
    for node in nodes {
        let part = template_arg_to(arena, node);
        wait(arena, Ok(()), part)?;
    }
    Ok(())
}

/// Puts the nodes into the arena, one behind the other, and answers what becomes of them. `OutOfMemory` is its only
/// refusal.
#[cycle(nodes)]
pub fn template_arg_list_to(arena: &mut Arena, nodes: &[TemplateArg], list: ListOf) -> Result<u32>
    ensures { Put (view arena.old) (view arena.new) result
        (list_tree list (trees tag_of_template_arg parts_of_template_arg nodes.now)) }
{
    let from = arena.waiting();
    let waited = wait_template_arg_list(arena, nodes);
    gather(arena, from, list, waited)
}

#[cycle(nodes)]
fn wait_expression_list(arena: &mut Arena, nodes: &[Expression]) -> Result<()>
    ensures { Waits (view arena.old) (view arena.new) result (trees tag_of_expression parts_of_expression nodes.now) }
{
    for node in nodes {
        let part = expression_to(arena, node);
        wait(arena, Ok(()), part)?;
    }
    Ok(())
}

/// Puts the nodes into the arena, one behind the other, and answers what becomes of them. `OutOfMemory` is its only
/// refusal.
#[cycle(nodes)]
pub fn expression_list_to(arena: &mut Arena, nodes: &[Expression], list: ListOf) -> Result<u32>
    ensures { Put (view arena.old) (view arena.new) result
        (list_tree list (trees tag_of_expression parts_of_expression nodes.now)) }
{
    let from = arena.waiting();
    let waited = wait_expression_list(arena, nodes);
    gather(arena, from, list, waited)
}

#[cycle(nodes)]
fn wait_unresolved_qualifier_level_list(
    arena: &mut Arena,
    nodes: &[UnresolvedQualifierLevel],
) -> Result<()>
    ensures { Waits (view arena.old) (view arena.new) result
        (trees tag_of_unresolved_qualifier_level parts_of_unresolved_qualifier_level nodes.now) }
{
    for node in nodes {
        let part = unresolved_qualifier_level_to(arena, node);
        wait(arena, Ok(()), part)?;
    }
    Ok(())
}

/// Puts the nodes into the arena, one behind the other, and answers what becomes of them. `OutOfMemory` is its only
/// refusal.
#[cycle(nodes)]
pub fn unresolved_qualifier_level_list_to(
    arena: &mut Arena,
    nodes: &[UnresolvedQualifierLevel],
    list: ListOf,
) -> Result<u32>
    ensures { Put (view arena.old) (view arena.new) result
        (list_tree list (trees tag_of_unresolved_qualifier_level parts_of_unresolved_qualifier_level nodes.now)) }
{
    let from = arena.waiting();
    let waited = wait_unresolved_qualifier_level_list(arena, nodes);
    gather(arena, from, list, waited)
}
