//! Whether two nodes of `nodes` have the same parts: functions that call each other as the nodes hold each other.

ghost use Rattle.std.specs.Prelude.{◌≡◌, pos};
ghost use Rattle.std.specs.Ordering.{int_eq};
ghost use Rattle.demangle_core.specs.Core.{same, alike, trees};
ghost use Rattle.demangle_leaf_nodes.specs.TreeLeaves.{parts_of_clone_suffix, parts_of_option, parts_of_resource_name};
ghost use Rattle.demangle_leaf_nodes.specs.TreeLeaves.{tag_of_clone_suffix, tag_of_option, tag_of_resource_name};
ghost use Rattle.demangle_leaf_nodes.specs.TreeLeaves.{tree_of_discriminator, tree_of_option, tree_of_signed};
ghost use Rattle.demangle_nodes.specs.TreeNodes.{boxed_name, parts_of_base_unresolved_name, parts_of_destructor_name};
ghost use Rattle.demangle_nodes.specs.TreeNodes.{parts_of_encoding, parts_of_expr_primary, parts_of_expression};
ghost use Rattle.demangle_nodes.specs.TreeNodes.{parts_of_fold_expr, parts_of_global_ctor_dtor, parts_of_initializer};
ghost use Rattle.demangle_nodes.specs.TreeNodes.{parts_of_local_name, parts_of_mangled_name, parts_of_member_name};
ghost use Rattle.demangle_nodes.specs.TreeNodes.{parts_of_name, parts_of_simple_id, parts_of_special_name};
ghost use Rattle.demangle_nodes.specs.TreeNodes.{parts_of_subobject_expr, parts_of_template_arg};
ghost use Rattle.demangle_nodes.specs.TreeNodes.{parts_of_template_args, parts_of_unresolved_name};
ghost use Rattle.demangle_nodes.specs.TreeNodes.{parts_of_unresolved_qualifier_level, tag_of_base_unresolved_name};
ghost use Rattle.demangle_nodes.specs.TreeNodes.{tag_of_destructor_name, tag_of_encoding, tag_of_expr_primary};
ghost use Rattle.demangle_nodes.specs.TreeNodes.{tag_of_expression, tag_of_fold_expr, tag_of_global_ctor_dtor};
ghost use Rattle.demangle_nodes.specs.TreeNodes.{tag_of_local_name, tag_of_mangled_name, tag_of_name};
ghost use Rattle.demangle_nodes.specs.TreeNodes.{tag_of_special_name, tag_of_template_arg, tag_of_unresolved_name};
ghost use Rattle.demangle_nodes.specs.TreeNodes.{tag_of_unresolved_qualifier_level, tree_of_initializer};
ghost use Rattle.demangle_nodes.specs.TreeNodes.{tree_of_template_args};

use crate::nodes::{
    BaseUnresolvedName, DestructorName, Encoding, ExprPrimary, Expression, FoldExpr,
    GlobalCtorDtor, Initializer, LocalName, MangledName, MemberName, Name, SimpleId, SpecialName,
    SubobjectExpr, TemplateArg, TemplateArgs, UnresolvedName, UnresolvedQualifierLevel,
};
use demangle_leaf_nodes::{CloneSuffix, Discriminator, ResourceName};

#[cycle(same)]
pub(crate) fn same_mangled_name(x: &MangledName, y: &MangledName) -> bool
    ensures { result ≡ alike (tag_of_mangled_name x.now) (tag_of_mangled_name y.now) (same
        (parts_of_mangled_name x.now) (parts_of_mangled_name y.now)) }
{
    match x {
        MangledName::Encoding(a, b) => match y {
            MangledName::Encoding(other_a, other_b) => same_encoding(a, other_a)
                && same_clone_suffixes(b, other_b),
            _ => false,
        },
        MangledName::BlockInvoke(a, b) => match y {
            MangledName::BlockInvoke(other_a, other_b) => same_encoding(a, other_a)
                && same_optional_isize(b, other_b),
            _ => false,
        },
        MangledName::TopLevelType(a) => match y {
            MangledName::TopLevelType(other_a) => a == other_a,
            _ => false,
        },
        MangledName::GlobalCtorDtor(a) => match y {
            MangledName::GlobalCtorDtor(other_a) => same_global_ctor_dtor(a, other_a),
            _ => false,
        },
    }
}

#[cycle(same)]
pub(crate) fn same_encoding(x: &Encoding, y: &Encoding) -> bool
    ensures { result ≡ alike (tag_of_encoding x.now) (tag_of_encoding y.now) (same (parts_of_encoding x.now)
        (parts_of_encoding y.now)) }
{
    match x {
        Encoding::Function(a, b) => match y {
            Encoding::Function(other_a, other_b) => same_name(a, other_a) && b == other_b,
            _ => false,
        },
        Encoding::Data(a) => match y {
            Encoding::Data(other_a) => same_name(a, other_a),
            _ => false,
        },
        Encoding::Special(a) => match y {
            Encoding::Special(other_a) => same_special_name(a, other_a),
            _ => false,
        },
    }
}

#[cycle(same)]
pub(crate) fn same_global_ctor_dtor(x: &GlobalCtorDtor, y: &GlobalCtorDtor) -> bool
    ensures { result ≡ alike (tag_of_global_ctor_dtor x.now) (tag_of_global_ctor_dtor y.now) (same
        (parts_of_global_ctor_dtor x.now) (parts_of_global_ctor_dtor y.now)) }
{
    match x {
        GlobalCtorDtor::Ctor(a) => match y {
            GlobalCtorDtor::Ctor(other_a) => same_mangled_name(a, other_a),
            _ => false,
        },
        GlobalCtorDtor::Dtor(a) => match y {
            GlobalCtorDtor::Dtor(other_a) => same_mangled_name(a, other_a),
            _ => false,
        },
    }
}

#[cycle(same)]
pub(crate) fn same_name(x: &Name, y: &Name) -> bool
    ensures { result ≡ alike (tag_of_name x.now) (tag_of_name y.now) (same (parts_of_name x.now)
        (parts_of_name y.now)) }
{
    match x {
        Name::Nested(a) => match y {
            Name::Nested(other_a) => a == other_a,
            _ => false,
        },
        Name::Unscoped(a) => match y {
            Name::Unscoped(other_a) => a == other_a,
            _ => false,
        },
        Name::UnscopedTemplate(a, b) => match y {
            Name::UnscopedTemplate(other_a, other_b) => a == other_a
                && same_template_args(b, other_b),
            _ => false,
        },
        Name::Local(a) => match y {
            Name::Local(other_a) => same_local_name(a, other_a),
            _ => false,
        },
    }
}

#[cycle(same)]
#[tactic(auto, using(demangle_leaf_nodes::proofs::Same::and_true))]
pub(crate) fn same_template_args(x: &TemplateArgs, y: &TemplateArgs) -> bool
    ensures { result ≡ same (parts_of_template_args x.now) (parts_of_template_args y.now) }
{
    same_argument_list(&x.0, &y.0)
}

#[cycle(same)]
pub(crate) fn same_template_arg(x: &TemplateArg, y: &TemplateArg) -> bool
    ensures { result ≡ alike (tag_of_template_arg x.now) (tag_of_template_arg y.now) (same
        (parts_of_template_arg x.now) (parts_of_template_arg y.now)) }
{
    match x {
        TemplateArg::TypeArg(a) => match y {
            TemplateArg::TypeArg(other_a) => a == other_a,
            _ => false,
        },
        TemplateArg::Expression(a) => match y {
            TemplateArg::Expression(other_a) => same_expression(a, other_a),
            _ => false,
        },
        TemplateArg::SimpleExpression(a) => match y {
            TemplateArg::SimpleExpression(other_a) => same_expr_primary(a, other_a),
            _ => false,
        },
        TemplateArg::ArgPack(a) => match y {
            TemplateArg::ArgPack(other_a) => same_argument_list(a, other_a),
            _ => false,
        },
    }
}

#[cycle(same)]
#[tactic(auto, using(demangle_leaf_nodes::proofs::Same::and_true))]
pub(crate) fn same_member_name(x: &MemberName, y: &MemberName) -> bool
    ensures { result ≡ same (parts_of_member_name x.now) (parts_of_member_name y.now) }
{
    same_name(&x.0, &y.0)
}

#[cycle(same)]
#[tactic(auto, using(demangle_leaf_nodes::proofs::Same::and_true))]
pub(crate) fn same_initializer(x: &Initializer, y: &Initializer) -> bool
    ensures { result ≡ same (parts_of_initializer x.now) (parts_of_initializer y.now) }
{
    same_expressions(&x.0, &y.0)
}

#[cycle(same)]
pub(crate) fn same_expression(x: &Expression, y: &Expression) -> bool
    ensures { result ≡ alike (tag_of_expression x.now) (tag_of_expression y.now) (same (parts_of_expression x.now)
        (parts_of_expression y.now)) }
{
    match x {
        Expression::Unary(a, b) => match y {
            Expression::Unary(other_a, other_b) => a == other_a && same_expression(b, other_b),
            _ => false,
        },
        Expression::Binary(a, b, c) => match y {
            Expression::Binary(other_a, other_b, other_c) => a == other_a
                && (same_expression(b, other_b) && same_expression(c, other_c)),
            _ => false,
        },
        Expression::Ternary(a, b, c, d) => match y {
            Expression::Ternary(other_a, other_b, other_c, other_d) => a == other_a
                && (same_expression(b, other_b)
                    && (same_expression(c, other_c) && same_expression(d, other_d))),
            _ => false,
        },
        Expression::PrefixInc(a) => match y {
            Expression::PrefixInc(other_a) => same_expression(a, other_a),
            _ => false,
        },
        Expression::PrefixDec(a) => match y {
            Expression::PrefixDec(other_a) => same_expression(a, other_a),
            _ => false,
        },
        Expression::Call(a, b) => match y {
            Expression::Call(other_a, other_b) => same_expression(a, other_a)
                && same_expressions(b, other_b),
            _ => false,
        },
        Expression::ConversionOne(a, b) => match y {
            Expression::ConversionOne(other_a, other_b) => a == other_a
                && same_expression(b, other_b),
            _ => false,
        },
        Expression::ConversionMany(a, b) => match y {
            Expression::ConversionMany(other_a, other_b) => a == other_a
                && same_expressions(b, other_b),
            _ => false,
        },
        Expression::ConversionBraced(a, b) => match y {
            Expression::ConversionBraced(other_a, other_b) => a == other_a
                && same_expressions(b, other_b),
            _ => false,
        },
        Expression::BracedInitList(a) => match y {
            Expression::BracedInitList(other_a) => same_expressions(a, other_a),
            _ => false,
        },
        Expression::New(a, b, c) => match y {
            Expression::New(other_a, other_b, other_c) => same_expressions(a, other_a)
                && (b == other_b && same_optional_initializer(c, other_c)),
            _ => false,
        },
        Expression::GlobalNew(a, b, c) => match y {
            Expression::GlobalNew(other_a, other_b, other_c) => same_expressions(a, other_a)
                && (b == other_b && same_optional_initializer(c, other_c)),
            _ => false,
        },
        Expression::NewArray(a, b, c) => match y {
            Expression::NewArray(other_a, other_b, other_c) => same_expressions(a, other_a)
                && (b == other_b && same_optional_initializer(c, other_c)),
            _ => false,
        },
        Expression::GlobalNewArray(a, b, c) => match y {
            Expression::GlobalNewArray(other_a, other_b, other_c) => same_expressions(a, other_a)
                && (b == other_b && same_optional_initializer(c, other_c)),
            _ => false,
        },
        Expression::Delete(a) => match y {
            Expression::Delete(other_a) => same_expression(a, other_a),
            _ => false,
        },
        Expression::GlobalDelete(a) => match y {
            Expression::GlobalDelete(other_a) => same_expression(a, other_a),
            _ => false,
        },
        Expression::DeleteArray(a) => match y {
            Expression::DeleteArray(other_a) => same_expression(a, other_a),
            _ => false,
        },
        Expression::GlobalDeleteArray(a) => match y {
            Expression::GlobalDeleteArray(other_a) => same_expression(a, other_a),
            _ => false,
        },
        Expression::DynamicCast(a, b) => match y {
            Expression::DynamicCast(other_a, other_b) => a == other_a
                && same_expression(b, other_b),
            _ => false,
        },
        Expression::StaticCast(a, b) => match y {
            Expression::StaticCast(other_a, other_b) => a == other_a && same_expression(b, other_b),
            _ => false,
        },
        Expression::ConstCast(a, b) => match y {
            Expression::ConstCast(other_a, other_b) => a == other_a && same_expression(b, other_b),
            _ => false,
        },
        Expression::ReinterpretCast(a, b) => match y {
            Expression::ReinterpretCast(other_a, other_b) => a == other_a
                && same_expression(b, other_b),
            _ => false,
        },
        Expression::TypeidType(a) => match y {
            Expression::TypeidType(other_a) => a == other_a,
            _ => false,
        },
        Expression::TypeidExpr(a) => match y {
            Expression::TypeidExpr(other_a) => same_expression(a, other_a),
            _ => false,
        },
        Expression::SizeofType(a) => match y {
            Expression::SizeofType(other_a) => a == other_a,
            _ => false,
        },
        Expression::SizeofExpr(a) => match y {
            Expression::SizeofExpr(other_a) => same_expression(a, other_a),
            _ => false,
        },
        Expression::AlignofType(a) => match y {
            Expression::AlignofType(other_a) => a == other_a,
            _ => false,
        },
        Expression::AlignofExpr(a) => match y {
            Expression::AlignofExpr(other_a) => same_expression(a, other_a),
            _ => false,
        },
        Expression::Noexcept(a) => match y {
            Expression::Noexcept(other_a) => same_expression(a, other_a),
            _ => false,
        },
        Expression::Subobject(a) => match y {
            Expression::Subobject(other_a) => same_subobject_expr(a, other_a),
            _ => false,
        },
        Expression::TemplateParam(a) => match y {
            Expression::TemplateParam(other_a) => a == other_a,
            _ => false,
        },
        Expression::FunctionParam(a) => match y {
            Expression::FunctionParam(other_a) => a == other_a,
            _ => false,
        },
        Expression::Member(a, b) => match y {
            Expression::Member(other_a, other_b) => same_expression(a, other_a)
                && same_member_name(b, other_b),
            _ => false,
        },
        Expression::DerefMember(a, b) => match y {
            Expression::DerefMember(other_a, other_b) => same_expression(a, other_a)
                && same_member_name(b, other_b),
            _ => false,
        },
        Expression::PointerToMember(a, b) => match y {
            Expression::PointerToMember(other_a, other_b) => same_expression(a, other_a)
                && same_expression(b, other_b),
            _ => false,
        },
        Expression::SizeofTemplatePack(a) => match y {
            Expression::SizeofTemplatePack(other_a) => a == other_a,
            _ => false,
        },
        Expression::SizeofFunctionPack(a) => match y {
            Expression::SizeofFunctionPack(other_a) => a == other_a,
            _ => false,
        },
        Expression::SizeofCapturedTemplatePack(a) => match y {
            Expression::SizeofCapturedTemplatePack(other_a) => same_argument_list(a, other_a),
            _ => false,
        },
        Expression::PackExpansion(a) => match y {
            Expression::PackExpansion(other_a) => same_expression(a, other_a),
            _ => false,
        },
        Expression::Fold(a) => match y {
            Expression::Fold(other_a) => same_fold_expr(a, other_a),
            _ => false,
        },
        Expression::Throw(a) => match y {
            Expression::Throw(other_a) => same_expression(a, other_a),
            _ => false,
        },
        Expression::Rethrow => match y {
            Expression::Rethrow => true,
            _ => false,
        },
        Expression::UnresolvedName(a) => match y {
            Expression::UnresolvedName(other_a) => same_unresolved_name(a, other_a),
            _ => false,
        },
        Expression::Primary(a) => match y {
            Expression::Primary(other_a) => same_expr_primary(a, other_a),
            _ => false,
        },
    }
}

#[cycle(same)]
pub(crate) fn same_unresolved_name(x: &UnresolvedName, y: &UnresolvedName) -> bool
    ensures { result ≡ alike (tag_of_unresolved_name x.now) (tag_of_unresolved_name y.now) (same
        (parts_of_unresolved_name x.now) (parts_of_unresolved_name y.now)) }
{
    match x {
        UnresolvedName::Name(a) => match y {
            UnresolvedName::Name(other_a) => same_base_unresolved_name(a, other_a),
            _ => false,
        },
        UnresolvedName::Global(a) => match y {
            UnresolvedName::Global(other_a) => same_base_unresolved_name(a, other_a),
            _ => false,
        },
        UnresolvedName::Nested1(a, b, c) => match y {
            UnresolvedName::Nested1(other_a, other_b, other_c) => a == other_a
                && (same_qualifier_levels(b, other_b) && same_base_unresolved_name(c, other_c)),
            _ => false,
        },
        UnresolvedName::Nested2(a, b) => match y {
            UnresolvedName::Nested2(other_a, other_b) => same_qualifier_levels(a, other_a)
                && same_base_unresolved_name(b, other_b),
            _ => false,
        },
        UnresolvedName::GlobalNested2(a, b) => match y {
            UnresolvedName::GlobalNested2(other_a, other_b) => same_qualifier_levels(a, other_a)
                && same_base_unresolved_name(b, other_b),
            _ => false,
        },
    }
}

#[cycle(same)]
#[tactic(auto, using(crate::proofs::Parts::parts_unresolved_qualifier_level, demangle_leaf_nodes::proofs::Same::and_true))]
pub(crate) fn same_unresolved_qualifier_level(
    x: &UnresolvedQualifierLevel,
    y: &UnresolvedQualifierLevel,
) -> bool
    ensures { result ≡ same (parts_of_unresolved_qualifier_level x.now) (parts_of_unresolved_qualifier_level y.now) }
{
    same_simple_id(&x.0, &y.0)
}

#[cycle(same)]
#[tactic(auto, using(crate::proofs::Parts::parts_simple_id, demangle_leaf_nodes::proofs::Same::and_true))]
pub(crate) fn same_simple_id(x: &SimpleId, y: &SimpleId) -> bool
    ensures { result ≡ same (parts_of_simple_id x.now) (parts_of_simple_id y.now) }
{
    x.0 == y.0 && same_optional_template_args(&x.1, &y.1)
}

#[cycle(same)]
pub(crate) fn same_base_unresolved_name(x: &BaseUnresolvedName, y: &BaseUnresolvedName) -> bool
    ensures { result ≡ alike (tag_of_base_unresolved_name x.now) (tag_of_base_unresolved_name y.now) (same
        (parts_of_base_unresolved_name x.now) (parts_of_base_unresolved_name y.now)) }
{
    match x {
        BaseUnresolvedName::Name(a) => match y {
            BaseUnresolvedName::Name(other_a) => same_simple_id(a, other_a),
            _ => false,
        },
        BaseUnresolvedName::Operator(a, b) => match y {
            BaseUnresolvedName::Operator(other_a, other_b) => a == other_a
                && same_optional_template_args(b, other_b),
            _ => false,
        },
        BaseUnresolvedName::Destructor(a) => match y {
            BaseUnresolvedName::Destructor(other_a) => same_destructor_name(a, other_a),
            _ => false,
        },
    }
}

#[cycle(same)]
pub(crate) fn same_destructor_name(x: &DestructorName, y: &DestructorName) -> bool
    ensures { result ≡ alike (tag_of_destructor_name x.now) (tag_of_destructor_name y.now) (same
        (parts_of_destructor_name x.now) (parts_of_destructor_name y.now)) }
{
    match x {
        DestructorName::Unresolved(a) => match y {
            DestructorName::Unresolved(other_a) => a == other_a,
            _ => false,
        },
        DestructorName::Name(a) => match y {
            DestructorName::Name(other_a) => same_simple_id(a, other_a),
            _ => false,
        },
    }
}

#[cycle(same)]
#[tactic(auto, using(crate::proofs::Parts::parts_expr_primary, demangle_leaf_nodes::proofs::Same::and_true))]
pub(crate) fn same_expr_primary(x: &ExprPrimary, y: &ExprPrimary) -> bool
    ensures { result ≡ alike (tag_of_expr_primary x.now) (tag_of_expr_primary y.now) (same
        (parts_of_expr_primary x.now) (parts_of_expr_primary y.now)) }
{
    match x {
        ExprPrimary::Literal(a, b, c) => match y {
            ExprPrimary::Literal(other_a, other_b, other_c) => a == other_a
                && (b == other_b && c == other_c),
            _ => false,
        },
        ExprPrimary::External(a) => match y {
            ExprPrimary::External(other_a) => same_mangled_name(a, other_a),
            _ => false,
        },
    }
}

#[cycle(same)]
pub(crate) fn same_local_name(x: &LocalName, y: &LocalName) -> bool
    ensures { result ≡ alike (tag_of_local_name x.now) (tag_of_local_name y.now) (same (parts_of_local_name x.now)
        (parts_of_local_name y.now)) }
{
    match x {
        LocalName::Relative(a, b, c) => match y {
            LocalName::Relative(other_a, other_b, other_c) => same_encoding(a, other_a)
                && (same_optional_name(b, other_b) && same_optional_discriminator(c, other_c)),
            _ => false,
        },
        LocalName::Default(a, b, c) => match y {
            LocalName::Default(other_a, other_b, other_c) => same_encoding(a, other_a)
                && (same_optional_isize(b, other_b) && same_name(c, other_c)),
            _ => false,
        },
    }
}

#[cycle(same)]
#[tactic(auto, using(crate::proofs::Parts::parts_special_name, demangle_leaf_nodes::proofs::Same::and_true))]
pub(crate) fn same_special_name(x: &SpecialName, y: &SpecialName) -> bool
    ensures { result ≡ alike (tag_of_special_name x.now) (tag_of_special_name y.now) (same
        (parts_of_special_name x.now) (parts_of_special_name y.now)) }
{
    match x {
        SpecialName::VirtualTable(a) => match y {
            SpecialName::VirtualTable(other_a) => a == other_a,
            _ => false,
        },
        SpecialName::Vtt(a) => match y {
            SpecialName::Vtt(other_a) => a == other_a,
            _ => false,
        },
        SpecialName::Typeinfo(a) => match y {
            SpecialName::Typeinfo(other_a) => a == other_a,
            _ => false,
        },
        SpecialName::TypeinfoName(a) => match y {
            SpecialName::TypeinfoName(other_a) => a == other_a,
            _ => false,
        },
        SpecialName::VirtualOverrideThunk(a, b) => match y {
            SpecialName::VirtualOverrideThunk(other_a, other_b) => a == other_a
                && same_encoding(b, other_b),
            _ => false,
        },
        SpecialName::VirtualOverrideThunkCovariant(a, b, c) => match y {
            SpecialName::VirtualOverrideThunkCovariant(other_a, other_b, other_c) => a == other_a
                && (b == other_b && same_encoding(c, other_c)),
            _ => false,
        },
        SpecialName::Guard(a) => match y {
            SpecialName::Guard(other_a) => same_name(a, other_a),
            _ => false,
        },
        SpecialName::GuardTemporary(a, b) => match y {
            SpecialName::GuardTemporary(other_a, other_b) => same_name(a, other_a) && b == other_b,
            _ => false,
        },
        SpecialName::ConstructionVtable(a, b, c) => match y {
            SpecialName::ConstructionVtable(other_a, other_b, other_c) => a == other_a
                && (same_usize(b, other_b) && c == other_c),
            _ => false,
        },
        SpecialName::TypeinfoFunction(a) => match y {
            SpecialName::TypeinfoFunction(other_a) => a == other_a,
            _ => false,
        },
        SpecialName::TlsInit(a) => match y {
            SpecialName::TlsInit(other_a) => same_name(a, other_a),
            _ => false,
        },
        SpecialName::TlsWrapper(a) => match y {
            SpecialName::TlsWrapper(other_a) => same_name(a, other_a),
            _ => false,
        },
        SpecialName::JavaResource(a) => match y {
            SpecialName::JavaResource(other_a) => same_resource_names(a, other_a),
            _ => false,
        },
        SpecialName::TransactionClone(a) => match y {
            SpecialName::TransactionClone(other_a) => same_encoding(a, other_a),
            _ => false,
        },
        SpecialName::NonTransactionClone(a) => match y {
            SpecialName::NonTransactionClone(other_a) => same_encoding(a, other_a),
            _ => false,
        },
    }
}

#[cycle(same)]
#[tactic(auto, using(demangle_leaf_nodes::proofs::Same::and_true))]
pub(crate) fn same_subobject_expr(x: &SubobjectExpr, y: &SubobjectExpr) -> bool
    ensures { result ≡ same (parts_of_subobject_expr x.now) (parts_of_subobject_expr y.now) }
{
    x.ty == y.ty && (same_expression(&x.expr, &y.expr) && same_isize(&x.offset, &y.offset))
}

#[cycle(same)]
#[tactic(auto, using(crate::proofs::Parts::parts_fold_expr, demangle_leaf_nodes::proofs::Same::and_true))]
pub(crate) fn same_fold_expr(x: &FoldExpr, y: &FoldExpr) -> bool
    ensures { result ≡ alike (tag_of_fold_expr x.now) (tag_of_fold_expr y.now) (same (parts_of_fold_expr x.now)
        (parts_of_fold_expr y.now)) }
{
    match x {
        FoldExpr::UnaryLeft(a, b) => match y {
            FoldExpr::UnaryLeft(other_a, other_b) => a.number() == other_a.number()
                && same_expression(b, other_b),
            _ => false,
        },
        FoldExpr::UnaryRight(a, b) => match y {
            FoldExpr::UnaryRight(other_a, other_b) => a.number() == other_a.number()
                && same_expression(b, other_b),
            _ => false,
        },
        FoldExpr::BinaryLeft(a, b, c) => match y {
            FoldExpr::BinaryLeft(other_a, other_b, other_c) => a.number() == other_a.number()
                && (same_expression(b, other_b) && same_expression(c, other_c)),
            _ => false,
        },
        FoldExpr::BinaryRight(a, b, c) => match y {
            FoldExpr::BinaryRight(other_a, other_b, other_c) => a.number() == other_a.number()
                && (same_expression(b, other_b) && same_expression(c, other_c)),
            _ => false,
        },
    }
}

#[cycle(same)]
#[tactic(auto, using(demangle_leaf_nodes::proofs::Same::lengths_differ, demangle_leaf_nodes::proofs::Same::and_true))]
fn same_expressions(xs: &[Expression], ys: &[Expression]) -> bool
    ensures { result ≡ same (trees tag_of_expression parts_of_expression xs.now)
        (trees tag_of_expression parts_of_expression ys.now) }
{
    if xs.len() != ys.len() {
        return false;
    }
    for (x, y) in xs.iter().zip(ys) {
        if !same_expression(x, y) {
            return false;
        }
    }
    true
}

#[cycle(same)]
#[tactic(auto, using(demangle_leaf_nodes::proofs::Same::lengths_differ, demangle_leaf_nodes::proofs::Same::and_true))]
fn same_argument_list(xs: &[TemplateArg], ys: &[TemplateArg]) -> bool
    ensures { result ≡ same (trees tag_of_template_arg parts_of_template_arg xs.now)
        (trees tag_of_template_arg parts_of_template_arg ys.now) }
{
    if xs.len() != ys.len() {
        return false;
    }
    for (x, y) in xs.iter().zip(ys) {
        if !same_template_arg(x, y) {
            return false;
        }
    }
    true
}

#[cycle(same)]
#[tactic(auto, using(demangle_leaf_nodes::proofs::Same::lengths_differ, demangle_leaf_nodes::proofs::Same::and_true))]
fn same_qualifier_levels(xs: &[UnresolvedQualifierLevel], ys: &[UnresolvedQualifierLevel]) -> bool
    ensures { result ≡ same (trees tag_of_unresolved_qualifier_level parts_of_unresolved_qualifier_level xs.now)
        (trees tag_of_unresolved_qualifier_level parts_of_unresolved_qualifier_level ys.now) }
{
    if xs.len() != ys.len() {
        return false;
    }
    for (x, y) in xs.iter().zip(ys) {
        if !same_unresolved_qualifier_level(x, y) {
            return false;
        }
    }
    true
}

#[cycle(same)]
#[tactic(auto, using(demangle_leaf_nodes::proofs::Same::and_true))]
fn same_optional_name(x: &Option<Box<Name>>, y: &Option<Box<Name>>) -> bool
    ensures { result ≡ alike (tag_of_option x.now) (tag_of_option y.now) (same (parts_of_option boxed_name x.now)
        (parts_of_option boxed_name y.now)) }
{
    match x {
        Some(a) => match y {
            Some(b) => same_name(a, b),
            None => false,
        },
        None => y.is_none(),
    }
}

#[cycle(same)]
#[tactic(auto, using(demangle_leaf_nodes::proofs::Same::and_true))]
fn same_optional_template_args(x: &Option<TemplateArgs>, y: &Option<TemplateArgs>) -> bool
    ensures { result ≡ alike (tag_of_option x.now) (tag_of_option y.now) (same
        (parts_of_option tree_of_template_args x.now) (parts_of_option tree_of_template_args y.now)) }
{
    match x {
        Some(a) => match y {
            Some(b) => same_template_args(a, b),
            None => false,
        },
        None => y.is_none(),
    }
}

#[cycle(same)]
#[tactic(auto, using(demangle_leaf_nodes::proofs::Same::and_true))]
fn same_optional_initializer(x: &Option<Initializer>, y: &Option<Initializer>) -> bool
    ensures { result ≡ alike (tag_of_option x.now) (tag_of_option y.now) (same
        (parts_of_option tree_of_initializer x.now) (parts_of_option tree_of_initializer y.now)) }
{
    match x {
        Some(a) => match y {
            Some(b) => same_initializer(a, b),
            None => false,
        },
        None => y.is_none(),
    }
}

#[tactic(auto, using(demangle_leaf_nodes::proofs::Same::and_true))]
fn same_optional_isize(x: &Option<isize>, y: &Option<isize>) -> bool
    ensures { result ≡ alike (tag_of_option x.now) (tag_of_option y.now) (same (parts_of_option tree_of_signed x.now)
        (parts_of_option tree_of_signed y.now)) }
{
    match x {
        Some(a) => match y {
            Some(b) => same_isize(a, b),
            None => false,
        },
        None => y.is_none(),
    }
}

/// `==` of an offset as a call, whose promise the proof of a longer test can cite.
fn same_isize(x: &isize, y: &isize) -> bool
    ensures { result ≡ int_eq x.now y.now }
{
    *x == *y
}

/// The same of an index or a length.
#[tactic(auto, using(demangle_leaf_nodes::proofs::Same::naturals))]
fn same_usize(x: &usize, y: &usize) -> bool
    ensures { result ≡ int_eq (pos x.now) (pos y.now) }
{
    *x == *y
}

fn same_clone_suffixes(xs: &[CloneSuffix], ys: &[CloneSuffix]) -> bool
    ensures { result ≡ same (trees tag_of_clone_suffix parts_of_clone_suffix xs.now)
        (trees tag_of_clone_suffix parts_of_clone_suffix ys.now) }
{
    xs == ys
}

fn same_resource_names(xs: &[ResourceName], ys: &[ResourceName]) -> bool
    ensures { result ≡ same (trees tag_of_resource_name parts_of_resource_name xs.now)
        (trees tag_of_resource_name parts_of_resource_name ys.now) }
{
    xs == ys
}

#[tactic(auto, using(demangle_leaf_nodes::proofs::Same::rows))]
fn same_optional_discriminator(x: &Option<Discriminator>, y: &Option<Discriminator>) -> bool
    ensures { result ≡ same (tree_of_option tree_of_discriminator x.now) (tree_of_option tree_of_discriminator y.now) }
{
    x == y
}
