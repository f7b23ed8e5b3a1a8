//! Words of the tables.

ghost use Rattle.demangle_cells.specs.View.{Holds, view};
ghost use Rattle.demangle_core.specs.Core.{Core};
ghost use Rattle.demangle_leaf_nodes.specs.TreeLeaves.{tree_of_explicit_object_parameter, tree_of_ref_qualifier};
ghost use Rattle.demangle_leaf_nodes.specs.TreeLeaves.{tree_of_simple_operator_name, tree_of_standard_builtin_type};
ghost use Rattle.demangle_leaf_nodes.specs.TreeLeaves.{tree_of_well_known_component};
ghost use Rattle.demangle_text.specs.declared.error.Error.TheVariants.{OutOfMemory};
ghost use Rattle.demangle_vocab.specs.Builtins.{number_of_builtin};
ghost use Rattle.demangle_vocab.specs.Components.{number_of_component};
ghost use Rattle.demangle_vocab.specs.Operators.{number_of_operator};
ghost use Rattle.demangle_vocab.specs.Qualifiers.{number_of_explicit_object, number_of_ref_qualifier};
ghost use Rattle.std.specs.Prelude.{IfErr, IfOk, IfSome, ℕ, ◌≡◌};

use demangle_cells::{Arena, Plain};
use demangle_text::{Error, Result};
use demangle_vocab::{
    ExplicitObjectParameter, RefQualifier, SimpleOperatorName, StandardBuiltinType,
    WellKnownComponent,
};

// The word of this number.
fn simple_operator_name_of(word: u8) -> Option<SimpleOperatorName>
    ensures { IfSome result (λ n. number_of_operator n ≡ word) }
{
    match word {
        0 => Some(SimpleOperatorName::New),
        1 => Some(SimpleOperatorName::NewArray),
        2 => Some(SimpleOperatorName::Delete),
        3 => Some(SimpleOperatorName::DeleteArray),
        4 => Some(SimpleOperatorName::UnaryPlus),
        5 => Some(SimpleOperatorName::Neg),
        6 => Some(SimpleOperatorName::AddressOf),
        7 => Some(SimpleOperatorName::Deref),
        8 => Some(SimpleOperatorName::BitNot),
        9 => Some(SimpleOperatorName::Add),
        10 => Some(SimpleOperatorName::Sub),
        11 => Some(SimpleOperatorName::Mul),
        12 => Some(SimpleOperatorName::Div),
        13 => Some(SimpleOperatorName::Rem),
        14 => Some(SimpleOperatorName::BitAnd),
        15 => Some(SimpleOperatorName::BitOr),
        16 => Some(SimpleOperatorName::BitXor),
        17 => Some(SimpleOperatorName::Assign),
        18 => Some(SimpleOperatorName::AddAssign),
        19 => Some(SimpleOperatorName::SubAssign),
        20 => Some(SimpleOperatorName::MulAssign),
        21 => Some(SimpleOperatorName::DivAssign),
        22 => Some(SimpleOperatorName::RemAssign),
        23 => Some(SimpleOperatorName::BitAndAssign),
        24 => Some(SimpleOperatorName::BitOrAssign),
        25 => Some(SimpleOperatorName::BitXorAssign),
        26 => Some(SimpleOperatorName::Shl),
        27 => Some(SimpleOperatorName::Shr),
        28 => Some(SimpleOperatorName::ShlAssign),
        29 => Some(SimpleOperatorName::ShrAssign),
        _ => simple_operator_name_behind(word),
    }
}

// The word of this number, from 30 on.
fn simple_operator_name_behind(word: u8) -> Option<SimpleOperatorName>
    ensures { IfSome result (λ n. number_of_operator n ≡ word) }
{
    match word {
        30 => Some(SimpleOperatorName::Eq),
        31 => Some(SimpleOperatorName::Ne),
        32 => Some(SimpleOperatorName::Less),
        33 => Some(SimpleOperatorName::Greater),
        34 => Some(SimpleOperatorName::LessEq),
        35 => Some(SimpleOperatorName::GreaterEq),
        36 => Some(SimpleOperatorName::Not),
        37 => Some(SimpleOperatorName::LogicalAnd),
        38 => Some(SimpleOperatorName::LogicalOr),
        39 => Some(SimpleOperatorName::PostInc),
        40 => Some(SimpleOperatorName::PostDec),
        41 => Some(SimpleOperatorName::Comma),
        42 => Some(SimpleOperatorName::DerefMemberPtr),
        43 => Some(SimpleOperatorName::DerefMember),
        44 => Some(SimpleOperatorName::Call),
        45 => Some(SimpleOperatorName::Index),
        46 => Some(SimpleOperatorName::Question),
        47 => Some(SimpleOperatorName::Spaceship),
        _ => None,
    }
}

/// A `SimpleOperatorName`. Another cell is refused as `OutOfMemory`, the only refusal.
pub fn simple_operator_name_from(arena: &Arena, id: u32) -> Result<SimpleOperatorName>
    ensures made { IfOk result (λ n. (F : ℕ → Core) → Holds F (view arena.now)
        → F id ≡ tree_of_simple_operator_name n) }
    ensures refused { IfErr result (λ e. e ≡ OutOfMemory) }
{
    match arena.cell(id) {
        Some(Plain::Word(0, word)) => match simple_operator_name_of(word) {
            Some(found) => Ok(found),
            None => Err(Error::OutOfMemory),
        },
        _ => Err(Error::OutOfMemory),
    }
}

// The word of this number.
fn standard_builtin_type_of(word: u8) -> Option<StandardBuiltinType>
    ensures { IfSome result (λ n. number_of_builtin n ≡ word) }
{
    match word {
        0 => Some(StandardBuiltinType::Void),
        1 => Some(StandardBuiltinType::Wchar),
        2 => Some(StandardBuiltinType::Bool),
        3 => Some(StandardBuiltinType::Char),
        4 => Some(StandardBuiltinType::SignedChar),
        5 => Some(StandardBuiltinType::UnsignedChar),
        6 => Some(StandardBuiltinType::Short),
        7 => Some(StandardBuiltinType::UnsignedShort),
        8 => Some(StandardBuiltinType::Int),
        9 => Some(StandardBuiltinType::UnsignedInt),
        10 => Some(StandardBuiltinType::Long),
        11 => Some(StandardBuiltinType::UnsignedLong),
        12 => Some(StandardBuiltinType::LongLong),
        13 => Some(StandardBuiltinType::UnsignedLongLong),
        14 => Some(StandardBuiltinType::Int128),
        15 => Some(StandardBuiltinType::Uint128),
        16 => Some(StandardBuiltinType::Float),
        17 => Some(StandardBuiltinType::Double),
        18 => Some(StandardBuiltinType::LongDouble),
        19 => Some(StandardBuiltinType::Float128),
        20 => Some(StandardBuiltinType::Ellipsis),
        21 => Some(StandardBuiltinType::DecimalFloat64),
        22 => Some(StandardBuiltinType::DecimalFloat128),
        23 => Some(StandardBuiltinType::DecimalFloat32),
        24 => Some(StandardBuiltinType::DecimalFloat16),
        25 => Some(StandardBuiltinType::BFloat16),
        26 => Some(StandardBuiltinType::Char32),
        27 => Some(StandardBuiltinType::Char16),
        28 => Some(StandardBuiltinType::Char8),
        29 => Some(StandardBuiltinType::Auto),
        _ => standard_builtin_type_behind(word),
    }
}

// The word of this number, from 30 on.
fn standard_builtin_type_behind(word: u8) -> Option<StandardBuiltinType>
    ensures { IfSome result (λ n. number_of_builtin n ≡ word) }
{
    match word {
        30 => Some(StandardBuiltinType::Decltype),
        31 => Some(StandardBuiltinType::Nullptr),
        32 => Some(StandardBuiltinType::AccumShort),
        33 => Some(StandardBuiltinType::AccumUShort),
        34 => Some(StandardBuiltinType::Accum),
        35 => Some(StandardBuiltinType::AccumUnsigned),
        36 => Some(StandardBuiltinType::AccumLong),
        37 => Some(StandardBuiltinType::AccumULong),
        38 => Some(StandardBuiltinType::FractShort),
        39 => Some(StandardBuiltinType::FractUShort),
        40 => Some(StandardBuiltinType::Fract),
        41 => Some(StandardBuiltinType::FractUnsigned),
        42 => Some(StandardBuiltinType::FractLong),
        43 => Some(StandardBuiltinType::FractULong),
        44 => Some(StandardBuiltinType::SatAccumShort),
        45 => Some(StandardBuiltinType::SatAccumUShort),
        46 => Some(StandardBuiltinType::SatAccum),
        47 => Some(StandardBuiltinType::SatAccumUnsigned),
        48 => Some(StandardBuiltinType::SatAccumLong),
        49 => Some(StandardBuiltinType::SatAccumULong),
        50 => Some(StandardBuiltinType::SatFractShort),
        51 => Some(StandardBuiltinType::SatFractUShort),
        52 => Some(StandardBuiltinType::SatFract),
        53 => Some(StandardBuiltinType::SatFractUnsigned),
        54 => Some(StandardBuiltinType::SatFractLong),
        55 => Some(StandardBuiltinType::SatFractULong),
        _ => None,
    }
}

/// A `StandardBuiltinType`. Another cell is refused as `OutOfMemory`, the only refusal.
pub fn standard_builtin_type_from(arena: &Arena, id: u32) -> Result<StandardBuiltinType>
    ensures made { IfOk result (λ n. (F : ℕ → Core) → Holds F (view arena.now)
        → F id ≡ tree_of_standard_builtin_type n) }
    ensures refused { IfErr result (λ e. e ≡ OutOfMemory) }
{
    match arena.cell(id) {
        Some(Plain::Word(1, word)) => match standard_builtin_type_of(word) {
            Some(found) => Ok(found),
            None => Err(Error::OutOfMemory),
        },
        _ => Err(Error::OutOfMemory),
    }
}

// The word of this number.
fn well_known_component_of(word: u8) -> Option<WellKnownComponent>
    ensures { IfSome result (λ n. number_of_component n ≡ word) }
{
    match word {
        0 => Some(WellKnownComponent::Std),
        1 => Some(WellKnownComponent::StdAllocator),
        2 => Some(WellKnownComponent::StdString1),
        3 => Some(WellKnownComponent::StdString2),
        4 => Some(WellKnownComponent::StdIstream),
        5 => Some(WellKnownComponent::StdOstream),
        6 => Some(WellKnownComponent::StdIostream),
        _ => None,
    }
}

/// A `WellKnownComponent`. Another cell is refused as `OutOfMemory`, the only refusal.
pub fn well_known_component_from(arena: &Arena, id: u32) -> Result<WellKnownComponent>
    ensures made { IfOk result (λ n. (F : ℕ → Core) → Holds F (view arena.now)
        → F id ≡ tree_of_well_known_component n) }
    ensures refused { IfErr result (λ e. e ≡ OutOfMemory) }
{
    match arena.cell(id) {
        Some(Plain::Word(2, word)) => match well_known_component_of(word) {
            Some(found) => Ok(found),
            None => Err(Error::OutOfMemory),
        },
        _ => Err(Error::OutOfMemory),
    }
}

// The word of this number.
fn ref_qualifier_of(word: u8) -> Option<RefQualifier>
    ensures { IfSome result (λ n. number_of_ref_qualifier n ≡ word) }
{
    match word {
        0 => Some(RefQualifier::LValueRef),
        1 => Some(RefQualifier::RValueRef),
        _ => None,
    }
}

/// A `RefQualifier`. Another cell is refused as `OutOfMemory`, the only refusal.
pub fn ref_qualifier_from(arena: &Arena, id: u32) -> Result<RefQualifier>
    ensures made { IfOk result (λ n. (F : ℕ → Core) → Holds F (view arena.now) → F id ≡ tree_of_ref_qualifier n) }
    ensures refused { IfErr result (λ e. e ≡ OutOfMemory) }
{
    match arena.cell(id) {
        Some(Plain::Word(3, word)) => match ref_qualifier_of(word) {
            Some(found) => Ok(found),
            None => Err(Error::OutOfMemory),
        },
        _ => Err(Error::OutOfMemory),
    }
}

// The word of this number.
fn explicit_object_parameter_of(word: u8) -> Option<ExplicitObjectParameter>
    ensures { IfSome result (λ n. number_of_explicit_object n ≡ word) }
{
    match word {
        0 => Some(ExplicitObjectParameter::ExplicitObjectParameter),
        _ => None,
    }
}

/// An `ExplicitObjectParameter`. Another cell is refused as `OutOfMemory`, the only refusal.
pub fn explicit_object_parameter_from(arena: &Arena, id: u32) -> Result<ExplicitObjectParameter>
    ensures made { IfOk result (λ n. (F : ℕ → Core) → Holds F (view arena.now)
        → F id ≡ tree_of_explicit_object_parameter n) }
    ensures refused { IfErr result (λ e. e ≡ OutOfMemory) }
{
    match arena.cell(id) {
        Some(Plain::Word(4, word)) => match explicit_object_parameter_of(word) {
            Some(found) => Ok(found),
            None => Err(Error::OutOfMemory),
        },
        _ => Err(Error::OutOfMemory),
    }
}
