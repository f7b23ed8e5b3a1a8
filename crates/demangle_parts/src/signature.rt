//! What the tree of a name says of its parts.

ghost use Rattle.std.specs.Prelude.{◌≡◌, is_some, map};
ghost use Rattle.demangle_core.specs.Lookups.{as_prefix, template_args};
ghost use Rattle.demangle_leaf_nodes.specs.TreeLeaves.{tree_of_builtin_type, tree_of_type_handle};
ghost use Rattle.demangle_nodes.specs.TreeNodes.{tree_of_encoding, tree_of_mangled_name, tree_of_name};
ghost use Rattle.demangle_table.specs.TableOf.{table_of};
ghost use Rattle.demangle_parts.specs.Parts.{are_void, count, is_local, is_void, is_void_builtin, of_encoding};
ghost use Rattle.demangle_parts.specs.Parts.{signature_of, whole, without_result};

use crate::kind::Kind;
use demangle_tree::{
    BuiltinType, Encoding, GetTemplateArgs, MangledName, Name, SubstitutionTable, TypeHandle,
};
use demangle_vocab::StandardBuiltinType;

/// The kind of a name, whether it may have a scope, and how many parameters it has, where it is that of a function.
#[derive(Clone, Copy)]
pub(crate) struct Signature {
    pub(crate) kind: Kind,
    pub(crate) has_parts: bool,
    pub(crate) arity: Option<usize>,
}

/// A name of this kind, which has no scope and no parameters.
fn whole(kind: Kind) -> Signature
    ensures { result ≡ whole kind }
{
    Signature {
        kind,
        has_parts: false,
        arity: None,
    }
}

fn is_local(name: &Name) -> bool
    ensures { result ≡ is_local (tree_of_name name.now) }
{
    match name {
        Name::Local(_) => true,
        _ => false,
    }
}

fn has_args(name: &Name, subs: &SubstitutionTable) -> bool
    ensures { result ≡ is_some (template_args as_prefix (table_of subs.now) (tree_of_name name.now)) }
{
    match name.get_template_args(subs) {
        None => false,
        Some(_) => true,
    }
}

fn is_void_builtin(builtin: &BuiltinType) -> bool
    ensures { result ≡ is_void_builtin (tree_of_builtin_type builtin.now) }
{
    match builtin {
        BuiltinType::Standard(word) => match word {
            StandardBuiltinType::Void => true,
            _ => false,
        },
        _ => false,
    }
}

fn is_void(ty: &TypeHandle) -> bool
    ensures { result ≡ is_void (tree_of_type_handle ty.now) }
{
    match ty {
        TypeHandle::Builtin(builtin) => is_void_builtin(builtin),
        _ => false,
    }
}

/// Whether the types are `void` alone.
fn are_void(types: &[TypeHandle]) -> bool
    ensures { result ≡ are_void (map tree_of_type_handle types.now) }
{
    match types {
        [ty] => is_void(ty),
        _ => false,
    }
}

/// The first of the types is the result, where the name has template arguments.
fn without_result(has_result: bool, types: &[TypeHandle]) -> &[TypeHandle]
    ensures { result.now ≡ without_result has_result types.now }
{
    if !has_result {
        return types;
    }
    match types {
        [_, parameters @ ..] => parameters,
        _ => types,
    }
}

/// How many of the types of a function are parameters.
fn count(has_result: bool, types: &[TypeHandle]) -> usize
    ensures { result ≡ count (without_result has_result (map tree_of_type_handle types.now)) }
{
    let parameters = without_result(has_result, types);
    if are_void(parameters) {
        0
    } else {
        parameters.len()
    }
}

fn of_encoding(encoding: &Encoding, subs: &SubstitutionTable) -> Signature
    ensures { result ≡ of_encoding (table_of subs.now) (tree_of_encoding encoding.now) }
{
    match encoding {
        Encoding::Function(name, types) => Signature {
            kind: Kind::Function,
            has_parts: !is_local(name),
            arity: Some(count(has_args(name, subs), types.0.as_slice())),
        },
        Encoding::Data(name) => Signature {
            kind: Kind::Data,
            has_parts: !is_local(name),
            arity: None,
        },
        Encoding::Special(_) => whole(Kind::Special),
    }
}

/// What the tree of a name says, with its table of components.
pub(crate) fn signature_of(name: &MangledName, subs: &SubstitutionTable) -> Signature
    ensures { result ≡ signature_of (table_of subs.now) (tree_of_mangled_name name.now) }
{
    match name {
        MangledName::Encoding(encoding, _) => of_encoding(encoding, subs),
        MangledName::BlockInvoke(_, _) => whole(Kind::Block),
        MangledName::TopLevelType(_) => whole(Kind::TopType),
        MangledName::GlobalCtorDtor(_) => whole(Kind::Keyed),
    }
}
