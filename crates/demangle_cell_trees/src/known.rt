//! Trees that most names have, which are told at one look.

ghost use Rattle.std.specs.Prelude.{◌≡◌, IfSome, true};
ghost use Rattle.demangle_lines.specs.Known.{IsPlainName, unqualified};
ghost use Rattle.demangle_cell_trees.specs.ArenaTrees.{tree_at};
ghost use Rattle.demangle_cell_trees.specs.Known.{IsIdentifier, IsOfPlace, IsSourceName, a_place};
ghost use Rattle.demangle_cell_trees.specs.NodeTrees.{node_tree};

use crate::cells::kept_at;
use crate::codes::FIRST_INSIDE;
use crate::node::Node;
use crate::values::between;
use demangle_cells::{Arena, Plain, Tag, no_tags_id, qualifiers_id};

/// The bytes of a place.
#[inline(always)]
fn place_bytes<'s>(arena: &Arena, id: u32, input: &'s [u8]) -> Option<&'s [u8]>
    ensures { IfSome result (λ bytes. IsOfPlace a_place input.now (tree_at arena.now id) bytes.now) }
{
    match kept_at(arena, id) {
        Some(Plain::Place(start, stop)) => Some(between(input, start, stop)),
        _ => None,
    }
}

/// The bytes of an identifier.
#[inline(always)]
fn identifier_bytes<'s>(arena: &Arena, id: u32, input: &'s [u8]) -> Option<&'s [u8]>
    ensures { IfSome result (λ bytes. IsIdentifier input.now (tree_at arena.now id) bytes.now) }
{
    match kept_at(arena, id) {
        Some(Plain::One(Tag::Identifier, place)) => place_bytes(arena, place, input),
        _ => None,
    }
}

/// The bytes of a source name.
#[inline(always)]
fn source_bytes<'s>(arena: &Arena, id: u32, input: &'s [u8]) -> Option<&'s [u8]>
    ensures { IfSome result (λ bytes. IsSourceName input.now (tree_at arena.now id) bytes.now) }
{
    match kept_at(arena, id) {
        Some(Plain::One(Tag::SourceName, identifier)) => identifier_bytes(arena, identifier, input),
        _ => None,
    }
}

/// The bytes of an unqualified name that is a source name without tags.
#[inline(always)]
fn name_bytes<'s>(arena: &Arena, id: u32, input: &'s [u8]) -> Option<&'s [u8]>
    ensures { IfSome result (λ bytes. IsPlainName input.now (tree_at arena.now id) bytes.now) }
{
    match kept_at(arena, id) {
        Some(Plain::Two(Tag::UnqualifiedNameSource, source, tags)) => if tags == no_tags_id() {
            source_bytes(arena, source, input)
        } else {
            None
        },
        _ => None,
    }
}

/// The bytes of an unqualified name that is an identifier alone, where it is in cells that are kept.
#[inline(always)]
pub(crate) fn plain_name_of<'s>(node: Node<'_>, input: &'s [u8]) -> Option<&'s [u8]>
    ensures { IfSome result (λ bytes. IsPlainName input.now (node_tree node.entry) bytes.now) }
{
    if node.at < FIRST_INSIDE {
        name_bytes(node.arena, node.at as u32, input)
    } else {
        None
    }
}

/// Whether it is the index of no qualifiers.
#[inline(always)]
fn is_of_no_qualifiers(arena: &Arena, id: u32) -> bool
    ensures { result ≡ true → tree_at arena.now id ≡ unqualified }
{
    id == qualifiers_id(false, false, false)
}

/// Whether it is the constant of no qualifiers.
#[inline(always)]
pub(crate) fn is_unqualified(node: Node<'_>) -> bool
    ensures { result ≡ true → node_tree node.entry ≡ unqualified }
{
    if node.at < FIRST_INSIDE {
        is_of_no_qualifiers(node.arena, node.at as u32)
    } else {
        false
    }
}
