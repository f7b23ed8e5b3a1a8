//! Names, and what stands beside them.

ghost use Rattle.demangle_leaf_nodes.specs.TreeLeaves.{tree_of_identifier, tree_of_clone_type_identifier};
ghost use Rattle.demangle_leaf_nodes.specs.TreeLeaves.{tree_of_source_name, tree_of_abi_tag};
ghost use Rattle.demangle_leaf_nodes.specs.TreeLeaves.{tree_of_unnamed_type_name, tree_of_resource_name};
ghost use Rattle.std.specs.Prelude.{◌≡◌};
ghost use Rattle.demangle_text.specs.Spot.{spot};
ghost use Rattle.demangle_grammar.specs.Rule.{Row};

use crate::bytes::{NameClass, identifier_at};
use crate::depth::Depth;
use crate::read_leaf::ReadLeaf;
use demangle_leaf_nodes::{
    AbiTag, CloneTypeIdentifier, Identifier, ResourceName, SourceName, UnnamedTypeName,
};
use demangle_text::{Error, IndexStr, Result, consume, parse_unsigned};

/// The longest run of characters of an identifier. ABI section 5.1.2.
///
/// ```text
/// <identifier> ::= <unqualified source code identifier>
/// ```
impl ReadLeaf for Identifier {
    ghost leaf_row = { Row.identifier };

    ghost leaf_tree = { tree_of_identifier };

    #[inline(always)]
    #[tactic(auto, unfolding(demangle_grammar::specs::Code::cread, demangle_grammar::specs::Rows::rule))]
    fn read_leaf<'b>(depth: Depth, input: IndexStr<'b>) -> Result<(Identifier, IndexStr<'b>)> {
        let _depth = depth.enter()?;
        let (start, rest) = identifier_at(input)?;
        let name = Identifier {
            start,
            end: rest.index(),
        };
        Ok((name, rest))
    }
}

/// The word behind the first dot of a clone's suffix. An addition of compilers.
///
/// ```text
/// <clone-type-identifier> ::= <unqualified source code identifier>
/// ```
impl ReadLeaf for CloneTypeIdentifier {
    ghost leaf_row = { Row.clone_type_identifier };

    ghost leaf_tree = { tree_of_clone_type_identifier };

    #[tactic(auto, unfolding(demangle_grammar::specs::Code::cread, demangle_grammar::specs::Rows::rule))]
    fn read_leaf<'b>(
        depth: Depth,
        input: IndexStr<'b>,
    ) -> Result<(CloneTypeIdentifier, IndexStr<'b>)> {
        let _depth = depth.enter()?;
        let (start, rest) = NameClass::CloneType.name_at(input)?;
        let name = CloneTypeIdentifier {
            start,
            end: rest.index(),
        };
        Ok((name, rest))
    }
}

/// A length that is not 0, and an identifier that takes just so many bytes. ABI section 5.1.2.
///
/// ```text
/// <source-name> ::= <positive length number> <identifier>
/// ```
impl ReadLeaf for SourceName {
    ghost leaf_row = { Row.source_name };

    ghost leaf_tree = { tree_of_source_name };

    #[inline(always)]
    #[tactic(auto, using(crate::proofs::Indexes::indexes), unfolding(demangle_grammar::specs::Code::cread, demangle_grammar::specs::Rows::rule))]
    fn read_leaf<'b>(depth: Depth, input: IndexStr<'b>) -> Result<(SourceName, IndexStr<'b>)> {
        let depth = depth.enter()?;
        let (length, rest) = parse_unsigned(10, input)?;
        if length == 0 {
            return Err(Error::UnexpectedText);
        }
        if rest.len() < length {
            return Err(Error::UnexpectedEnd);
        }
        let (inner, rest) = rest.split_at(length);
        let (name, end) = Identifier::read_leaf(depth, inner)?;
        if !end.is_empty() {
            return Err(Error::UnexpectedText);
        }
        Ok((SourceName(name), rest))
    }
}

/// One ABI tag. ABI section 5.1.2.
///
/// ```text
/// <abi-tag> ::= B <source-name>
/// ```
impl ReadLeaf for AbiTag {
    ghost leaf_row = { Row.abi_tag };

    ghost leaf_tree = { tree_of_abi_tag };

    #[inline(always)]
    #[tactic(auto, unfolding(demangle_grammar::specs::Code::cread, demangle_grammar::specs::Rows::rule))]
    fn read_leaf<'b>(depth: Depth, input: IndexStr<'b>) -> Result<(AbiTag, IndexStr<'b>)> {
        let depth = depth.enter()?;
        let rest = consume(b"B", input)?;
        let (name, rest) = SourceName::read_leaf(depth, rest)?;
        Ok((AbiTag(name), rest))
    }
}

/// A type without a name. ABI section 5.1.7.
///
/// ```text
/// <unnamed-type-name> ::= Ut [<non-negative number>] _
/// ```
impl ReadLeaf for UnnamedTypeName {
    ghost leaf_row = { Row.unnamed_type_name };

    ghost leaf_tree = { tree_of_unnamed_type_name };

    #[tactic(auto, unfolding(demangle_grammar::specs::Code::cread, demangle_grammar::specs::Rows::rule))]
    fn read_leaf<'b>(depth: Depth, input: IndexStr<'b>) -> Result<(UnnamedTypeName, IndexStr<'b>)> {
        let _depth = depth.enter()?;
        let rest = consume(b"Ut", input)?;
        let (number, rest) = match parse_unsigned(10, rest) {
            Ok((number, rest)) => (Some(number), rest),
            Err(_) => (None, rest),
        };
        let rest = consume(b"_", rest)?;
        Ok((UnnamedTypeName(number), rest))
    }
}

/// One component of a Java resource. An addition of compilers.
///
/// ```text
/// <resource-name> ::= <bytes without $> [$S | $_ | $$]
/// ```
impl ReadLeaf for ResourceName {
    ghost leaf_row = { Row.resource_name };

    ghost leaf_tree = { tree_of_resource_name };

    #[tactic(auto, unfolding(demangle_grammar::specs::Code::cread, demangle_grammar::specs::Rows::rule))]
    fn read_leaf<'b>(depth: Depth, input: IndexStr<'b>) -> Result<(ResourceName, IndexStr<'b>)> {
        let _depth = depth.enter()?;
        if input.is_empty() {
            return Err(Error::UnexpectedEnd);
        }
        let (start, rest) = NameClass::Resource.name_at(input)?;
        let Ok(escape) = consume(b"$", rest) else {
            return Ok(resource_name(start, rest));
        };
        if let Ok(rest) = consume(b"S", escape) {
            return Ok(resource_name(start, rest));
        }
        if let Ok(rest) = consume(b"_", escape) {
            return Ok(resource_name(start, rest));
        }
        if let Ok(rest) = consume(b"$", escape) {
            return Ok(resource_name(start, rest));
        }
        Err(Error::UnexpectedText)
    }
}

/// The part of a resource's name up to the rest, and the rest.
fn resource_name<'b>(start: usize, rest: IndexStr<'b>) -> (ResourceName, IndexStr<'b>)
    ensures start { result.0.start ≡ start }
    ensures end { result.0.end ≡ (spot rest.entry).index }
    ensures rest { spot result.1 ≡ spot rest.entry }
{
    let name = ResourceName {
        start,
        end: rest.index(),
    };
    (name, rest)
}
