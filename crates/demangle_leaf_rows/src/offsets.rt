//! Offsets of thunks.

ghost use Rattle.demangle_leaf_nodes.specs.TreeLeaves.{tree_of_nv_offset, tree_of_v_offset, tree_of_call_offset};
ghost use Rattle.demangle_grammar.specs.Rule.{Row};

use crate::depth::Depth;
use crate::read_leaf::ReadLeaf;
use demangle_leaf_nodes::{CallOffset, Number, NvOffset, VOffset};
use demangle_text::{Error, IndexStr, Result, consume};

/// A fixed offset of a thunk. ABI section 5.1.4.2.
///
/// ```text
/// <nv-offset> ::= <offset number>
/// ```
impl ReadLeaf for NvOffset {
    ghost leaf_row = { Row.nv_offset };

    ghost leaf_tree = { tree_of_nv_offset };

    #[tactic(auto, unfolding(demangle_grammar::specs::Code::cread, demangle_grammar::specs::Rows::rule))]
    fn read_leaf<'b>(depth: Depth, input: IndexStr<'b>) -> Result<(NvOffset, IndexStr<'b>)> {
        let depth = depth.enter()?;
        let (offset, rest) = Number::read_leaf(depth, input)?;
        Ok((NvOffset(offset), rest))
    }
}

/// A fixed and a virtual offset of a thunk. ABI section 5.1.4.2.
///
/// ```text
/// <v-offset> ::= <offset number> _ <virtual offset number>
/// ```
impl ReadLeaf for VOffset {
    ghost leaf_row = { Row.v_offset };

    ghost leaf_tree = { tree_of_v_offset };

    #[tactic(auto, unfolding(demangle_grammar::specs::Code::cread, demangle_grammar::specs::Rows::rule))]
    fn read_leaf<'b>(depth: Depth, input: IndexStr<'b>) -> Result<(VOffset, IndexStr<'b>)> {
        let depth = depth.enter()?;
        let (offset, rest) = Number::read_leaf(depth, input)?;
        let rest = consume(b"_", rest)?;
        let (virtual_offset, rest) = Number::read_leaf(depth, rest)?;
        Ok((VOffset(offset, virtual_offset), rest))
    }
}

/// How a thunk changes `this` or the result. ABI section 5.1.4.2.
///
/// ```text
/// <call-offset> ::= h <nv-offset> _ | v <v-offset> _
/// ```
impl ReadLeaf for CallOffset {
    ghost leaf_row = { Row.call_offset };

    ghost leaf_tree = { tree_of_call_offset };

    #[tactic(auto, unfolding(demangle_grammar::specs::Code::cread, demangle_grammar::specs::Rows::rule))]
    fn read_leaf<'b>(depth: Depth, input: IndexStr<'b>) -> Result<(CallOffset, IndexStr<'b>)> {
        let depth = depth.enter()?;
        if input.is_empty() {
            return Err(Error::UnexpectedEnd);
        }
        if let Ok(rest) = consume(b"h", input) {
            let (offset, rest) = NvOffset::read_leaf(depth, rest)?;
            let rest = consume(b"_", rest)?;
            return Ok((CallOffset::NonVirtual(offset), rest));
        }
        if let Ok(rest) = consume(b"v", input) {
            let (offset, rest) = VOffset::read_leaf(depth, rest)?;
            let rest = consume(b"_", rest)?;
            return Ok((CallOffset::Virtual(offset), rest));
        }
        Err(Error::UnexpectedText)
    }
}
