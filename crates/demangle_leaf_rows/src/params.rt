//! Parameters of templates and functions, and qualifiers.

ghost use Rattle.demangle_leaf_nodes.specs.TreeLeaves.{tree_of_template_param, tree_of_function_param};
ghost use Rattle.demangle_leaf_nodes.specs.TreeLeaves.{tree_of_cv_qualifiers};
ghost use Rattle.demangle_grammar.specs.Rule.{Row};

use crate::bytes::optional_word;
use crate::depth::Depth;
use crate::read_leaf::ReadLeaf;
use demangle_leaf_nodes::{CvQualifiers, FunctionParam, TemplateParam};
use demangle_text::{Error, IndexStr, Result, consume, parse_unsigned};

/// A template parameter by its position. ABI section 5.1.5.8.
///
/// ```text
/// <template-param> ::= T_ | T <parameter-2 non-negative number> _
/// ```
impl ReadLeaf for TemplateParam {
    ghost leaf_row = { Row.template_param };

    ghost leaf_tree = { tree_of_template_param };

    #[tactic(auto, unfolding(demangle_grammar::specs::Code::cread, demangle_grammar::specs::Rows::rule))]
    fn read_leaf<'b>(depth: Depth, input: IndexStr<'b>) -> Result<(TemplateParam, IndexStr<'b>)> {
        let _depth = depth.enter()?;
        let rest = consume(b"T", input)?;
        let (index, rest) = match parse_unsigned(10, rest) {
            Ok((number, rest)) => (number + 1, rest),
            Err(_) => (0, rest),
        };
        let rest = consume(b"_", rest)?;
        Ok((TemplateParam(index), rest))
    }
}

/// A parameter of the function that is declared, or of one around it. ABI section 5.1.5.9.
///
/// ```text
/// <function-param> ::= fp <CV-qualifiers> _ | fp <CV-qualifiers> <parameter-2 non-negative number> _
///                  ::= fL <L-1 non-negative number> p <CV-qualifiers> _
///                  ::= fL <L-1 non-negative number> p <CV-qualifiers> <parameter-2 non-negative number> _
///                  ::= fp <CV-qualifiers> T | fL <number> p <CV-qualifiers> T
/// ```
impl ReadLeaf for FunctionParam {
    ghost leaf_row = { Row.function_param };

    ghost leaf_tree = { tree_of_function_param };

    #[tactic(auto, unfolding(demangle_grammar::specs::Code::cread, demangle_grammar::specs::Rows::rule))]
    fn read_leaf<'b>(depth: Depth, input: IndexStr<'b>) -> Result<(FunctionParam, IndexStr<'b>)> {
        let depth = depth.enter()?;
        let rest = consume(b"f", input)?;
        if rest.is_empty() {
            return Err(Error::UnexpectedEnd);
        }
        let (level, rest) = match consume(b"L", rest) {
            Ok(rest) => parse_unsigned(10, rest)?,
            Err(_) => (0, rest),
        };
        let rest = consume(b"p", rest)?;
        let (qualifiers, rest) = CvQualifiers::read_leaf(depth, rest)?;
        if let Ok(rest) = consume(b"T", rest) {
            return Ok((FunctionParam(level, qualifiers, None), rest));
        }
        let (index, rest) = match parse_unsigned(10, rest) {
            Ok((number, rest)) => (number + 1, rest),
            Err(_) => (0, rest),
        };
        let rest = consume(b"_", rest)?;
        Ok((FunctionParam(level, qualifiers, Some(index)), rest))
    }
}

/// Qualifiers, of which there may be none. ABI section 5.1.5.1.
///
/// ```text
/// <CV-qualifiers> ::= [r] [V] [K]
/// ```
impl ReadLeaf for CvQualifiers {
    ghost leaf_row = { Row.cv_qualifiers };

    ghost leaf_tree = { tree_of_cv_qualifiers };

    #[tactic(auto, unfolding(demangle_grammar::specs::Code::cread, demangle_grammar::specs::Rows::rule))]
    fn read_leaf<'b>(depth: Depth, input: IndexStr<'b>) -> Result<(CvQualifiers, IndexStr<'b>)> {
        let _depth = depth.enter()?;
        let (restrict, rest) = optional_word(b"r", input);
        let (volatile, rest) = optional_word(b"V", rest);
        let (const_, rest) = optional_word(b"K", rest);
        let qualifiers = CvQualifiers {
            restrict,
            volatile,
            const_,
        };
        Ok((qualifiers, rest))
    }
}
