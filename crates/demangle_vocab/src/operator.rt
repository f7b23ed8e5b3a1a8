//! The operators (ABI section 5.1.3, <operator-name>).

ghost use Rattle.std.specs.Prelude.{◌≡◌, ◌≤◌, ◌+◌, ℕ, List, ◌∷◌, OnOk, IfOk, length, option_map};
ghost use Rattle.demangle_text.specs.Kind.{Gives, Unread, kind};
ghost use Rattle.demangle_text.specs.Spot.{spot};
ghost use Rattle.demangle_vocab.specs.WordTable.{table_from, text_at, word_read, starts_some, more_at};
ghost use Rattle.demangle_vocab.specs.Operators.{operators, operator_words, number_of_operator, operator_of};
ghost use Rattle.demangle_vocab.specs.Operators.{operator_cut};

use demangle_text::{Error, IndexStr, Result};

/// An operator whose name is one word.
#[derive(Clone, Copy, Debug, PartialEq, Eq)]
pub enum SimpleOperatorName {
    /// `nw`
    New,
    /// `na`
    NewArray,
    /// `dl`
    Delete,
    /// `da`
    DeleteArray,
    /// `ps`
    UnaryPlus,
    /// `ng`
    Neg,
    /// `ad`
    AddressOf,
    /// `de`
    Deref,
    /// `co`
    BitNot,
    /// `pl`
    Add,
    /// `mi`
    Sub,
    /// `ml`
    Mul,
    /// `dv`
    Div,
    /// `rm`
    Rem,
    /// `an`
    BitAnd,
    /// `or`
    BitOr,
    /// `eo`
    BitXor,
    /// `aS`
    Assign,
    /// `pL`
    AddAssign,
    /// `mI`
    SubAssign,
    /// `mL`
    MulAssign,
    /// `dV`
    DivAssign,
    /// `rM`
    RemAssign,
    /// `aN`
    BitAndAssign,
    /// `oR`
    BitOrAssign,
    /// `eO`
    BitXorAssign,
    /// `ls`
    Shl,
    /// `rs`
    Shr,
    /// `lS`
    ShlAssign,
    /// `rS`
    ShrAssign,
    /// `eq`
    Eq,
    /// `ne`
    Ne,
    /// `lt`
    Less,
    /// `gt`
    Greater,
    /// `le`
    LessEq,
    /// `ge`
    GreaterEq,
    /// `nt`
    Not,
    /// `aa`
    LogicalAnd,
    /// `oo`
    LogicalOr,
    /// `pp`
    PostInc,
    /// `mm`
    PostDec,
    /// `cm`
    Comma,
    /// `pm`
    DerefMemberPtr,
    /// `pt`
    DerefMember,
    /// `cl`
    Call,
    /// `ix`
    Index,
    /// `qu`
    Question,
    /// `ss`
    Spaceship,
}

impl SimpleOperatorName {
    /// The operator at the front and the rest. Where no word of the table is there, `UnexpectedEnd` exactly where all
    /// bytes that are left are a proper prefix of a word, as no bytes are, and else `UnexpectedText`.
    #[tactic(auto, unfolding(crate::specs::WordTable::table_from))]
    pub fn read_word<'a>(input: IndexStr<'a>) -> Result<(SimpleOperatorName, IndexStr<'a>)>
        ensures { Gives (λ x. (number_of_operator x.0, spot x.1)) result (table_from operator_words
            (spot input.entry)) }
    {
        let word = SimpleOperatorName::at_front(input.as_slice())?;
        Ok((word, input.range_from(2..)))
    }

    /// The operator at the front. Each word has two bytes.
    #[tactic(auto, using(crate::proofs::Pairs::pairs))]
    fn at_front(bytes: &[u8]) -> Result<SimpleOperatorName>
        ensures word { Gives (λ o. (number_of_operator o, 2)) result (word_read operator_words bytes.now) }
        ensures fits { OnOk result (2 ≤ length bytes.now) }
    {
        match bytes {
            [] => Err(Error::UnexpectedEnd),
            [first] => Err(SimpleOperatorName::missing(*first)),
            [first, second, ..] => match SimpleOperatorName::of_bytes(*first, *second) {
                Some(word) => Ok(word),
                None => Err(Error::UnexpectedText),
            },
        }
    }

    /// The operator of two bytes.
    #[tactic(auto, unfolding(crate::specs::Operators::operator_of))]
    fn of_bytes(first: u8, second: u8) -> Option<SimpleOperatorName>
        ensures { option_map (λ o. (number_of_operator o, 2)) result ≡ operator_of first second }
    {
        let word = match (first, second) {
            (b'n', b'w') => SimpleOperatorName::New,
            (b'n', b'a') => SimpleOperatorName::NewArray,
            (b'n', b'g') => SimpleOperatorName::Neg,
            (b'n', b'e') => SimpleOperatorName::Ne,
            (b'n', b't') => SimpleOperatorName::Not,
            (b'd', b'l') => SimpleOperatorName::Delete,
            (b'd', b'a') => SimpleOperatorName::DeleteArray,
            (b'd', b'e') => SimpleOperatorName::Deref,
            (b'd', b'v') => SimpleOperatorName::Div,
            (b'd', b'V') => SimpleOperatorName::DivAssign,
            (b'p', b's') => SimpleOperatorName::UnaryPlus,
            (b'p', b'l') => SimpleOperatorName::Add,
            (b'p', b'L') => SimpleOperatorName::AddAssign,
            (b'p', b'p') => SimpleOperatorName::PostInc,
            (b'p', b'm') => SimpleOperatorName::DerefMemberPtr,
            (b'p', b't') => SimpleOperatorName::DerefMember,
            (b'a', b'd') => SimpleOperatorName::AddressOf,
            (b'a', b'n') => SimpleOperatorName::BitAnd,
            (b'a', b'S') => SimpleOperatorName::Assign,
            (b'a', b'N') => SimpleOperatorName::BitAndAssign,
            (b'a', b'a') => SimpleOperatorName::LogicalAnd,
            (b'c', b'o') => SimpleOperatorName::BitNot,
            (b'c', b'm') => SimpleOperatorName::Comma,
            (b'c', b'l') => SimpleOperatorName::Call,
            (b'm', b'i') => SimpleOperatorName::Sub,
            (b'm', b'l') => SimpleOperatorName::Mul,
            (b'm', b'I') => SimpleOperatorName::SubAssign,
            (b'm', b'L') => SimpleOperatorName::MulAssign,
            (b'm', b'm') => SimpleOperatorName::PostDec,
            (b'r', b'm') => SimpleOperatorName::Rem,
            (b'r', b'M') => SimpleOperatorName::RemAssign,
            (b'r', b's') => SimpleOperatorName::Shr,
            (b'r', b'S') => SimpleOperatorName::ShrAssign,
            (b'o', b'r') => SimpleOperatorName::BitOr,
            (b'o', b'R') => SimpleOperatorName::BitOrAssign,
            (b'o', b'o') => SimpleOperatorName::LogicalOr,
            (b'e', b'o') => SimpleOperatorName::BitXor,
            (b'e', b'O') => SimpleOperatorName::BitXorAssign,
            (b'e', b'q') => SimpleOperatorName::Eq,
            (b'l', b's') => SimpleOperatorName::Shl,
            (b'l', b'S') => SimpleOperatorName::ShlAssign,
            (b'l', b't') => SimpleOperatorName::Less,
            (b'l', b'e') => SimpleOperatorName::LessEq,
            (b'g', b't') => SimpleOperatorName::Greater,
            (b'g', b'e') => SimpleOperatorName::GreaterEq,
            (b'i', b'x') => SimpleOperatorName::Index,
            (b'q', b'u') => SimpleOperatorName::Question,
            (b's', b's') => SimpleOperatorName::Spaceship,
            _ => return None,
        };
        Some(word)
    }

    /// Why no operator is there where one byte is left.
    #[tactic(auto, unfolding(crate::specs::Operators::operator_cut))]
    fn missing(first: u8) -> Error
        ensures { kind result ≡ Unread (operator_cut first) }
    {
        if SimpleOperatorName::starts_with(first) {
            Error::UnexpectedEnd
        } else {
            Error::UnexpectedText
        }
    }

    /// The text that is printed for it.
    pub fn text(&self) -> &'static str
        ensures { result.now ≡ text_at operators (number_of_operator self.now) }
    {
        match self {
            SimpleOperatorName::New => "new",
            SimpleOperatorName::NewArray => "new[]",
            SimpleOperatorName::Delete => "delete",
            SimpleOperatorName::DeleteArray => "delete[]",
            SimpleOperatorName::UnaryPlus => "+",
            SimpleOperatorName::Neg => "-",
            SimpleOperatorName::AddressOf => "&",
            SimpleOperatorName::Deref => "*",
            SimpleOperatorName::BitNot => "~",
            SimpleOperatorName::Add => "+",
            SimpleOperatorName::Sub => "-",
            SimpleOperatorName::Mul => "*",
            SimpleOperatorName::Div => "/",
            SimpleOperatorName::Rem => "%",
            SimpleOperatorName::BitAnd => "&",
            SimpleOperatorName::BitOr => "|",
            SimpleOperatorName::BitXor => "^",
            SimpleOperatorName::Assign => "=",
            SimpleOperatorName::AddAssign => "+=",
            SimpleOperatorName::SubAssign => "-=",
            SimpleOperatorName::MulAssign => "*=",
            SimpleOperatorName::DivAssign => "/=",
            SimpleOperatorName::RemAssign => "%=",
            SimpleOperatorName::BitAndAssign => "&=",
            SimpleOperatorName::BitOrAssign => "|=",
            SimpleOperatorName::BitXorAssign => "^=",
            SimpleOperatorName::Shl => "<<",
            SimpleOperatorName::Shr => ">>",
            SimpleOperatorName::ShlAssign => "<<=",
            SimpleOperatorName::ShrAssign => ">>=",
            SimpleOperatorName::Eq => "==",
            SimpleOperatorName::Ne => "!=",
            SimpleOperatorName::Less => "<",
            SimpleOperatorName::Greater => ">",
            SimpleOperatorName::LessEq => "<=",
            SimpleOperatorName::GreaterEq => ">=",
            SimpleOperatorName::Not => "!",
            SimpleOperatorName::LogicalAnd => "&&",
            SimpleOperatorName::LogicalOr => "||",
            SimpleOperatorName::PostInc => "++",
            SimpleOperatorName::PostDec => "--",
            SimpleOperatorName::Comma => ",",
            SimpleOperatorName::DerefMemberPtr => "->*",
            SimpleOperatorName::DerefMember => "->",
            SimpleOperatorName::Call => "()",
            SimpleOperatorName::Index => "[]",
            SimpleOperatorName::Question => "?:",
            SimpleOperatorName::Spaceship => "<=>",
        }
    }

    /// How many operands it takes in an expression.
    pub fn arity(&self) -> u8
        ensures { result ≡ more_at 0 operators (number_of_operator self.now) }
    {
        match self {
            SimpleOperatorName::Delete
            | SimpleOperatorName::DeleteArray
            | SimpleOperatorName::UnaryPlus
            | SimpleOperatorName::Neg
            | SimpleOperatorName::AddressOf
            | SimpleOperatorName::Deref
            | SimpleOperatorName::BitNot
            | SimpleOperatorName::Not
            | SimpleOperatorName::PostInc
            | SimpleOperatorName::PostDec => 1,
            SimpleOperatorName::New | SimpleOperatorName::NewArray | SimpleOperatorName::Question =>
                3,
            _ => 2,
        }
    }

    /// Whether a word of the table begins with the byte.
    pub fn starts_with(byte: u8) -> bool
        ensures { result ≡ starts_some operator_words byte }
    {
        match byte {
            b'n'
            | b'd'
            | b'p'
            | b'a'
            | b'c'
            | b'm'
            | b'r'
            | b'o'
            | b'e'
            | b'l'
            | b'g'
            | b'i'
            | b'q'
            | b's' => true,
            _ => false,
        }
    }

    /// The number of its entry in the table, from 0.
    pub fn number(&self) -> u8
        ensures { result ≡ number_of_operator self.now }
    {
        *self as u8
    }
}
