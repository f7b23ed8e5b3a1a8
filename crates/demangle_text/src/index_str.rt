//! A slice of the input that knows its index there.

ghost use Rattle.std.specs.Prelude.{◌≡◌, ◌+◌, ◌^◌, ◌<◌, ◌≤◌, ◌↔◌, ◌++◌, [], ◌∷◌, length, IsTrue, Ok, Err, MatchOption};
ghost use Rattle.std.specs.Prelude.{MatchResult, slice_range};

use std::ops::{Range, RangeFrom, RangeTo};

/// A slice of the input and its index there. It is two words and an index, and is passed by value.
#[derive(Clone, Copy, Debug, Eq)]
pub struct IndexStr<'a> {
    string: &'a [u8],
    index: usize,
    pub ghost fits: { index + length string.now < 2 ^ 64 },
}

impl<'a> IndexStr<'a> {
    ghost use Rattle.demangle_text.specs.Spot.{spot, skip, front, IsSplit, first_byte, second_byte};

    /// The whole input, at index 0.
    pub fn new(string: &'a [u8]) -> IndexStr<'a>
        ensures index { (spot result).index ≡ 0 }
        ensures bytes { (spot result).left ≡ string.now }
    {
        IndexStr { string, index: 0 }
    }

    /// The number of bytes.
    pub fn len(&self) -> usize
        ensures { result ≡ length (spot self.now).left }
    {
        self.string.len()
    }

    /// Whether there are no bytes.
    pub fn is_empty(&self) -> bool
        ensures { IsTrue result ↔ ((spot self.now).left ≡ []) }
    {
        self.string.is_empty()
    }

    /// The index of the first byte in the input.
    pub fn index(&self) -> usize
        ensures value { result ≡ (spot self.now).index }
        ensures fits { result + length (spot self.now).left < 2 ^ 64 }
    {
        self.index
    }

    /// The first byte, where there is one.
    pub fn peek(&self) -> Option<u8>
        ensures { result ≡ first_byte (spot self.now).left }
    {
        match self.string {
            [] => None,
            [byte, ..] => Some(*byte),
        }
    }

    /// The second byte, where there is one.
    pub fn peek_second(&self) -> Option<u8>
        ensures { result ≡ second_byte (spot self.now).left }
    {
        match self.string {
            [] => None,
            [_] => None,
            [_, byte, ..] => Some(*byte),
        }
    }

    /// The first byte and the rest, or nothing where no byte is left.
    pub fn next(&self) -> Option<(u8, IndexStr<'a>)>
        ensures { MatchOption result ((spot self.now).left ≡ [])
            (λ x. ((spot self.now).left ≡ x.0 ∷ (spot x.1).left) × ((spot x.1).index ≡ (spot self.now).index + 1)) }
    {
        match self.string {
            [] => None,
            [byte, rest @ ..] => Some((
                *byte,
                IndexStr {
                    string: rest,
                    index: self.index + 1,
                },
            )),
        }
    }

    /// The first byte and the rest, or `error` where no byte is left.
    pub fn next_or<E: Drop>(&self, error: E) -> Result<(u8, IndexStr<'a>), E>
        ensures { MatchResult result
            (λ x. ((spot self.now).left ≡ x.0 ∷ (spot x.1).left) × ((spot x.1).index ≡ (spot self.now).index + 1))
            (λ e. ((spot self.now).left ≡ []) × (e ≡ error)) }
    {
        match self.next() {
            Some(next) => Ok(next),
            None => Err(error),
        }
    }

    /// The part before `idx`, and the part from there on. Joined they are the whole.
    pub fn split_at(&self, idx: usize) -> (IndexStr<'a>, IndexStr<'a>)
        requires { idx ≤ length (spot self.now).left }
        ensures split { IsSplit idx (spot self.now) (spot result.0) (spot result.1) }
        ensures joined { (spot result.0).left ++ (spot result.1).left ≡ (spot self.now).left }
        ensures indexes { (spot result.0).index + length (spot result.0).left ≡ (spot result.1).index }
    {
        let (front, back) = self.string.split_at(idx);
        (
            IndexStr {
                string: front,
                index: self.index,
            },
            IndexStr {
                string: back,
                index: self.index + idx,
            },
        )
    }

    /// As `split_at`, or nothing where `idx` passes the length.
    pub fn try_split_at(&self, idx: usize) -> Option<(IndexStr<'a>, IndexStr<'a>)>
        ensures { MatchOption result (length (spot self.now).left < idx)
            (λ x. IsSplit idx (spot self.now) (spot x.0) (spot x.1) × (idx ≤ length (spot self.now).left)) }
    {
        if self.len() < idx {
            None
        } else {
            Some(self.split_at(idx))
        }
    }

    /// The part from `idx.start` up to `idx.end`.
    pub fn range(&self, idx: Range<usize>) -> IndexStr<'a>
        requires ordered { idx.start ≤ idx.end }
        requires inside { idx.end ≤ length (spot self.now).left }
        ensures index { (spot result).index ≡ (spot self.now).index + idx.start }
        ensures bytes { (spot result).left ≡ slice_range (spot self.now).left idx.start idx.end }
    {
        IndexStr {
            string: &self.string[idx.start..idx.end],
            index: self.index + idx.start,
        }
    }

    /// The part from `idx.start` on.
    pub fn range_from(&self, idx: RangeFrom<usize>) -> IndexStr<'a>
        requires { idx.start ≤ length (spot self.now).left }
        ensures { spot result ≡ skip idx.start (spot self.now) }
    {
        self.split_at(idx.start).1
    }

    /// The part up to `idx.end`.
    pub fn range_to(&self, idx: RangeTo<usize>) -> IndexStr<'a>
        requires { idx.end ≤ length (spot self.now).left }
        ensures { spot result ≡ front idx.end (spot self.now) }
    {
        self.split_at(idx.end).0
    }

    /// The bytes.
    pub fn as_slice(&self) -> &'a [u8]
        ensures { result.now ≡ (spot self.now).left }
    {
        self.string
    }

    /// Whether the bytes are these, whatever the index is.
    pub fn eq_bytes(&self, bytes: &[u8]) -> bool
        ensures { IsTrue result ↔ ((spot self.now).left ≡ bytes.now) }
    {
        self.string == bytes
    }
}

/// Equal exactly where the index and the bytes are equal.
impl PartialEq for IndexStr<'_> {
    ghost use Rattle.std.proofs.Common.{rules};
    ghost use Rattle.std.specs.Cmp.Rules.{comparing};
    ghost use Rattle.demangle_text.specs.Spot.{spot, same_spot};

    ghost eq = { λ a b. same_spot (spot a) (spot b) };

    ghost laws = { Prim.search (comparing, rules) };

    fn eq(&self, other: &IndexStr<'_>) -> bool {
        self.index == other.index && self.string == other.string
    }
}

impl<'a> From<&'a [u8]> for IndexStr<'a> {
    ghost use Rattle.demangle_text.specs.Spot.{spot};

    ghost from_gives = { λ bytes s. ((spot s).index ≡ 0) × ((spot s).left ≡ bytes.now) };

    fn from(string: &'a [u8]) -> IndexStr<'a> {
        IndexStr::new(string)
    }
}
