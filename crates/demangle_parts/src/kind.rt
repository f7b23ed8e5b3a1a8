//! What a linker name is of.

/// What a linker name is of: what its encoding is, or what kind of name it is where it has none of its own.
#[derive(Clone, Copy, Debug, PartialEq, Eq)]
pub enum Kind {
    /// A function, `f()`: `_Z1fv`.
    Function,
    /// A variable, `A::x`: `_ZN1A1xE`.
    Data,
    /// What the compiler makes, the virtual table of `A`: `_ZTV1A`.
    Special,
    /// The function that one of Apple's blocks is compiled to: `___Z1fv_block_invoke`.
    Block,
    /// What runs the constructors or destructors of a file's variables: `_GLOBAL__I__Z1fv`.
    Keyed,
    /// A type alone, `int*`: `Pi`.
    TopType,
}
