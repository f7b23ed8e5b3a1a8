//! Components of a name.

/// A component of a name: whether it is a numbered one, and the index of its tree.
#[derive(Clone, Copy)]
pub struct Entry {
    pub numbered: bool,
    pub id: u32,
}

/// How many components there were: all, the numbered ones, the others.
#[derive(Clone, Copy)]
pub struct Mark {
    pub entries: usize,
    pub numbered: usize,
    pub others: usize,
}
