//! The context of a printing, over the syntax tree.

use crate::inner::InnerItem;
use demangle_context::Context;
use demangle_table::SubstitutionTable;

/// The context of a printing: the table and the input that the nodes refer to, the listener, and how far it has come.
/// The original's type of this name. Its calls are those of `Context`.
pub type DemangleContext<'a, 'w, W> = Context<'a, 'w, InnerItem<'a>, SubstitutionTable, W>;
