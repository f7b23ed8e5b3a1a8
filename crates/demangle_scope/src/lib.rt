//! Scopes and inner items, and the context of a printing over the syntax tree: what the printing of names hands from
//! line to line.
#![tactic(auto)]

mod context;
mod inner;
mod scope;

pub use context::DemangleContext;
pub use demangle_context::{
    DemangleError, DemangleFlags, DemangleNodeType, DemangleOptions, DemangleWrite, InnerBarrier,
    InnerItems, PrintFault, PrintFlag, SinkFault, TextSink,
};
pub use inner::InnerItem;
pub use scope::{
    ArgScopeStack, ScopeItem, scope_in_arg, scope_leaf_name, scope_push, scope_template_arg,
};
