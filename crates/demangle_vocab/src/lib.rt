//! The words of the grammar that stand in tables: operators, builtin types, abbreviated components, ref-qualifiers and
//! the mark of an explicit object parameter.
#![tactic(auto)]

mod apart;
mod builtin;
mod component;
mod operator;
mod qualifier;

pub use apart::{no_word_is_a_prefix, the_word_at_the_front_is_read};
pub use builtin::StandardBuiltinType;
pub use component::WellKnownComponent;
pub use operator::SimpleOperatorName;
pub use qualifier::{ExplicitObjectParameter, RefQualifier};
