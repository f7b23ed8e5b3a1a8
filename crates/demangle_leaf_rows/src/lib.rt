//! The rows of the grammar that need no recursion and no table: the readers in a context, and the same with the
//! levels that are left by value, on which the readers of whole names stand.
#![tactic(auto)]

mod bytes;
mod context;
mod deepening;
mod depth;
mod lists;
mod names;
mod numbers;
mod offsets;
mod params;
mod read_leaf;
mod readers;
mod words;

pub use bytes::{digit_at, optional_word};
pub use context::ParseContext;
pub use deepening::{read_leaf_in, substitution_in};
pub use depth::{Depth, hidden};
pub use lists::{abi_tags, clone_suffix};
pub use numbers::{seq_id, substitution};
pub use read_leaf::ReadLeaf;
pub use readers::{
    read_abi_tag, read_abi_tags, read_call_offset, read_clone_suffix, read_clone_type_identifier,
    read_cv_qualifiers, read_discriminator, read_function_param, read_identifier, read_number,
    read_nv_offset, read_resource_name, read_seq_id, read_source_name, read_template_param,
    read_unnamed_type_name, read_v_offset,
};
