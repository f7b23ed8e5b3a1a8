//! The rows of names with their scopes (ABI sections 5.1.2, 5.1.4 and 5.1.7) over the arena, but for nested names.
//!
//! Each function reads a row or a part of one. What is read again with fewer levels left is called through `below`.
#![tactic(auto)]

mod blocks;
mod components;
mod encodings;
mod first_bytes;
mod java_resources;
mod lists;
mod local_names;
mod mangled_names;
mod names;
mod special_names;
mod special_words;
mod temporaries;

pub use encodings::encoding_by;
pub use local_names::local_name;
pub use mangled_names::{global_ctor_dtor, mangled_name_by};
pub use names::{name_by, unscoped_name, unscoped_template_name_handle};
pub use special_names::special_name;
