//! The lines of special names, each a function, for trees of any kind.
#![tactic(auto)]

mod choices;
mod lines;

pub use lines::{
    call_offset_non_virtual, call_offset_virtual, resource_name, special_name_construction_vtable,
    special_name_guard, special_name_guard_temporary, special_name_java_resource,
    special_name_non_transaction_clone, special_name_tls_init, special_name_tls_wrapper,
    special_name_transaction_clone, special_name_typeinfo, special_name_typeinfo_function,
    special_name_typeinfo_name, special_name_virtual_override_thunk,
    special_name_virtual_override_thunk_covariant, special_name_virtual_table, special_name_vtt,
};
