//! The steps of the parser of scripts between and in statements, and in objects and functions.
#![tactic(auto)]

mod objects;
mod statements;

pub use objects::{
    close_object, head_constructs, on_async_key, on_async_method, on_body_open, on_function_name,
    on_key, on_name_key, on_other_key, on_parameter_read, on_parameters, on_parameters_open,
    on_property_end,
};
pub use statements::{
    after_catch, after_export, after_then, after_try, end, on_catch, on_catch_body, on_catch_close,
    on_catch_name, on_declared_name, on_export_object, on_export_word, on_finally, on_for_head,
    on_for_test, on_for_update, on_jump, on_name_declared, on_opening, on_return, on_statement,
    on_throw, on_try, with_declaration,
};
