//! The names of all calls: from a name and its arguments to the call, and from the call back to its form.

#![tactic(auto)]

mod reading;
mod writing;

pub use reading::{cursor_command, kind, layout_command};
pub use writing::{cursor_form, kind_name, layout_form, position_args};
