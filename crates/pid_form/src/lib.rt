//! The fields of a form: pairs of a name and a value, as the fields of a script's line, of a query
//! and of a body have them.
//!
//! `fields_of` decodes them. `value`, `times` and their kin find a field by its name;
//! `number_up_to` and `numeral` read the number that a value writes.
#![tactic(auto)]

mod fields;
mod numbers;
mod parsing;

pub use fields::{is_once, is_one_of, is_twice, text_at, times, value};
pub use numbers::{number_up_to, numeral};
pub use parsing::fields_of;
