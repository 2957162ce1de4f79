//! Lines that have a limited number of columns: what is put on them, and numbers and texts as they are printed.
#![tactic(auto)]

mod columns;
mod decimals;
mod fields;
mod row;

pub use decimals::put_number;
pub use fields::put_printed;
pub use row::Row;
