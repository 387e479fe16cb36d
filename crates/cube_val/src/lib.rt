//! The values of table columns: their types, their texts, their order, rows and tables of them, and the forms that
//! say which columns a table has and how tables are joined.
//!
//! The bottom of the engine, over the calendar alone. Every crate that reads, keeps, compares or prints a value
//! stands on this one, and it stands on none of them.
//!
//! At its boundary:
//!
//! - A `TextVal` is at most 255 bytes of UTF-8, and an `Int` is an `i64`, so what was read once is never checked again.
//! - Bytes write at most one value in a column of a type, and what is printed of a value writes that value.
//! - The orders of values and of rows are total, and only equal ones tie.
//! - Contracts see a text and a name as their bytes, a row as the list of its values, a table as the list of its rows,
//!   and a list in a form as the list of its items: equal in a contract is equal to a caller.
//!
//! The modules:
//!
//! - `val`: values, how they are read and printed; `number` and `text` beside it for their kinds; `order` and `row_order`: how
//!   they and rows are compared.
//! - `rows`: rows and tables; `name`: the names of columns.
//! - `form`: the forms of tables, the shared tables of a cube and the plan of its joins; `items`: their lists.
//! - `laws`: what holds of all values; `examples`: the definitions on a few.
#![tactic(auto)]

mod examples;
mod form;
mod items;
mod laws;
mod name;
mod number;
mod order;
mod row_order;
mod rows;
mod text;
mod val;

pub use examples::worked_examples;
pub use form::{ColDesc, JoinPlan, JoinStep, TableForm, TableSet, WideCol};
pub use items::Items;
pub use laws::{order_is_total, printed_values_are_read, row_order_is_total, texts_have_one_value};
pub use name::NameText;
pub use number::decimal_text;
pub use order::cmp;
pub use rows::{ROW_LIMIT, Row, Table};
pub use text::{TEXT_MAX, TextVal};
pub use val::{ColType, ReadVal, Val, read_val, val_text};
