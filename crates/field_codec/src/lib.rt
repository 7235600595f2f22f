//! The bytes of what redo records and messages are made of: names, texts, values, rows, changes, branches, tables,
//! comments and advice.
//!
//! Each has a format, a value of `byte_format`'s, in `specs/`, which is shown to be exact: no bytes spell two values. A
//! type that holds nothing stands for each format (`NameField`, `ValueField` ..), so that a larger codec puts a field by
//! `NameField::put_into`, takes it by `NameField::take_from`, and makes `Option<BranchField>` or `ListField<ChangeField>`
//! of it. `put_name`, `take_name` and the like say the same in words of the spelling alone. Numbers and flags are fields
//! of byte_format; a codec's own types become fields by an impl of its trait `Field`.
//!
//! `.._fits` shows that a value has a spelling, which `put_into` asks for.
#![tactic(auto)]

mod advice;
mod branch;
mod change;
mod fits;
mod laws;
mod listing;
mod name;
mod row;
mod table;
mod text;
mod value;

pub use advice::AdviceField;
pub use branch::{BranchField, put_branch, take_branch};
pub use change::{ChangeField, put_change, take_change};
pub use fits::{branch_fits, change_fits, name_fits, row_fits, table_fits, value_fits};
pub use laws::fields_are_exact;
pub use listing::ListField;
pub use name::{NameField, put_name, take_name};
pub use row::{RowField, put_row, take_row};
pub use table::{ColumnField, LinkField, SynonymField, TableField};
pub use text::{BytesField, CommentField, TextField, Utf8Field, put_text, take_text};
pub use value::{ValueField, put_value, take_value};
