//! The values that nodes keep: rows, changes and tables, what a node answers, and the lists that hold them.
//!
//! Contracts see a list as the list of its items, a name and a text as their bytes, and a table's rows as a finite map,
//! so that any two values of these types can be compared by what they say.
//!
//! A call that returns an `AllocError` fails where memory runs out.
#![tactic(auto)]

mod advice;
mod answer;
mod duplicate;
mod identifier;
mod limits;
mod listing;
mod name;
mod name_err;
mod order;
mod printing;
mod row;
mod row_map;
mod str;
mod table;
mod text_err;
mod value;

pub use advice::Advice;
pub use answer::{Answer, Done, INVALID_SQL, Notice, Refusal, RowSet};
pub use duplicate::Duplicate;
pub use identifier::is_identifier;
pub use limits::{
    BRANCH_LIMIT, CHANGES_LIMIT, COLUMN_LIMIT, COMMENT_LIMIT, DELIVERY_LIMIT, DEPTH_LIMIT,
    EXTENT_SIZE, EXTENTS_LIMIT, ID_LIMIT, IDENTIFIER_LIMIT, LINK_LIMIT, NAME_LIMIT, NODE_LIMIT,
    SCN_LIMIT, SCRIPT_LIMIT, SELECT_LIMIT, SESSION_LIMIT, STRENGTH_LIMIT, TEXT_LIMIT,
    USUAL_EXTENTS, USUAL_LINKS,
};
pub use listing::Listing;
pub use name::{Name, Names};
pub use name_err::NameErr;
pub use order::{is_null, same_value, value_below};
pub use printing::value_text;
pub use row::{Change, Changes, Row, Rows};
pub use row_map::RowMap;
pub use str::Str;
pub use table::{Column, Columns, Link, Synonym, Table};
pub use text_err::TextErr;
pub use value::{Bytes, Cells, Texts, Value};
