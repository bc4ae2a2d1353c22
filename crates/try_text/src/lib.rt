//! How the tables of the row programs spell texts, so that a table is plain text whatever bytes its rows are about; and the pages on which they
//! print.
//!
//! A backslash begins an escape: `\n`, `\r` and `\t` are a line feed, a carriage return and a tab, `\xc4` is the byte with these
//! two hexadecimal digits, and `\3{ab}` is what stands in the braces so many times: `ababab`. A line of the table stands for its
//! bytes and a line feed, and one that ends in a backslash for its bytes only.
//!
//! Layer try_: nothing of the product stands on it.
#![tactic(auto)]

mod page;
mod source;
mod spelling;

pub use page::Page;
pub use source::{File, Source, have_gap};
pub use spelling::push_line;
