//! Lines and columns of a text: which line a byte offset is in, and back.
//!
//! ```text
//! let index = LineIndex::new(alloc, "ab\ncd".as_bytes())?;
//! index.line_column(4)                         // line 1, column 1: both are counted from 0
//! index.offset(LineColumn { line: 1, column: 1 })    // 4
//! ```
#![tactic(auto)]

mod index;
mod line;

pub use index::{LineColumn, LineIndex};
pub use line::line_at;
