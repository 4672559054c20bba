//! Columns of a terminal.

use unicode_width::UnicodeWidthStr;

/// How far apart the stops of tabs are.
const TAB_STOP: usize = 8;

/// The column after a text that begins at a column. A tab goes on to the next stop.
pub(crate) fn column_after(text: &str, start: usize) -> usize {
    let mut column = start;
    let mut first = true;
    for piece in text.split("\t") {
        if !first {
            column = (column / TAB_STOP)
                .saturating_add(1)
                .saturating_mul(TAB_STOP);
        }
        first = false;
        column = column.saturating_add(piece.width());
    }
    column
}
