//! What a search is asked.

use fancy_code::code::Code;
use fancy_input::input::Request;
use fancy_meaning::options::SearchOptions;
use fancy_splits::prices::Prices;

/// What a search is asked, of whatever haystack.
#[derive(Clone, Copy)]
pub struct Asked<'a> {
    /// The code of the pattern.
    pub code: &'a Code,
    /// What is told of attempts with it.
    pub prices: &'a Prices,
    /// Where a match is wanted.
    pub request: Request,
    /// What it may be, and what the search may take.
    pub options: &'a SearchOptions,
    /// Whether `\G` holds where the search starts.
    pub continues: bool,
}
