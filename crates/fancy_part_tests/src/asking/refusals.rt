//! Why a pattern is refused.

use fancy_tree::error::{CompileError, Error, Result};

/// Whether a pattern is refused for its many nodes, or for too much code.
pub(crate) fn is_too_complex<T>(answer: &Result<T>) -> bool {
    matches!(
        answer,
        Err(Error::CompileError(CompileError::PatternTooComplex))
    )
}
