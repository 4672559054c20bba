//! The four forms of a haystack: two of text, and two of bytes.

mod borrowed_text;
mod byte_array;
mod byte_slice;
mod owned_text;
