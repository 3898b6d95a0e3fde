//! The words of a line.

use std::alloc::{AllocError, Global};

/// The words of a line, parted by spaces, or by `|` where one stands before the first.
pub fn words_of(alloc: Global, line: &str) -> Result<Vec<&str>, AllocError> {
    match line.strip_prefix("|") {
        Some(words) => words.split('|').collect(alloc),
        None => line.split_ascii_whitespace().collect(alloc),
    }
}
