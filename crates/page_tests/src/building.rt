//! Texts, built from ranges.

use crate::rows::Row;
use std::alloc::{AllocError, Global};

/// Adds a byte so often.
pub(crate) fn add(text: &mut Vec<u8>, byte: u8, count: usize) -> Result<(), AllocError> {
    for _ in 0..count {
        text.push(byte)?;
    }
    Ok(())
}

/// The record of a row: each byte from a first to a last one so often.
pub(crate) fn record_of(alloc: Global, row: &Row) -> Result<Vec<u8>, AllocError> {
    let mut text = Vec::new(alloc);
    for (first, last, count) in row.text {
        for byte in u32::from(*first)..u32::from(*last) + 1 {
            add(&mut text, byte as u8, *count)?;
        }
    }
    Ok(text)
}
