//! What the examples share: lists of texts, and whether a text is the one that is due.
use dtx_values::{Bytes, Listing, Texts};
use std::alloc::{AllocError, Global};

/// Adds a text at the end.
fn put(alloc: Global, texts: &mut Texts, part: &[u8]) -> Result<(), AllocError> {
    let part = Vec::from_slice(alloc, part)?;
    texts.push(Listing::of(part))
}

/// These texts.
pub(crate) fn texts(alloc: Global, parts: &[&[u8]]) -> Result<Texts, AllocError> {
    let mut texts = Listing::new(alloc);
    for part in parts {
        put(alloc, &mut texts, part)?;
    }
    Ok(texts)
}

/// Whether there is a text, and it is the one that is due.
pub(crate) fn is_text(text: Result<Bytes, AllocError>, due: &[u8]) -> bool {
    match text {
        Ok(text) => text.as_slice() == due,
        Err(_) => false,
    }
}
