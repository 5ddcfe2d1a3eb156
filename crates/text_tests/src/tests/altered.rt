//! Texts with one part replaced.

use std::alloc::Global;
use std::test::Fail;

/// The text with another part in the place of the first such part.
pub fn with(alloc: Global, text: &str, old: &str, new: &str) -> Result<String, Fail> {
    let (before, after) = text.split_once(old).ok_or("the part stands in the text")?;
    Ok(format!(in alloc; "{before}{new}{after}")?)
}
