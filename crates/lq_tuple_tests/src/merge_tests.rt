//! Tables of texts that take one another.
use lq_tuple::Texts;
use std::alloc::{AllocError, Global};

/// Returns how many texts there are in a table of some texts that has taken a table of others.
pub fn merged_len(alloc: Global, some: &[&str], others: &[&str]) -> Result<usize, AllocError> {
    let mut texts = table(alloc, some)?;
    texts.merge(table(alloc, others)?)?;
    Ok(texts.len())
}

fn table(alloc: Global, some: &[&str]) -> Result<Texts, AllocError> {
    let mut texts = Texts::new(alloc);
    for text in some {
        texts.add(alloc, text)?;
    }
    Ok(texts)
}
