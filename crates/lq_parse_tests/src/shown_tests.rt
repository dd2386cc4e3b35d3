// Filters as texts.
use lq_ast::{Filter, Group, How, Select};
use std::alloc::{AllocError, Global};
use vl_row::Text;

/// Filters lie at most so deep in each other, and lists in them.
pub(crate) const DEPTH: u32 = 300;

/// Appends a filter, with filters inside it down to a depth.
#[cycle(shown)]
pub(crate) fn push_filter(filter: &Filter, depth: u32, out: &mut String) -> Result<(), AllocError> {
    if depth == 0 {
        return out.push_str("..");
    }
    match filter {
        Filter::Not(inner) => {
            out.push_str("not(")?;
            push_filter(inner, depth - 1, out)?;
            out.push_str(")")
        }
        Filter::All2(filters) => push_joined("all(", filters.as_slice(), depth - 1, out),
        Filter::Any2(filters) => push_joined("any(", filters.as_slice(), depth - 1, out),
        _ => push_leaf(filter, out),
    }
}

/// Appends filters after a word, with commas between them.
#[cycle(shown)]
fn push_joined(
    word: &str,
    filters: &[Filter],
    depth: u32,
    out: &mut String,
) -> Result<(), AllocError> {
    out.push_str(word)?;
    for (place, filter) in filters.iter().enumerate() {
        if place > 0 {
            out.push_str(", ")?;
        }
        push_filter(filter, depth, out)?;
    }
    out.push_str(")")
}

fn push_leaf(filter: &Filter, out: &mut String) -> Result<(), AllocError> {
    out.push_str(word_of(filter))?;
    let texts = texts_of(filter);
    for text in &texts {
        if let Some(text) = *text {
            push_text(text, out)?;
        }
    }
    match filter {
        Filter::OneOf { texts, .. } | Filter::Seq { texts, .. } => {
            push_texts(texts.as_slice(), out)
        }
        Filter::Select(select) => push_select(select, out),
        _ => push_ends(filter, out),
    }
}

fn word_of(filter: &Filter) -> &'static str {
    match filter {
        Filter::Any { .. } => "some",
        Filter::Empty { .. } => "empty",
        Filter::OneOf { .. } => "in",
        Filter::Seq { .. } => "seq",
        Filter::Select(_) => "streams",
        Filter::Phrase { .. } => "phrase",
        Filter::Prefix { .. } => "prefix",
        Filter::Exact { .. } => "exact",
        Filter::ExactPrefix { .. } => "exact_prefix",
        Filter::Regex { .. } => "regex",
        Filter::Fold { .. } => "fold",
        Filter::Between { .. } => "between",
        Filter::Length { .. } => "length",
        Filter::Range { .. } => "range",
        Filter::Last { .. } => "last",
        Filter::Times { .. } => "times",
        _ => "everything",
    }
}

/// Returns the field of a leaf and its texts, but for those of a list.
fn texts_of(filter: &Filter) -> [Option<&Text>; 3] {
    match filter {
        Filter::Phrase { field, text }
        | Filter::Prefix { field, text }
        | Filter::Exact { field, text }
        | Filter::ExactPrefix { field, text }
        | Filter::Fold { field, text } => [Some(field), Some(text), None],
        Filter::Regex { field, pattern } => [Some(field), Some(pattern), None],
        Filter::Between { field, low, high } => [Some(field), Some(low), Some(high)],
        Filter::Any { field }
        | Filter::Empty { field }
        | Filter::OneOf { field, .. }
        | Filter::Seq { field, .. }
        | Filter::Length { field, .. }
        | Filter::Range { field, .. } => [Some(field), None, None],
        _ => [None, None, None],
    }
}

/// Appends the numbers between whose ends a value or a moment lies.
fn push_ends(filter: &Filter, out: &mut String) -> Result<(), AllocError> {
    let (low, high) = match filter {
        Filter::Length { low, high, .. } => (i128::from(*low), i128::from(*high)),
        Filter::Range { low, high, .. } => (*low, *high),
        Filter::Times { from, to } => (*from, *to),
        Filter::Last { span } => return push_number(i128::from(*span), out),
        _ => return Ok(()),
    };
    push_number(low, out)?;
    push_number(high, out)
}

/// Appends a number after a blank.
pub(crate) fn push_number(number: i128, out: &mut String) -> Result<(), AllocError> {
    write!(out, " {number}")
}

/// Appends texts, each as `push_text` does.
pub(crate) fn push_texts(texts: &[Text], out: &mut String) -> Result<(), AllocError> {
    for text in texts {
        push_text(text, out)?;
    }
    Ok(())
}

/// Appends a text between angle brackets, with pictures in the places of its control characters.
pub(crate) fn push_text(text: &Text, out: &mut String) -> Result<(), AllocError> {
    out.push_str(" <")?;
    for c in text.as_str().chars() {
        let shown = match c {
            '\n' => '␊',
            '\r' => '␍',
            '\t' => '␉',
            '\0' => '␀',
            _ => c,
        };
        out.push(shown)?;
    }
    out.push_str(">")
}

fn push_select(select: &Select, out: &mut String) -> Result<(), AllocError> {
    for group in select.groups.as_slice() {
        push_group(group, out)?;
    }
    Ok(())
}

fn push_group(group: &Group, out: &mut String) -> Result<(), AllocError> {
    out.push_str(" {")?;
    for label in group.labels.as_slice() {
        push_text(&label.name, out)?;
        let how = match label.how {
            How::Is => " =",
            How::IsNot => " !=",
            How::Matches => " =~",
            How::MatchesNot => " !~",
        };
        out.push_str(how)?;
        push_text(&label.text, out)?;
    }
    out.push_str(" }")
}

/// Returns the text with control characters in the places of their pictures.
pub fn with_controls(alloc: Global, text: &str) -> Result<String, AllocError> {
    let mut out = String::new(alloc);
    for c in text.chars() {
        let meant = match c {
            '␀'..='␟' => (c as u32 - '␀' as u32) as u8 as char,
            _ => c,
        };
        out.push(meant)?;
    }
    Ok(out)
}
