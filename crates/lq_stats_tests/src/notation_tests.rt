//! Pipes `stats` and records in a small notation.
use lq_ast::{Call, Filter, Func, StatKey, StatsPipe};
use std::alloc::{AllocError, Global};
use vl_row::{FieldList, Items, Text};

/// Returns the pipe of these words.
pub fn pipe_of(alloc: Global, words: &str) -> Result<StatsPipe, AllocError> {
    let mut keys = Vec::new(alloc);
    let mut funcs = Vec::new(alloc);
    for word in words.split(' ') {
        match word.strip_prefix("by=") {
            Some(key) => keys.push(key_of(alloc, key)?)?,
            None => {
                if let Some(func) = func_of(alloc, word)? {
                    funcs.push(func)?;
                }
            }
        }
    }
    Ok(StatsPipe {
        keys: Items::of(keys),
        funcs: Items::of(funcs),
    })
}

fn key_of(alloc: Global, key: &str) -> Result<StatKey, AllocError> {
    let (name, step) = match key.split_once(':') {
        Some((name, step)) => (name, step.parse().ok()),
        None => (key, None),
    };
    let name = Text::try_of(alloc, name)?;
    Ok(StatKey { name, step })
}

fn func_of(alloc: Global, word: &str) -> Result<Option<Func>, AllocError> {
    let (word, only) = match word.split_once('?') {
        Some((word, test)) => (word, Some(exact_of(alloc, test)?)),
        None => (word, None),
    };
    let Some((call, name)) = word.split_once('>') else {
        return Ok(None);
    };
    let (call, names) = call.split_once(':').unwrap_or((call, ""));
    let Some(call) = call_of(call) else {
        return Ok(None);
    };
    Ok(Some(Func {
        call,
        names: names_of(alloc, names)?,
        only,
        name: Text::try_of(alloc, name)?,
    }))
}

fn call_of(word: &str) -> Option<Call> {
    match word {
        "count" => Some(Call::Count),
        "count_empty" => Some(Call::CountEmpty),
        "count_uniq" => Some(Call::CountUniq),
        "sum" => Some(Call::Sum),
        "min" => Some(Call::Min),
        "max" => Some(Call::Max),
        "uniq_values" => Some(Call::UniqValues),
        _ => None,
    }
}

/// Returns the filter of a field and the text that it is, as `field=text`.
fn exact_of(alloc: Global, test: &str) -> Result<Filter, AllocError> {
    let (field, text) = test.split_once('=').unwrap_or((test, ""));
    let field = Text::try_of(alloc, field)?;
    let text = Text::try_of(alloc, text)?;
    Ok(Filter::Exact { field, text })
}

fn names_of(alloc: Global, text: &str) -> Result<Items<Text>, AllocError> {
    let mut names = Vec::new(alloc);
    if !text.is_empty() {
        for name in text.split(',') {
            names.push(Text::try_of(alloc, name)?)?;
        }
    }
    Ok(Items::of(names))
}

/// Returns the record of fields as `name=value`, with `&` between them.
pub fn record_of(alloc: Global, fields: &str) -> Result<FieldList, AllocError> {
    let mut record = FieldList::new(alloc);
    for field in fields.split('&') {
        if let Some((name, value)) = field.split_once('=') {
            if !name.is_empty() {
                record.set(alloc, name, value)?;
            }
        }
    }
    Ok(record)
}
