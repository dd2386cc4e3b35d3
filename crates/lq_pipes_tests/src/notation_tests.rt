//! Pipes and records in a small notation. The pipes are:
//!
//! - `fields a,b` and `delete a,b`, `rename a>b,c>d` and `copy a>b,c>d`, `limit 1` and `offset 1`
//! - `sort by=a,-b offset=1 limit=1`, where the values of `b` go down from the greatest
//! - `uniq by=a,b hits limit=1` and `top by=a,b n=1`
//! - `stats by=a by=_time:60000000000 count>n sum:x>s?a=1`, with a step in nanoseconds
//! - `filter a=x`, `filter a!x` and `filter a~x`, for a field that is the text, one that is not, and one that the
//!   pattern matches; a function is asked of the records for which what stands after its `?` holds
use lq_ast::{
    Call, Filter, Func, Pair, Pipe, SortKey, SortPipe, StatKey, StatsPipe, TopPipe, UniqPipe,
};
use std::alloc::{AllocError, Global};
use vl_row::{FieldList, Items, Text};

/// Returns the pipes with `|` between them.
pub fn pipes_of(alloc: Global, text: &str) -> Result<Vec<Pipe>, AllocError> {
    let mut pipes = Vec::new(alloc);
    for part in text.split('|') {
        if let Some(pipe) = pipe_of(alloc, part)? {
            pipes.push(pipe)?;
        }
    }
    Ok(pipes)
}

fn pipe_of(alloc: Global, text: &str) -> Result<Option<Pipe>, AllocError> {
    let (word, rest) = text.split_once(' ').unwrap_or((text, ""));
    let pipe = match word {
        "fields" => Pipe::Fields(names_of(alloc, rest)?),
        "delete" => Pipe::Delete(names_of(alloc, rest)?),
        "rename" => Pipe::Rename(pairs_of(alloc, rest)?),
        "copy" => Pipe::Copy(pairs_of(alloc, rest)?),
        "limit" => Pipe::Limit(rest.parse().unwrap_or(0)),
        "offset" => Pipe::Offset(rest.parse().unwrap_or(0)),
        "sort" => Pipe::Sort(sort_of(alloc, rest)?),
        "uniq" => Pipe::Uniq(uniq_of(alloc, rest)?),
        "top" => Pipe::Top(top_of(alloc, rest)?),
        "stats" => Pipe::Stats(stats_of(alloc, rest)?),
        "filter" => Pipe::Keep(filter_of(alloc, rest)?),
        _ => return Ok(None),
    };
    Ok(Some(pipe))
}

fn names_of(alloc: Global, text: &str) -> Result<Items<Text>, AllocError> {
    let mut names = Vec::new(alloc);
    if !text.is_empty() {
        for name in text.split(',') {
            names.push(Text::try_of(alloc, name)?)?;
        }
    }
    Ok(Items::of(names))
}

fn pairs_of(alloc: Global, text: &str) -> Result<Items<Pair>, AllocError> {
    let mut pairs = Vec::new(alloc);
    for part in text.split(',') {
        let (from, to) = part.split_once('>').unwrap_or((part, part));
        let from = Text::try_of(alloc, from)?;
        let to = Text::try_of(alloc, to)?;
        pairs.push(Pair { from, to })?;
    }
    Ok(Items::of(pairs))
}

fn sort_of(alloc: Global, parts: &str) -> Result<SortPipe, AllocError> {
    let mut keys = Vec::new(alloc);
    for key in part(parts, "by=").unwrap_or("").split(',') {
        let (name, desc) = match key.strip_prefix('-') {
            Some(name) => (name, true),
            None => (key, false),
        };
        let name = Text::try_of(alloc, name)?;
        keys.push(SortKey { name, desc })?;
    }
    Ok(SortPipe {
        keys: Items::of(keys),
        limit: number(parts, "limit="),
        offset: number(parts, "offset=").unwrap_or(0),
    })
}

fn uniq_of(alloc: Global, parts: &str) -> Result<UniqPipe, AllocError> {
    Ok(UniqPipe {
        names: names_of(alloc, part(parts, "by=").unwrap_or(""))?,
        hits: part(parts, "hits").is_some(),
        limit: number(parts, "limit="),
    })
}

fn top_of(alloc: Global, parts: &str) -> Result<TopPipe, AllocError> {
    Ok(TopPipe {
        n: number(parts, "n=").unwrap_or(10),
        names: names_of(alloc, part(parts, "by=").unwrap_or(""))?,
    })
}

/// Returns what stands after these letters in one of the words.
fn part<'a>(parts: &'a str, letters: &str) -> Option<&'a str> {
    for word in parts.split(' ') {
        if let Some(value) = word.strip_prefix(letters) {
            return Some(value);
        }
    }
    None
}

fn number(parts: &str, letters: &str) -> Option<u64> {
    part(parts, letters)?.parse().ok()
}

fn stats_of(alloc: Global, words: &str) -> Result<StatsPipe, AllocError> {
    let mut keys = Vec::new(alloc);
    let mut funcs = Vec::new(alloc);
    for word in words.split(' ') {
        match word.strip_prefix("by=") {
            Some(key) => keys.push(key_of(alloc, key)?)?,
            None => {
                if let Some(func) = func_of(alloc, word)? {
                    funcs.push(func)?;
                }
            }
        }
    }
    Ok(StatsPipe {
        keys: Items::of(keys),
        funcs: Items::of(funcs),
    })
}

fn key_of(alloc: Global, key: &str) -> Result<StatKey, AllocError> {
    let (name, step) = match key.split_once(':') {
        Some((name, step)) => (name, step.parse().ok()),
        None => (key, None),
    };
    let name = Text::try_of(alloc, name)?;
    Ok(StatKey { name, step })
}

fn func_of(alloc: Global, word: &str) -> Result<Option<Func>, AllocError> {
    let (word, only) = match word.split_once('?') {
        Some((word, test)) => (word, Some(filter_of(alloc, test)?)),
        None => (word, None),
    };
    let Some((call, name)) = word.split_once('>') else {
        return Ok(None);
    };
    let (call, names) = call.split_once(':').unwrap_or((call, ""));
    let Some(call) = call_of(call) else {
        return Ok(None);
    };
    Ok(Some(Func {
        call,
        names: names_of(alloc, names)?,
        only,
        name: Text::try_of(alloc, name)?,
    }))
}

fn call_of(word: &str) -> Option<Call> {
    match word {
        "count" => Some(Call::Count),
        "count_empty" => Some(Call::CountEmpty),
        "count_uniq" => Some(Call::CountUniq),
        "sum" => Some(Call::Sum),
        "min" => Some(Call::Min),
        "max" => Some(Call::Max),
        "uniq_values" => Some(Call::UniqValues),
        _ => None,
    }
}

fn filter_of(alloc: Global, text: &str) -> Result<Filter, AllocError> {
    if let Some((field, text)) = text.split_once('=') {
        return exact_of(alloc, field, text);
    }
    if let Some((field, text)) = text.split_once('!') {
        return Ok(Filter::Not(Box::new(alloc, exact_of(alloc, field, text)?)?));
    }
    let (field, pattern) = text.split_once('~').unwrap_or((text, ""));
    let field = Text::try_of(alloc, field)?;
    let pattern = Text::try_of(alloc, pattern)?;
    Ok(Filter::Regex { field, pattern })
}

fn exact_of(alloc: Global, field: &str, text: &str) -> Result<Filter, AllocError> {
    let field = Text::try_of(alloc, field)?;
    let text = Text::try_of(alloc, text)?;
    Ok(Filter::Exact { field, text })
}

/// Returns the record of fields as `name=value`, with `&` between them.
pub fn record_of(alloc: Global, fields: &str) -> Result<FieldList, AllocError> {
    let mut record = FieldList::new(alloc);
    for field in fields.split('&') {
        if let Some((name, value)) = field.split_once('=') {
            if !name.is_empty() {
                record.set(alloc, name, value)?;
            }
        }
    }
    Ok(record)
}
