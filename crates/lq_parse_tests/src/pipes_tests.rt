// Pipes as texts.
use crate::row_pipes_tests::push_row_pipe;
use crate::shown_tests::{DEPTH, push_filter, push_number, push_text, push_texts};
use lq_ast::{Call, Func, Pair, Pipe, SortPipe, StatsPipe, UniqPipe};
use std::alloc::AllocError;

/// Appends pipes, each after a bar.
pub(crate) fn push_pipes(pipes: &[Pipe], out: &mut String) -> Result<(), AllocError> {
    for pipe in pipes {
        out.push_str(word_of(pipe))?;
        push_pipe(pipe, out)?;
    }
    Ok(())
}

fn word_of(pipe: &Pipe) -> &'static str {
    match pipe {
        Pipe::Fields(_) => " | fields",
        Pipe::Delete(_) => " | delete",
        Pipe::Rename(_) => " | rename",
        Pipe::Copy(_) => " | copy",
        Pipe::Limit(_) => " | limit",
        Pipe::Offset(_) => " | offset",
        Pipe::Sort(_) => " | sort",
        Pipe::Uniq(_) => " | uniq",
        Pipe::Stats(_) => " | stats",
        Pipe::Keep(_) => " | keep ",
        Pipe::Top(_) => " | top",
        Pipe::Make(_) => " | ",
    }
}

/// Appends what follows the word of a pipe.
fn push_pipe(pipe: &Pipe, out: &mut String) -> Result<(), AllocError> {
    match pipe {
        Pipe::Fields(names) | Pipe::Delete(names) => push_texts(names.as_slice(), out),
        Pipe::Rename(pairs) | Pipe::Copy(pairs) => push_pairs(pairs.as_slice(), out),
        Pipe::Limit(count) | Pipe::Offset(count) => push_number(i128::from(*count), out),
        Pipe::Sort(sort) => push_sort(sort, out),
        Pipe::Uniq(uniq) => push_uniq(uniq, out),
        Pipe::Stats(stats) => push_stats(stats, out),
        Pipe::Keep(filter) => push_filter(filter, DEPTH, out),
        Pipe::Top(top) => {
            push_number(i128::from(top.n), out)?;
            push_texts(top.names.as_slice(), out)
        }
        Pipe::Make(pipe) => push_row_pipe(pipe, out),
    }
}

fn push_pairs(pairs: &[Pair], out: &mut String) -> Result<(), AllocError> {
    for pair in pairs {
        push_text(&pair.from, out)?;
        out.push_str(" to")?;
        push_text(&pair.to, out)?;
    }
    Ok(())
}

fn push_limit(limit: Option<u64>, out: &mut String) -> Result<(), AllocError> {
    let Some(limit) = limit else {
        return Ok(());
    };
    out.push_str(" limit")?;
    push_number(i128::from(limit), out)
}

fn push_sort(sort: &SortPipe, out: &mut String) -> Result<(), AllocError> {
    for key in sort.keys.as_slice() {
        push_text(&key.name, out)?;
        out.push_str(if key.desc { " desc" } else { "" })?;
    }
    out.push_str(" offset")?;
    push_number(i128::from(sort.offset), out)?;
    push_limit(sort.limit, out)
}

fn push_uniq(uniq: &UniqPipe, out: &mut String) -> Result<(), AllocError> {
    push_texts(uniq.names.as_slice(), out)?;
    out.push_str(if uniq.hits { " hits" } else { "" })?;
    push_limit(uniq.limit, out)
}

fn push_stats(stats: &StatsPipe, out: &mut String) -> Result<(), AllocError> {
    for key in stats.keys.as_slice() {
        push_text(&key.name, out)?;
        if let Some(step) = key.step {
            out.push_str(" by")?;
            push_number(i128::from(step), out)?;
        }
    }
    for func in stats.funcs.as_slice() {
        push_func(func, out)?;
    }
    Ok(())
}

fn push_func(func: &Func, out: &mut String) -> Result<(), AllocError> {
    out.push_str(call_text(func.call))?;
    push_texts(func.names.as_slice(), out)?;
    if let Some(only) = &func.only {
        out.push_str(" if ")?;
        push_filter(only, DEPTH, out)?;
    }
    out.push_str(" as")?;
    push_text(&func.name, out)
}

fn call_text(call: Call) -> &'static str {
    match call {
        Call::Count => "; count",
        Call::CountEmpty => "; count_empty",
        Call::CountUniq => "; count_uniq",
        Call::Sum => "; sum",
        Call::Min => "; min",
        Call::Max => "; max",
        Call::UniqValues => "; uniq_values",
    }
}
