//! What words ask for, as text.
use command_line::{Command, UsageFault, read_words};
use std::alloc::{AllocError, Global};
use vl_row::Text;

pub fn answer(alloc: Global, line: &str) -> Result<String, AllocError> {
    let words = words_of(alloc, line)?;
    match read_words(alloc, words.as_slice()) {
        Ok(command) => shown(alloc, &command),
        Err(UsageFault::Memory) => Err(AllocError),
        Err(fault) => format!(in alloc; "{fault}"),
    }
}

fn words_of<'a>(alloc: Global, line: &'a str) -> Result<Vec<&'a str>, AllocError> {
    let mut words = Vec::new(alloc);
    if line.is_empty() {
        return Ok(words);
    }
    for word in line.split(' ') {
        words.push(if word == "''" { "" } else { word })?;
    }
    Ok(words)
}

fn shown(alloc: Global, command: &Command) -> Result<String, AllocError> {
    let mut text = String::new(alloc);
    match command {
        Command::Pipe {
            stream_fields,
            query,
        } => {
            write!(text, "pipe <{}>", query.as_str())?;
            push_option(stream_fields.as_ref(), "stream fields", &mut text)?;
        }
        Command::Load { dir, stream_fields } => {
            write!(text, "load <{}>", dir.as_str())?;
            push_option(stream_fields.as_ref(), "stream fields", &mut text)?;
        }
        Command::Query { dir, query } => write!(
            text,
            "query <{}> <{}>",
            dir.as_str(),
            query.as_str()
        )?,
        Command::Trial { seed, rows } => write!(text, "trial {seed} {rows}")?,
        Command::Serve {
            dir,
            http,
            syslog,
            workers,
        } => {
            write!(
                text,
                "serve {workers} <{}> <{}>",
                dir.as_str(),
                http.as_str()
            )?;
            push_option(syslog.as_ref(), "syslog", &mut text)?;
        }
    }
    Ok(text)
}

fn push_option(value: Option<&Text>, name: &str, text: &mut String) -> Result<(), AllocError> {
    match value {
        Some(value) => write!(text, ", {name} <{}>", value.as_str()),
        None => Ok(()),
    }
}
