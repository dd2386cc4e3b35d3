//! Reads the format of the cases.
use crate::program_tests::{Setting, ask};
use std::alloc::{AllocError, AllocGlobal, Global};
use std::random::RandomSource;
use std::sync::Wait;
use std::thread::Threads;
use time_text::read_moment;

/// What the next line belongs to.
#[derive(Clone, Copy, Debug, PartialEq, Eq)]
enum Part {
    /// Comments, titles, settings and the first line of a query.
    Head,
    Rows,
    Query,
    Wanted,
}

/// Reads one line after another.
#[derive(Drop)]
pub struct Reader {
    part: Part,
    setting: Setting,
    query: String,
}

impl Reader {
    /// At the start of a file.
    pub fn new(alloc: Global) -> Reader {
        Reader {
            part: Part::Head,
            setting: Setting::new(alloc),
            query: String::new(alloc),
        }
    }

    /// Reads a line, and returns what is to be printed for it: the line, or nothing for a wanted line. After `----`
    /// comes what the program printed.
    pub fn read<R: AllocGlobal + Threads + Wait + RandomSource + Sync>(
        &mut self,
        rt: &R,
        line: &str,
    ) -> Result<String, AllocError> {
        let alloc = rt.alloc();
        if line.is_empty() {
            return self.end_block(alloc);
        }
        match self.part {
            Part::Head => self.read_head(alloc, line),
            Part::Rows => self.read_row(alloc, line),
            Part::Query => self.read_query(rt, line),
            Part::Wanted => Ok(String::new(alloc)),
        }
    }

    /// Reads a blank line, which ends a block. A query without `----` is a mistake.
    fn end_block(&mut self, alloc: Global) -> Result<String, AllocError> {
        let is_cut = self.part == Part::Query;
        self.part = Part::Head;
        if is_cut {
            return copied(alloc, "no ---- after this query\n\n");
        }
        copied(alloc, "\n")
    }

    fn read_head(&mut self, alloc: Global, line: &str) -> Result<String, AllocError> {
        if let Some(query) = line.strip_prefix("query ") {
            self.query = copied(alloc, query)?;
            self.part = Part::Query;
        } else if line == "rows" {
            self.setting.rows = String::new(alloc);
            self.part = Part::Rows;
        } else if line.starts_with("file ") {
            self.setting = Setting::new(alloc);
        } else if !line.starts_with("# ") && !line.starts_with("case ") {
            return self.read_option(alloc, line);
        }
        shown(alloc, line)
    }

    fn read_option(&mut self, alloc: Global, line: &str) -> Result<String, AllocError> {
        if let Some(names) = line.strip_prefix("stream_fields ") {
            self.setting.stream_fields = copied(alloc, names)?;
            return shown(alloc, line);
        }
        let moment = line.strip_prefix("now ").unwrap_or("");
        let Ok(now) = read_moment(moment) else {
            return format!(in alloc; "no such line: {line}\n");
        };
        self.setting.now = now;
        shown(alloc, line)
    }

    fn read_row(&mut self, alloc: Global, line: &str) -> Result<String, AllocError> {
        if line.starts_with("query ") {
            return self.read_head(alloc, line);
        }
        self.setting.rows.push_str(line)?;
        self.setting.rows.push('\n')?;
        shown(alloc, line)
    }

    fn read_query<R: AllocGlobal + Threads + Wait + RandomSource + Sync>(
        &mut self,
        rt: &R,
        line: &str,
    ) -> Result<String, AllocError> {
        let mut out = shown(rt.alloc(), line)?;
        if line != "----" {
            self.query.push('\n')?;
            self.query.push_str(line)?;
            return Ok(out);
        }
        self.part = Part::Wanted;
        let printed = ask(rt, &self.setting, self.query.as_str())?;
        out.push_str(printed.as_str())?;
        Ok(out)
    }
}

/// The line, with its end.
fn shown(alloc: Global, line: &str) -> Result<String, AllocError> {
    format!(in alloc; "{line}\n")
}

/// The text, copied.
fn copied(alloc: Global, text: &str) -> Result<String, AllocError> {
    format!(in alloc; "{text}")
}
