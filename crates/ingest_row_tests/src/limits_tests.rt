//! What no line of `stdin` shows: bodies, and lines at their limits. The lines came in 5 ns after 1970 began.
use crate::answers_tests::row_text;
use ingest_row::{Intake, LineKind, Options, Weighed, batch_of_body, row_of_line, weigh_body};
use std::alloc::{AllocError, Global};
use vl_row::Field;

/// Returns the rows of a body, and then the numbers and the kinds of its refused lines.
fn intake_text(alloc: Global, intake: &Intake) -> Result<String, AllocError> {
    let mut text = String::new(alloc);
    for row in intake.rows.as_slice() {
        write!(text, "{}; ", row_text(alloc, row)?)?;
    }
    for fault in intake.refused.as_slice() {
        write!(text, "{} {}; ", fault.line, fault.kind)?;
    }
    Ok(text)
}

fn gives(alloc: Global, body: &[u8], wanted: &str) -> Result<bool, AllocError> {
    let options = Options::plain(alloc);
    let intake = batch_of_body(alloc, &options, 5, body)?;
    let Weighed::Light(weighed) = weigh_body(alloc, &options, 5, body)? else {
        return Ok(false);
    };
    Ok(
        intake_text(alloc, &intake)?.as_str() == wanted
            && intake_text(alloc, &weighed)?.as_str() == wanted,
    )
}

/// Bodies, with their rows and their refused lines.
const BODIES: &[(&[u8], &str)] = &[
    (b"", ""),
    (b"\n\n \r\n\t", ""),
    (
        b"{\"a\":1}\n{\"a\":2}\r\n{\"a\":3}",
        "5  [a:1]; 5  [a:2]; 5  [a:3]; ",
    ),
    (
        b"\nx\n \n{\"a\":1}\n\n{\"_time\":-1}\n{}\n",
        "5  [a:1]; 2 NotObject; 6 BadTime; 7 Empty; ",
    ),
    (b"{\"a\":\"\xff\"}\n{\"a\":\"b\"}", "5  [a:b]; 1 NotUtf8; "),
];

/// Returns whether each body has these rows and these refused lines.
fn bodies_are_read(alloc: Global) -> Result<bool, AllocError> {
    for (body, wanted) in BODIES {
        if !gives(alloc, body, wanted)? {
            return Ok(false);
        }
    }
    Ok(true)
}

/// A line that is long: what stands in front, a piece that is repeated, how often, and what stands after.
#[derive(Clone, Copy)]
struct Long<'a> {
    first: &'a str,
    piece: &'a str,
    count: usize,
    last: &'a str,
}

impl Long<'_> {
    fn text(&self, alloc: Global) -> Result<String, AllocError> {
        let mut line = String::from_str(alloc, self.first)?;
        for _ in 0..self.count {
            line.push_str(self.piece)?;
        }
        line.push_str(self.last)?;
        Ok(line)
    }
}

fn kind_of(alloc: Global, line: &str) -> Option<LineKind> {
    row_of_line(alloc, &Options::plain(alloc), 5, line.as_bytes()).err()
}

/// Returns the name of the fault of a line, or `row`.
fn kind_text(alloc: Global, line: &str) -> Result<String, AllocError> {
    match kind_of(alloc, line) {
        Some(kind) => format!(in alloc; "{kind}"),
        None => format!(in alloc; "row"),
    }
}

/// Returns the number that a text is, or 0.
fn count_of(text: &str) -> usize {
    text.parse::<u32>().unwrap_or(0) as usize
}

/// Returns the fault of such a line, and that of the line with the piece once less.
pub fn long_text(alloc: Global, case: &str) -> Result<String, AllocError> {
    let (count, rest) = case.split_once('|').unwrap_or((case, ""));
    let (first, rest) = rest.split_once('|').unwrap_or((rest, ""));
    let (piece, last) = rest.split_once('|').unwrap_or((rest, ""));
    let count = count_of(count);
    let line = Long {
        first,
        piece,
        count,
        last,
    };
    let shorter = Long {
        count: count.saturating_sub(1),
        ..line
    };
    let kind = kind_text(alloc, line.text(alloc)?.as_str())?;
    let shorter = kind_text(alloc, shorter.text(alloc)?.as_str())?;
    format!(in alloc; "{kind} {shorter}")
}

/// Returns the fault of a line of this many members, or `row`.
pub fn members_text(alloc: Global, count: &str) -> Result<String, AllocError> {
    let mut line = String::from_str(alloc, "{")?;
    for n in 1..count_of(count) {
        write!(line, "\"{n}\":0,")?;
    }
    line.push_str("\"0\":0}")?;
    kind_text(alloc, line.as_str())
}

/// Returns what one argument asks for.
fn asked(alloc: Global, name: &str, value: &str) -> Result<Option<Options>, AllocError> {
    let argument = Field::try_of(alloc, name, value)?;
    Ok(Options::read(alloc, &[argument]).ok())
}

/// A line of 20 kB: an outer name of 9 kB with a thousand members.
fn outer_name(alloc: Global) -> Result<String, AllocError> {
    let mut line = String::from_str(alloc, "{\"")?;
    for _ in 0..9_000 {
        line.push_str("a")?;
    }
    line.push_str("\":{")?;
    for n in 1..1_000 {
        write!(line, "\"b{n}\":\"v\",")?;
    }
    line.push_str("\"b\":\"v\"}}")?;
    Ok(line)
}

/// Returns whether the names of a line with a long outer name are not read, since no option asks for one.
fn long_names_are_left(alloc: Global) -> Result<bool, AllocError> {
    Ok(kind_of(alloc, outer_name(alloc)?.as_str()) == Some(LineKind::NameLong))
}

/// Returns whether such names are copied where an option names a long one, up to 64 times the line's bytes.
fn long_names_are_copied(alloc: Global) -> Result<bool, AllocError> {
    let line = outer_name(alloc)?;
    let name = Long {
        first: "",
        piece: "n",
        count: 129,
        last: "",
    };
    let Some(options) = asked(alloc, "ignore_fields", name.text(alloc)?.as_str())? else {
        return Ok(false);
    };
    let kind = row_of_line(alloc, &options, 5, line.as_bytes()).err();
    Ok(kind == Some(LineKind::Memory))
}

/// Returns whether the check of this name holds.
pub fn holds(alloc: Global, name: &str) -> Result<bool, AllocError> {
    match name {
        "bodies_are_read" => bodies_are_read(alloc),
        "long_names_are_left" => long_names_are_left(alloc),
        "long_names_are_copied" => long_names_are_copied(alloc),
        _ => Ok(false),
    }
}

/// Returns how many rows a body has, and what they weigh if that is too much for a batch.
fn weighs(alloc: Global, options: &Options, body: &str) -> Result<(usize, u64), AllocError> {
    match weigh_body(alloc, options, 5, body.as_bytes())? {
        Weighed::Light(intake) => Ok((intake.rows.as_slice().len(), 0)),
        Weighed::Heavy { weight } => Ok((0, weight)),
    }
}

const HUNDRED: &str =
    "vvvvvvvvvvvvvvvvvvvvvvvvvvvvvvvvvvvvvvvvvvvvvvvvvvvvvvvvvvvvvvvvvvvvvvvvvvvvvvvvvvvvvvvvvvvvvvvvvvvv";

/// Weighs a body of this many lines of 200 kB.
fn long_lines(alloc: Global, lines: usize) -> Result<(usize, u64), AllocError> {
    let line = Long {
        first: "{\"a\":\"b\",\"f\":\"",
        piece: HUNDRED,
        count: 2_000,
        last: "\"}\n",
    };
    let line = line.text(alloc)?;
    let mut body = String::new(alloc);
    for _ in 0..lines {
        body.push_str(line.as_str())?;
    }
    weighs(alloc, &Options::plain(alloc), body.as_str())
}

/// Weighs a body of these lines, to each of which 200 kB are added. The field that is added may be a label, too.
fn added_lines(alloc: Global, labels: &str, lines: Long<'_>) -> Result<(usize, u64), AllocError> {
    let value = Long {
        first: "f=",
        piece: HUNDRED,
        count: 2_000,
        last: "",
    };
    let value = value.text(alloc)?;
    let fields = Field::try_of(alloc, "extra_fields", value.as_str())?;
    let labels = Field::try_of(alloc, "_stream_fields", labels)?;
    let Some(options) = Options::read(alloc, &[fields, labels]).ok() else {
        return Ok((0, 0));
    };
    weighs(alloc, &options, lines.text(alloc)?.as_str())
}

/// Weighs a body of this many equal lines, each with this many blanks at its end, in the same way.
fn equal_lines(
    alloc: Global,
    count: usize,
    labels: &str,
    blanks: usize,
    text: &str,
) -> Result<(usize, u64), AllocError> {
    let line = Long {
        first: text,
        piece: " ",
        count: blanks,
        last: "\n",
    };
    let line = line.text(alloc)?;
    let lines = Long {
        first: "",
        piece: line.as_str(),
        count,
        last: "",
    };
    added_lines(alloc, labels, lines)
}

/// Returns how many rows are kept of a body of this many long lines, or what they weigh.
pub fn lines_text(alloc: Global, count: &str) -> Result<String, AllocError> {
    let (rows, weight) = long_lines(alloc, count_of(count))?;
    format!(in alloc; "{rows} {weight}")
}

/// Returns how many rows are kept of a body of equal lines, or what they weigh, or that memory ran out.
pub fn added_text(alloc: Global, case: &str) -> Result<String, AllocError> {
    let (count, rest) = case.split_once('|').unwrap_or((case, ""));
    let (labels, rest) = rest.split_once('|').unwrap_or((rest, ""));
    let (blanks, text) = rest.split_once('|').unwrap_or((rest, ""));
    match equal_lines(alloc, count_of(count), labels, count_of(blanks), text) {
        Ok((rows, weight)) => format!(in alloc; "{rows} {weight}"),
        Err(_) => format!(in alloc; "memory"),
    }
}
