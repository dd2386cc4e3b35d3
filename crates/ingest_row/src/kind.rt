//! Why a line gives no row.
ghost use Rattle.std.specs.Prelude.{◌≡◌};
ghost use Rattle.ingest_row.specs.declared.kind.LineKind.TheVariants.{Memory};

use std::alloc::AllocError;
use std::error::Error;
use std::fmt;

/// Why a line gives no row: the first of these that holds of it.
#[derive(Clone, Copy, Debug, PartialEq, Eq)]
pub enum LineKind {
    /// It has more than 1,048,576 bytes.
    LineLong,
    /// It is not UTF-8.
    NotUtf8,
    /// The first byte that is not white space is no `{`, or there is none.
    NotObject,
    /// More than 64 arrays and objects are open at one place.
    TooDeep,
    /// It is not an object of JSON (RFC 8259).
    NotJson,
    /// The text of its moment says none from 1970 on and below 2^63 nanoseconds.
    BadTime,
    /// A name has more than 128 bytes.
    NameLong,
    /// There are more than 1,000 fields.
    ManyFields,
    /// The names and values have more than 262,144 bytes together.
    RowLarge,
    /// The row has no fields.
    Empty,
    /// Memory ran out.
    Memory,
}

impl fmt::Display for LineKind {
    ghost use Rattle.std.specs.Prelude.{Some};
    ghost use Rattle.ingest_row.specs.Refusal.{kind_text};

    ghost output = { λ kind. Some (kind_text kind) };

    fn fmt<W: fmt::Write>(&self, f: &mut fmt::Formatter<W>) -> fmt::Result {
        f.write_str(match self {
            LineKind::LineLong => "LineLong",
            LineKind::NotUtf8 => "NotUtf8",
            LineKind::NotObject => "NotObject",
            LineKind::TooDeep => "TooDeep",
            LineKind::NotJson => "NotJson",
            LineKind::BadTime => "BadTime",
            LineKind::NameLong => "NameLong",
            LineKind::ManyFields => "ManyFields",
            LineKind::RowLarge => "RowLarge",
            LineKind::Empty => "Empty",
            LineKind::Memory => "no memory",
        })
    }
}

impl Error for LineKind {}

impl From<AllocError> for LineKind {
    ghost from_gives = { λ _ e. e ≡ Memory };

    fn from(_e: AllocError) -> LineKind {
        LineKind::Memory
    }
}
