// What tokens are to the grammar.
ghost use Rattle.std.specs.Prelude.{◌≡◌, map};
ghost use Rattle.std.specs.Str.{str_to_ascii_lowercase};
ghost use Rattle.lq_grammar.specs.Items.{keyword_role, word_role, quoted_role, bracket_role, sign_role, mark_role};
ghost use Rattle.lq_grammar.specs.Items.{role_of, role_in, entry_of};

use crate::role::Role;
use lq_lex::Kind;

/// Returns the role of a token, by its kind, its span and the text that it stands for.
pub(crate) fn role_of(kind: Kind, span: &str, text: &str) -> Role
    ensures { result ≡ role_of kind span.now text.now }
{
    match kind {
        Kind::Bare => word_role(span),
        Kind::Quoted if text == "_time" => Role::QuotedTime,
        Kind::Quoted => Role::Quoted,
        Kind::Mark(mark) => mark_role(mark),
    }
}

fn word_role(span: &str) -> Role
    ensures { result ≡ word_role span.now }
{
    if span == "_time" {
        Role::Time
    } else if span == "_stream" {
        Role::Stream
    } else {
        keyword_role(span)
    }
}

/// Words in lower case, and what each is.
const KEYWORDS: &[(&str, Role)] = &[
    ("and", Role::And),
    ("or", Role::Or),
    ("not", Role::Not),
    ("in", Role::In),
    ("i", Role::I),
    ("seq", Role::Seq),
    ("len_range", Role::LenRange),
    ("string_range", Role::StringRange),
    ("range", Role::Range),
    ("fields", Role::Fields),
    ("keep", Role::Fields),
    ("delete", Role::Delete),
    ("del", Role::Delete),
    ("rm", Role::Delete),
    ("drop", Role::Delete),
    ("rename", Role::Rename),
    ("mv", Role::Rename),
    ("copy", Role::Copy),
    ("cp", Role::Copy),
    ("limit", Role::Limit),
    ("head", Role::Head),
    ("offset", Role::Offset),
    ("skip", Role::Skip),
    ("sort", Role::Sort),
    ("order", Role::Sort),
    ("uniq", Role::Uniq),
    ("stats", Role::Stats),
    ("filter", Role::Filter),
    ("where", Role::Filter),
    ("top", Role::Top),
    ("by", Role::By),
    ("asc", Role::Asc),
    ("desc", Role::Desc),
    ("as", Role::As),
    ("with", Role::With),
    ("hits", Role::Hits),
    ("if", Role::If),
    ("count", Role::Count),
    ("count_empty", Role::CountEmpty),
    ("count_uniq", Role::CountUniq),
    ("sum", Role::Sum),
    ("min", Role::Min),
    ("max", Role::Max),
    ("uniq_values", Role::UniqValues),
    ("extract", Role::Extract),
    ("format", Role::Format),
    ("from", Role::From),
    ("len", Role::Len),
    ("math", Role::Math),
    ("div", Role::Div),
    ("mod", Role::Mod),
];

/// Returns what a word is that is not `_time` or `_stream`.
fn keyword_role(span: &str) -> Role
    ensures { result ≡ keyword_role span.now }
{
    role_in(KEYWORDS, span)
}

/// Returns the role of a word, in any case, by the first entry that has it.
fn role_in(entries: &[(&str, Role)], span: &str) -> Role
    ensures { result ≡ role_in (map entry_of entries.now) (str_to_ascii_lowercase span.now) }
{
    for (word, role) in entries {
        if span.eq_ignore_ascii_case(word) {
            return *role;
        }
    }
    Role::Bare
}

fn mark_role(mark: u8) -> Role
    ensures { result ≡ mark_role mark }
{
    match mark {
        b',' => Role::Comma,
        b':' => Role::Colon,
        _ => sign_role(mark),
    }
}

fn sign_role(mark: u8) -> Role
    ensures { result ≡ sign_role mark }
{
    match mark {
        b'=' => Role::Equals,
        b'!' => Role::Bang,
        b'~' => Role::Tilde,
        b'*' => Role::Star,
        b'<' => Role::Less,
        b'>' => Role::Greater,
        b'-' => Role::Minus,
        b'+' => Role::Plus,
        _ => bracket_role(mark),
    }
}

fn bracket_role(mark: u8) -> Role
    ensures { result ≡ bracket_role mark }
{
    match mark {
        b'(' => Role::Open,
        b')' => Role::Close,
        b'[' => Role::SquareOpen,
        b']' => Role::SquareClose,
        b'{' => Role::CurlyOpen,
        b'}' => Role::CurlyClose,
        _ => Role::Bar,
    }
}
