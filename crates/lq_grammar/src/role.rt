// What a token is to the grammar.
ghost use Rattle.std.specs.Prelude.{◌≡◌, ◌<◌};
ghost use Rattle.lq_grammar.specs.Roles.{number as number_of, apart_by};

/// A word that the grammar names, another word, a quoted text or a mark.
///
/// They stand in an order in which each class of words lies together.
#[derive(Clone, Copy, PartialEq, Eq)]
pub enum Role {
    // Words that are not names.
    And,
    Or,
    Not,
    // Words that are not names in some pipes.
    Asc,
    Desc,
    As,
    Div,
    Mod,
    /// The word `if`, which is not a name before a parenthesis.
    If,
    // Words that begin pipes.
    /// `fields` or `keep`.
    Fields,
    /// `delete`, `del`, `rm` or `drop`.
    Delete,
    /// `rename` or `mv`.
    Rename,
    /// `copy` or `cp`.
    Copy,
    Limit,
    Head,
    Offset,
    Skip,
    /// `sort` or `order`.
    Sort,
    Uniq,
    Stats,
    /// `filter` or `where`.
    Filter,
    Top,
    Extract,
    Format,
    Len,
    Math,
    // Words inside pipes.
    By,
    From,
    With,
    Hits,
    // Functions of `stats`.
    Count,
    CountEmpty,
    CountUniq,
    Sum,
    Min,
    Max,
    UniqValues,
    /// A word that the grammar does not name.
    Bare,
    // Words that call a filter.
    In,
    I,
    Seq,
    LenRange,
    StringRange,
    Range,
    /// The word `_time`.
    Time,
    /// The word `_stream`.
    Stream,
    /// The text `_time` in quotation marks.
    QuotedTime,
    /// Any other quoted text.
    Quoted,
    Bar,
    Open,
    Close,
    SquareOpen,
    SquareClose,
    CurlyOpen,
    CurlyClose,
    Comma,
    Colon,
    Equals,
    Bang,
    Tilde,
    Star,
    Less,
    Greater,
    Minus,
    Plus,
}

/// Returns the number of a role.
pub(crate) fn number(role: Role) -> u8
    ensures value { result ≡ number_of role }
    ensures bound { number_of role < apart_by }
{
    role as u8
}

/// A list of roles in which the words stand that are names wherever a name may, but for BY, DIV and MOD.
macro_rules! with_other_names {
    ($($before:ident)*; $($behind:ident)*) => {
        &[
            $(Role::$before,)*
            Role::Fields,
            Role::Delete,
            Role::Rename,
            Role::Copy,
            Role::Limit,
            Role::Head,
            Role::Offset,
            Role::Skip,
            Role::Sort,
            Role::Uniq,
            Role::Stats,
            Role::Filter,
            Role::Top,
            Role::Extract,
            Role::Format,
            Role::Len,
            Role::Math,
            Role::From,
            Role::With,
            Role::Hits,
            Role::Count,
            Role::CountEmpty,
            Role::CountUniq,
            Role::Sum,
            Role::Min,
            Role::Max,
            Role::UniqValues,
            Role::Bare,
            $(Role::$behind,)*
        ]
    };
}

/// Words that call nothing in a filter, but for `_time` and `_stream`.
pub const PLAIN_WORDS: &[Role] = with_other_names!(Asc Desc As If By Div Mod;);

/// What may be a word, a name or an argument.
pub const WORDS: &[Role] = with_other_names!(
    Asc Desc As If By Div Mod;
    In I Seq LenRange StringRange Range Time Stream QuotedTime Quoted
);

/// Bare tokens.
pub const BARES: &[Role] = with_other_names!(
    And Or Not Asc Desc As If By Div Mod;
    In I Seq LenRange StringRange Range Time Stream
);

/// Bare tokens, but for BY.
pub const OTHER_BARES: &[Role] = with_other_names!(
    And Or Not Asc Desc As If Div Mod;
    In I Seq LenRange StringRange Range Time Stream
);

/// Any Bare or Quoted token.
pub const TEXTS: &[Role] = with_other_names!(
    And Or Not Asc Desc As If By Div Mod;
    In I Seq LenRange StringRange Range Time Stream QuotedTime Quoted
);

/// Names in a list in which `asc`, `desc` and `as` are keywords.
pub const LIST_NAMES: &[Role] = with_other_names!(
    If By Div Mod;
    In I Seq LenRange StringRange Range Time Stream QuotedTime Quoted
);

/// The same where `if` may be a keyword, too.
pub const VALUE_NAMES: &[Role] = with_other_names!(
    By Div Mod;
    In I Seq LenRange StringRange Range Time Stream QuotedTime Quoted
);

/// Names in a pipe that sets fields.
pub const SET_NAMES: &[Role] = with_other_names!(
    Asc Desc If By;
    In I Seq LenRange StringRange Range Time Stream QuotedTime Quoted
);

/// Bare tokens that are operands in an expression.
pub const ATOM_BARES: &[Role] = with_other_names!(
    And Or Not Asc Desc If By;
    In I Seq LenRange StringRange Range Time Stream
);

/// Names but for `_time`.
pub const KEY_NAMES: &[Role] = with_other_names!(
    Asc Desc As If By Div Mod;
    In I Seq LenRange StringRange Range Stream QuotedTime Quoted
);

/// Names but for `_time` and `_stream`.
pub const COMMON_NAMES: &[Role] = with_other_names!(
    Asc Desc As If By Div Mod;
    In I Seq LenRange StringRange Range Quoted
);

/// Quoted tokens.
pub const QUOTED: &[Role] = &[Role::QuotedTime, Role::Quoted];

/// What a run goes on with.
pub const RUN_PARTS: &[Role] = with_other_names!(
    Colon Minus Plus And Or Not Asc Desc As If By Div Mod;
    In I Seq LenRange StringRange Range Time Stream
);

/// What denies a filter.
pub const NEGATIONS: &[Role] = &[Role::Not, Role::Bang, Role::Minus];

/// What begins a filter after another one, but for the bracket of a selector.
pub const UNARY: &[Role] = with_other_names!(
    And Not Bang Minus Open Asc Desc As If By Div Mod;
    In I Seq LenRange StringRange Range Time Stream QuotedTime Quoted Equals Tilde Greater Less Star
);
