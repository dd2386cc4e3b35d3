//! Patterns of texts with named places, as `extract` and `format` have them (LogsQL, "Pipes that make fields").
ghost use Rattle.std.specs.Prelude.{◌≡◌, [], ◌∷◌, ◌++◌, map, Bool, Err, IfOk, OnOk, None, Some};
ghost use Rattle.lq_ast.specs.MakingView.{pattern_piece, pattern_pieces};
ghost use Rattle.lq_ast.specs.PatternText.{can_extract, has_touching_names, is_name, named, pattern_of, pieces_of};
ghost use Rattle.lq_ast.specs.PatternText.{plain_pieces};
ghost use Rattle.lq_ast.specs.declared.pattern.PatternFault.TheVariants.{BadPattern, Memory};

use std::alloc::{AllocError, Global};
use vl_row::{Items, Text};

/// Texts and names, in their order.
#[derive(Drop)]
pub struct Pattern {
    pub pieces: Items<Piece>,
}

/// A piece of a pattern.
#[derive(Drop)]
pub enum Piece {
    /// A text that stands for itself.
    Plain(Text),
    /// The name of a field, which stands in angle brackets.
    Name(Text),
}

/// Why a text is no pattern.
#[derive(Drop, Clone, Copy, Debug, PartialEq, Eq)]
pub enum PatternFault {
    /// A `<` has no later `>`; or, where values are taken out, there is no name, or two names stand without a text
    /// between.
    BadPattern,
    /// Out of memory.
    Memory,
}

impl From<AllocError> for PatternFault {
    ghost from_gives = { λ _ fault. fault ≡ Memory };

    fn from(_: AllocError) -> PatternFault {
        PatternFault::Memory
    }
}

impl Piece {
    /// Whether it is a name.
    fn is_name(&self) -> bool
        ensures { result ≡ is_name (pattern_piece self.now) }
    {
        match self {
            Piece::Plain(_) => false,
            Piece::Name(_) => true,
        }
    }
}

/// Reads a pattern: texts that stand for themselves, and names in angle brackets, each up to the first `>`. With
/// `extracting` set there has to be a name, and a text between each two. `BadPattern` comes only where the text is no
/// such pattern.
pub fn read_pattern(alloc: Global, s: &str, extracting: bool) -> Result<Pattern, PatternFault>
    ensures ok { IfOk result (λ pattern. pattern_of extracting s.now ≡ Some (pattern_pieces pattern)) }
    ensures bad { result ≡ Err BadPattern → pattern_of extracting s.now ≡ None }
{
    let pieces = read_pieces(alloc, s)?;
    if extracting && !can_extract(pieces.as_slice()) {
        return Err(PatternFault::BadPattern);
    }
    Ok(Pattern {
        pieces: Items::of(pieces),
    })
}

/// Returns the pieces of a text. `BadPattern` comes only where there are none.
fn read_pieces(alloc: Global, s: &str) -> Result<Vec<Piece>, PatternFault>
    ensures ok { IfOk result (λ pieces. pieces_of s.now ≡ Some (map pattern_piece pieces.items)) }
    ensures bad { result ≡ Err BadPattern → pieces_of s.now ≡ None }
{
    let mut pieces = Vec::new(alloc);
    let mut rest = s;
    'names: while let Some((text, behind)) = rest.split_once('<') {
        let Some((name, after)) = behind.split_once('>') else {
            return Err(PatternFault::BadPattern);
        };
        push_plain(alloc, text, &mut pieces)?;
        push_name(alloc, name, &mut pieces)?;
        rest = after;
    }
    push_plain(alloc, rest, &mut pieces)?;
    Ok(pieces)
}

/// Appends a text that stands for itself, if it is not empty.
fn push_plain(alloc: Global, text: &str, pieces: &mut Vec<Piece>) -> Result<(), AllocError>
    ensures { OnOk result (map pattern_piece pieces.new.items
        ≡ map pattern_piece pieces.old.items ++ plain_pieces text.now) }
{
    if !text.is_empty() {
        pieces.push(Piece::Plain(Text::try_of(alloc, text)?))?;
    }
    Ok(())
}

/// Appends a name.
fn push_name(alloc: Global, name: &str, pieces: &mut Vec<Piece>) -> Result<(), AllocError>
    ensures { OnOk result (map pattern_piece pieces.new.items
        ≡ map pattern_piece pieces.old.items ++ named name.now ∷ []) }
{
    pieces.push(Piece::Name(Text::try_of(alloc, name)?))?;
    Ok(())
}

/// Whether values can be taken out by the pieces.
fn can_extract(pieces: &[Piece]) -> bool
    ensures { result ≡ can_extract (map pattern_piece pieces.now) }
{
    pieces.iter().any(|piece| piece.is_name()) && !has_touching_names(pieces)
}

/// Whether two names stand without a text between.
fn has_touching_names(pieces: &[Piece]) -> bool
    ensures { result ≡ has_touching_names (map pattern_piece pieces.now) }
{
    let mut follows_name = false;
    for piece in pieces {
        let is_name = piece.is_name();
        if follows_name && is_name {
            return true;
        }
        follows_name = is_name;
    }
    false
}
