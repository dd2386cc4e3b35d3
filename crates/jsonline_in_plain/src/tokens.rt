// Arrays as compact JSON: their tokens with nothing between them.
ghost use Rattle.std.specs.Prelude.{◌≡◌, ◌<◌, ◌++◌, ◌∷◌, [], string_bytes};
ghost use Rattle.log_model.specs.Token.{string_source, scalar_source};
ghost use Rattle.log_model.specs.Value.{closing, opening, tokens, series, label_tokens};
ghost use Rattle.jsonline_in.specs.Reading.{name_at, characters_at, bare_at, label_at, nested_at, value_at};
ghost use Rattle.jsonline_in.specs.Reading.{item_at, items_at};
ghost use Rattle.jsonline_in.specs.Clauses.{ReadsAs, mapped, compact};
ghost use Rattle.jsonline_in_plain.specs.Parts.{kind_of};

use crate::bare::bare;
use crate::scan::{expect, past, prefix, skip_space};
use crate::text::string;
use jsonline_in::ScanFault;
use std::alloc::Global;

/// The brackets of an array or an object.
#[derive(Clone, Copy)]
pub(crate) enum Bracket {
    Square,
    Curly,
}

/// The tokens collected so far.
#[derive(Drop)]
pub(crate) struct Tokens {
    alloc: Global,
    pub(crate) text: String,
}

fn open(bracket: Bracket) -> &'static str
    ensures { result.now ≡ opening (kind_of bracket) ∷ [] }
{
    if matches!(bracket, Bracket::Square) {
        "["
    } else {
        "{"
    }
}

fn close(bracket: Bracket) -> u8
    ensures value { result ≡ closing (kind_of bracket) }
    ensures ascii { result < 128 }
{
    if matches!(bracket, Bracket::Square) {
        93
    } else {
        125
    }
}

impl Tokens {
    pub(crate) fn new(alloc: Global) -> Tokens
        ensures { string_bytes result.text ≡ [] }
    {
        let text = String::new(alloc);
        Tokens { alloc, text }
    }

    /// Adds a string as it is written. The text starts after its opening quote.
    fn string<'a>(&mut self, text: &'a str) -> Result<&'a str, ScanFault>
        ensures { ReadsAs (λ rest. (string_bytes self.new.text, rest.now)) result
            (mapped (λ characters. string_bytes self.old.text ++ string_source characters) (characters_at text.now)) }
    {
        let (_, rest) = string(self.alloc, text)?;
        self.text.push_str("\"")?;
        self.text.push_str(prefix(text, rest))?;
        Ok(rest)
    }

    /// Adds the name of a member and the colon. Returns the rest from the member's value on.
    fn name<'a>(&mut self, text: &'a str) -> Result<&'a str, ScanFault>
        ensures { ReadsAs (λ rest. (string_bytes self.new.text, rest.now)) result
            (mapped (λ label. string_bytes self.old.text ++ compact (label_tokens label)) (name_at text.now)) }
    {
        let inside = expect(text, b'"')?;
        let after_name = self.string(inside)?;
        let rest = expect(skip_space(after_name), b':')?;
        self.text.push_str(":")?;
        Ok(skip_space(rest))
    }

    fn label<'a>(&mut self, text: &'a str, bracket: Bracket) -> Result<&'a str, ScanFault>
        ensures { ReadsAs (λ rest. (string_bytes self.new.text, rest.now)) result
            (mapped (λ label. string_bytes self.old.text ++ compact (label_tokens label))
            (label_at (kind_of bracket) text.now)) }
    {
        match bracket {
            Bracket::Curly => self.name(text),
            Bracket::Square => Ok(text),
        }
    }

    fn bare<'a>(&mut self, text: &'a str) -> Result<&'a str, ScanFault>
        ensures { ReadsAs (λ rest. (string_bytes self.new.text, rest.now)) result
            (mapped (λ token. string_bytes self.old.text ++ scalar_source token) (bare_at text.now)) }
    {
        let (_, rest) = bare(text)?;
        self.text.push_str(prefix(text, rest))?;
        Ok(rest)
    }

    /// Adds the value at the start, with at most `depth` nested brackets. Returns the rest.
    #[cycle(tokens)]
    fn value<'a>(&mut self, text: &'a str, depth: u32) -> Result<&'a str, ScanFault>
        ensures { ReadsAs (λ rest. (string_bytes self.new.text, rest.now)) result
            (mapped (λ value. string_bytes self.old.text ++ compact (tokens value))
            (value_at (nested_at depth) text.now)) }
    {
        if let Some(inside) = past(text, b'{') {
            return self.nested(inside, Bracket::Curly, depth);
        }
        if let Some(inside) = past(text, b'"') {
            return self.string(inside);
        }
        if let Some(inside) = past(text, b'[') {
            return self.nested(inside, Bracket::Square, depth);
        }
        self.bare(text)
    }

    /// Adds an array or an object. The text starts after its opening bracket.
    #[cycle(tokens)]
    pub(crate) fn nested<'a>(
        &mut self,
        text: &'a str,
        bracket: Bracket,
        depth: u32,
    ) -> Result<&'a str, ScanFault>
        ensures { ReadsAs (λ rest. (string_bytes self.new.text, rest.now)) result
            (mapped (λ value. string_bytes self.old.text ++ compact (tokens value))
            (nested_at depth (kind_of bracket) text.now)) }
    {
        if depth == 0 {
            return Err(ScanFault::TooDeep);
        }
        self.text.push_str(open(bracket))?;
        let end = self.items(text, bracket, depth - 1)?;
        self.text.push(close(bracket) as char)?;
        Ok(end)
    }

    /// Adds the items after an opening bracket. Returns the rest after the closing one.
    #[cycle(tokens)]
    fn items<'a>(
        &mut self,
        text: &'a str,
        bracket: Bracket,
        depth: u32,
    ) -> Result<&'a str, ScanFault>
        ensures { ReadsAs (λ rest. (string_bytes self.new.text ++ closing (kind_of bracket) ∷ [], rest.now)) result
            (mapped (λ items. string_bytes self.old.text ++ compact (series (kind_of bracket) [] items))
            (items_at (nested_at depth) (kind_of bracket) text.now)) }
    {
        let start = skip_space(text);
        if let Some(end) = past(start, close(bracket)) {
            return Ok(end);
        }
        let mut rest = self.item(start, bracket, depth)?;
        'items: while let Some(next) = past(skip_space(rest), b',') {
            self.text.push_str(",")?;
            rest = self.item(skip_space(next), bracket, depth)?;
        }
        expect(skip_space(rest), close(bracket))
    }

    #[cycle(tokens)]
    fn item<'a>(
        &mut self,
        text: &'a str,
        bracket: Bracket,
        depth: u32,
    ) -> Result<&'a str, ScanFault>
        ensures { ReadsAs (λ rest. (string_bytes self.new.text, rest.now)) result
            (mapped (λ x. string_bytes self.old.text ++ (compact (label_tokens x.0) ++ compact (tokens x.1)))
            (item_at (nested_at depth) (kind_of bracket) text.now)) }
    {
        let rest = self.label(text, bracket)?;
        self.value(rest, depth)
    }
}
