//! Columns of texts.

ghost use Rattle.std.specs.Prelude.{◌≡◌, ◌↔◌, ◌+◌, ◌<◌, ◌^◌, ◌++◌, ◌∷◌, ℕ, [], IfOk, IfErr, IsTrue, IsUtf8};
ghost use Rattle.std.specs.Prelude.{List, Ok, OnOk};
ghost use Rattle.std.specs.Prelude.{Some, length, map, slice_get, sum_by};
ghost use Rattle.byte_format.specs.Format.{front};
ghost use Rattle.byte_format.specs.Spelling.{reading};
ghost use Rattle.byte_format.specs.Gives.{Gives};
ghost use Rattle.col_codec.specs.Answers.{AnswersAs, IsPlaceOf};
ghost use Rattle.col_codec.specs.Split.{IsSplit, start_in};
ghost use Rattle.col_codec.specs.Texts.{parts, text_spelling, text_writing, texts, total};

use crate::fault::{ColumnFault, fault_of};
use crate::text_read::take_texts;
use byte_format::{Spelled, Stop, put_u32s, read_exactly};
use std::alloc::{AllocError, Global};
use std::marker::Model;

/// A column of texts. All of them lie in one buffer.
///
/// A contract sees it as the list of the texts, each as its bytes.
#[derive(Drop)]
pub struct TextColumn {
    bytes: Vec<u8>,
    ends: Vec<u32>,
}

impl Model for TextColumn {
    ghost use Rattle.std.specs.Prelude.{List, ℕ};
    ghost use Rattle.col_codec.specs.Texts.{parts};
    ghost use Rattle.col_codec.specs.Split.{IsSplit, start_in};

    ghost Value = { List (List ℕ) };

    ghost view = { λ c. parts c.bytes.items 0 c.ends.items };

    ghost invariant = { λ c. IsSplit c.bytes.items c.ends.items };
}

impl TextColumn {
    /// A column of these texts.
    pub fn try_of(alloc: Global, v: &[&str]) -> Result<TextColumn, AllocError>
        requires { sum_by (λ t. length t.now) v.now < 2 ^ 32 }
        ensures { IfOk result (λ column. column ≡ map (λ t. t.now) v.now) }
    {
        let mut bytes = Vec::with_capacity(alloc, size_of(v))?;
        let mut ends = Vec::with_capacity(alloc, v.len())?;
        for t in v {
            push_text(&mut bytes, &mut ends, t)?;
        }
        Ok(TextColumn { bytes, ends })
    }

    /// How many texts there are.
    #[tactic(auto, using(crate::specs::SplitLaws::parts_length))]
    pub fn len(&self) -> usize
        ensures { result ≡ length self.now }
    {
        self.ends.len()
    }

    /// Whether there is none.
    pub fn is_empty(&self) -> bool
        ensures { IsTrue result ↔ (self.now ≡ []) }
    {
        self.len() == 0
    }

    /// The text at this place, counted from 0.
    #[tactic(auto, using(crate::specs::SplitLaws::parts_length))]
    pub fn get(&self, i: usize) -> &str
        requires { i < length self.now }
        ensures value { slice_get self.now i ≡ Some result.now }
        ensures utf8 { IsUtf8 result.now }
    {
        text_at(self.bytes.as_slice(), self.ends.as_slice(), i)
    }

    /// An equal column, in memory of its own.
    pub fn try_copy(&self, alloc: Global) -> Result<TextColumn, AllocError>
        ensures { IfOk result (λ column. column ≡ self.now) }
    {
        let bytes = self.bytes.to_vec(alloc)?;
        let ends = self.ends.to_vec(alloc)?;
        Ok(TextColumn { bytes, ends })
    }

    /// The one spelling of the column: an offset of 0, the offset at which each text ends, and then the texts.
    pub fn to_bytes(&self, alloc: Global) -> Result<Vec<u8>, AllocError>
        ensures { IfOk result (λ bytes. bytes.items ≡ text_spelling self.now) }
    {
        let mut out = Vec::new(alloc);
        self.put(&mut out)?;
        Ok(out)
    }

    /// Appends what `to_bytes` gives.
    pub fn put(&self, out: &mut Vec<u8>) -> Result<(), AllocError>
        ensures { OnOk result (out.new.items ≡ out.old.items ++ text_spelling self.now) }
    {
        put_texts(out, self.bytes.as_slice(), self.ends.as_slice())
    }

    /// The column at the front of the bytes that has this many texts, and the bytes after it.
    pub fn take(alloc: Global, rows: usize, bytes: &[u8]) -> Result<(TextColumn, &[u8]), Stop>
        ensures value { Gives (λ x. (x.0, x.1.now)) result (front (texts rows) bytes.now) }
        ensures written { IfOk result (λ x. text_writing rows x.0 ≡ Some (text_spelling x.0)) }
    {
        let (bytes, ends, rest) = take_texts(alloc, rows, bytes)?;
        Ok((TextColumn { bytes, ends }, rest))
    }

    /// The column of this many texts whose spelling the bytes are. Bytes that are none are damaged at their first item
    /// that is not whole or has not its form.
    pub fn from_bytes(alloc: Global, bytes: &[u8], rows: usize) -> Result<TextColumn, ColumnFault>
        ensures found { IfOk result (λ column. (length column ≡ rows) × (bytes.now ≡ text_spelling column)) }
        ensures only { (ts : List (List ℕ)) → text_writing rows ts ≡ Some bytes.now
            → AnswersAs bytes.now result (Ok ts) }
        ensures damaged { IfErr result (λ fault. IsPlaceOf fault (texts rows) (text_writing rows) bytes.now) }
        ensures exact { AnswersAs bytes.now result (reading (texts rows) (text_writing rows) bytes.now) }
    {
        match read_exactly::<TextColumn>(alloc, rows, bytes) {
            Ok(column) => Ok(column),
            Err(fault) => Err(fault_of(fault)),
        }
    }
}

impl Spelled for TextColumn {
    ghost use Rattle.std.specs.Prelude.{◌≡◌, List, Some, ℕ};
    ghost use Rattle.col_codec.specs.TextLaws.{is_read_again};
    ghost use Rattle.col_codec.specs.Texts.{text_spelling, text_writing, texts};

    /// The number of rows.
    type Context = usize;

    type Output = TextColumn;

    ghost Meaning = { List (List ℕ) };

    ghost format = { texts };

    ghost writing = { text_writing };

    ghost meant = { λ column. column };

    ghost meaning = { λ column. column };

    ghost was_read = { λ rows column. text_writing rows column ≡ Some (text_spelling column) };

    fn take(alloc: Global, rows: usize, bytes: &[u8]) -> Result<(TextColumn, &[u8]), Stop> {
        let (column, rest) = TextColumn::take(alloc, rows, bytes)?;
        Ok((column, rest))
    }

    fn make(self, _alloc: Global, _rows: usize) -> Result<Option<TextColumn>, AllocError> {
        Ok(Some(self))
    }

    fn put(column: &TextColumn, _rows: usize, out: &mut Vec<u8>) -> Result<(), AllocError> {
        column.put(out)?;
        Ok(())
    }

    ghost again = { is_read_again };
}

/// How many bytes the texts have together.
fn size_of(v: &[&str]) -> usize
    requires { sum_by (λ t. length t.now) v.now < 2 ^ 32 }
{
    let mut size = 0;
    for t in v {
        size += t.len();
    }
    size
}

fn text_at<'a>(bytes: &'a [u8], ends: &[u32], i: usize) -> &'a str
    requires split { IsSplit bytes.now ends.now }
    requires within { i < length ends.now }
    ensures value { slice_get (parts bytes.now 0 ends.now) i ≡ Some result.now }
    ensures utf8 { IsUtf8 result.now }
{
    let from = start_of(ends, i);
    let to = ends[i] as usize;
    unsafe { std::str::from_utf8_unchecked(&bytes[from..to]) }
}

fn start_of(ends: &[u32], i: usize) -> usize
    requires { i < length ends.now }
    ensures { result ≡ start_in 0 ends.now i }
{
    if i == 0 {
        return 0;
    }
    ends[i - 1] as usize
}

fn put_texts(out: &mut Vec<u8>, bytes: &[u8], ends: &[u32]) -> Result<(), AllocError>
    requires { IsSplit bytes.now ends.now }
    ensures { OnOk result (out.new.items ≡ out.old.items ++ text_spelling (parts bytes.now 0 ends.now)) }
{
    out.extend_from_slice(&[0, 0, 0, 0])?;
    put_u32s(out, ends)?;
    out.extend_from_slice(bytes)?;
    Ok(())
}

fn push_text(bytes: &mut Vec<u8>, ends: &mut Vec<u32>, t: &str) -> Result<(), AllocError>
    requires room { length bytes.old.items + length t.now < 2 ^ 32 }
    requires split { IsSplit bytes.old.items ends.old.items }
    ensures more { OnOk result (parts bytes.new.items 0 ends.new.items
        ≡ parts bytes.old.items 0 ends.old.items ++ t.now ∷ []) }
    ensures split { OnOk result (IsSplit bytes.new.items ends.new.items) }
    ensures size { OnOk result (length bytes.new.items ≡ length bytes.old.items + length t.now) }
{
    bytes.extend_from_slice(t.as_bytes())?;
    ends.push(bytes.len() as u32)?;
    Ok(())
}
