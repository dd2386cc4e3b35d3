//! Names of columns, which blocks share.

ghost use Rattle.std.specs.Prelude.{◌≡◌, ◌<◌, [], IfOk, IsTrue, OnErr, OnOk, bytes_eq, length, slice_index_or, true};
ghost use Rattle.std.specs.Prelude.{Some, map, slice_get};
ghost use Rattle.std.specs.List.{list_all};
ghost use Rattle.std.specs.List.Sorted.{IsSearchInRange};
ghost use Rattle.log_model.specs.Row.{IsRow};
ghost use Rattle.block_model.specs.Columns.{names_in, names_of};
ghost use Rattle.block_model.specs.Texts.{is_text_field, is_text_row};

use block_model::{NumberedRef, column_names};
use std::alloc::{AllocError, Global};
use std::marker::Model;
use std::sync::Arc;
use vl_row::{Field, Text};

/// The name of a column. Copies share its memory.
///
/// A contract sees it as the list of its bytes.
#[derive(Drop)]
pub struct Name {
    text: Arc<Text>,
}

const _: () = prove!(std::mem::size_of::<Name>() == 8);

impl Model for Name {
    ghost use Rattle.std.specs.Prelude.{List, ℕ};
    ghost use Rattle.std.specs.Arc.{arc_value};

    ghost Value = { List ℕ };

    ghost view = { λ n. arc_value n.text };
}

impl Name {
    pub fn new(alloc: Global, text: Text) -> Result<Name, AllocError>
        ensures { IfOk result (λ name. name ≡ text) }
    {
        let shared = Arc::new(alloc, text)?;
        Ok(Name { text: shared })
    }

    /// The same name, which shares its memory.
    pub(crate) fn share(&self) -> Result<Name, AllocError>
        ensures { IfOk result (λ name. name ≡ self.now) }
    {
        let text = Arc::try_clone(&self.text)?;
        Ok(Name { text })
    }

    pub(crate) fn as_str(&self) -> &str
        ensures { result.now ≡ self.now }
    {
        self.text.as_str()
    }
}

/// How many names are known at most.
const MOST: usize = 512;

/// The names of a block's columns. The next block shares them, all at once if each of its rows has these names alone,
/// and else one by one.
///
/// A contract sees them as the list of the names.
#[derive(Drop)]
pub struct ColumnNames {
    names: Vec<Name>,
    /// Names that earlier blocks had, in byte order.
    known: Vec<Name>,
}

impl Model for ColumnNames {
    ghost use Rattle.std.specs.Prelude.{List, ℕ};

    ghost Value = { List (List ℕ) };

    ghost view = { λ n. n.names.items };
}

impl ColumnNames {
    /// No names. This allocates nothing.
    pub fn new(alloc: Global) -> ColumnNames
        ensures { result ≡ [] }
    {
        ColumnNames {
            names: Vec::new(alloc),
            known: Vec::new(alloc),
        }
    }

    /// Makes them those of the columns of these rows. They stay as they are if memory runs out.
    pub(crate) fn learn(
        &mut self,
        alloc: Global,
        rows: &[NumberedRef<'_>],
    ) -> Result<(), AllocError>
        requires { 0 < length rows.now }
        ensures names { OnOk result (self.new ≡ names_of rows.now) }
        ensures texts { OnOk result (list_all is_text_row rows.now ≡ true) }
        ensures stays { OnErr result (self.new ≡ self.old) }
    {
        if have_names(rows, self.names.as_slice()) {
            return Ok(());
        }
        remember(&mut self.known, self.names.as_slice())?;
        let names = names_of_rows(alloc, rows, self.known.as_slice())?;
        self.names = names;
        Ok(())
    }

    /// Makes them these names. They stay as they are if memory runs out.
    pub fn set(&mut self, alloc: Global, texts: &[&str]) -> Result<(), AllocError>
        ensures names { OnOk result (self.new ≡ map (λ t. t.now) texts.now) }
        ensures stays { OnErr result (self.new ≡ self.old) }
    {
        if are_texts(self.names.as_slice(), texts) {
            return Ok(());
        }
        remember(&mut self.known, self.names.as_slice())?;
        let names = names_of_lent(alloc, texts, self.known.as_slice())?;
        self.names = names;
        Ok(())
    }

    /// The name at this place. It shares its memory.
    pub fn shared(&self, c: usize) -> Result<Name, AllocError>
        requires { c < length self.now }
        ensures { IfOk result (λ name. slice_get self.now c ≡ Some name) }
    {
        self.names[c].share()
    }

    pub(crate) fn as_slice(&self) -> &[Name]
        ensures { result.now ≡ self.now }
    {
        self.names.as_slice()
    }
}

/// The names of the columns of the rows.
fn names_of_rows(
    alloc: Global,
    rows: &[NumberedRef<'_>],
    known: &[Name],
) -> Result<Vec<Name>, AllocError>
    requires { 0 < length rows.now }
    ensures names { IfOk result (λ names. names.items ≡ names_of rows.now) }
    ensures texts { IfOk result (λ names. list_all is_text_row rows.now ≡ true) }
{
    let fields = fields_of(&rows[0]);
    if rows.len() == 1 {
        let names = names_of_fields(alloc, fields, known)?;
        return Ok(names);
    }
    let texts = column_names(alloc, rows)?;
    let names = names_of_texts(alloc, texts.as_slice(), known)?;
    Ok(names)
}

/// The names of the fields, one after another. The fields are in UTF-8.
fn names_of_fields(alloc: Global, fields: &[Field], known: &[Name]) -> Result<Vec<Name>, AllocError>
    ensures names { IfOk result (λ names. names.items ≡ names_in fields.now) }
    ensures texts { IfOk result (λ names. list_all is_text_field fields.now ≡ true) }
{
    let mut names = Vec::with_capacity(alloc, fields.len())?;
    for field in fields {
        let name = name_for(alloc, name_of(field), known)?;
        names.push(name)?;
    }
    Ok(names)
}

fn names_of_texts(alloc: Global, texts: &[Text], known: &[Name]) -> Result<Vec<Name>, AllocError>
    ensures { IfOk result (λ names. names.items ≡ texts.now) }
{
    let mut names = Vec::with_capacity(alloc, texts.len())?;
    for text in texts {
        let name = name_for(alloc, text.as_str(), known)?;
        names.push(name)?;
    }
    Ok(names)
}

fn names_of_lent(alloc: Global, texts: &[&str], known: &[Name]) -> Result<Vec<Name>, AllocError>
    ensures { IfOk result (λ names. names.items ≡ map (λ t. t.now) texts.now) }
{
    let mut names = Vec::with_capacity(alloc, texts.len())?;
    for text in texts {
        let name = name_for(alloc, text, known)?;
        names.push(name)?;
    }
    Ok(names)
}

/// Whether the names are these texts, one after another.
fn are_texts(names: &[Name], texts: &[&str]) -> bool
    ensures { IsTrue result → names.now ≡ map (λ t. t.now) texts.now }
{
    if names.len() != texts.len() {
        return false;
    }
    for i in 0..names.len() {
        if !is_text(&names[i], texts[i]) {
            return false;
        }
    }
    true
}

fn is_text(name: &Name, text: &str) -> bool
    ensures { result ≡ bytes_eq name.now text.now }
{
    name.as_str() == text
}

/// The name of this text, which shares the memory of the one that is known, if there is one.
fn name_for(alloc: Global, text: &str, known: &[Name]) -> Result<Name, AllocError>
    ensures { IfOk result (λ name. name ≡ text.now) }
{
    match place_of(known, text) {
        Ok(i) => known[i].share(),
        Err(_) => Name::new(alloc, Text::try_of(alloc, text)?),
    }
}

/// Puts the names to those that are known, while there is room.
fn remember(known: &mut Vec<Name>, names: &[Name]) -> Result<(), AllocError> {
    for name in names {
        if known.len() >= MOST {
            return Ok(());
        }
        if let Err(i) = place_of(known.as_slice(), name.as_str()) {
            known.insert(i, name.share()?)?;
        }
    }
    Ok(())
}

/// Where the name of this text is among names in byte order, or where it belongs.
fn place_of(known: &[Name], text: &str) -> Result<usize, usize>
    ensures found { IfOk result (λ i. slice_index_or known.now i [] ≡ text.now) }
    ensures within { IsSearchInRange result (length known.now) }
{
    known.binary_search_by(|name| name.as_str().cmp(text))
}

/// Whether the fields of each row have these names, one after another. Then the rows are in UTF-8.
fn have_names(rows: &[NumberedRef<'_>], names: &[Name]) -> bool
    requires { 0 < length rows.now }
    ensures names { IsTrue result → names_of rows.now ≡ names.now }
    ensures texts { IsTrue result → list_all is_text_row rows.now ≡ true }
{
    for numbered in rows {
        if !are_named(fields_of(numbered), names) {
            return false;
        }
    }
    true
}

/// The fields of a row, which keeps the rules of rows.
fn fields_of<'a>(numbered: &NumberedRef<'a>) -> &'a [Field]
    ensures fields { result.now ≡ numbered.now.row.fields }
    ensures rules { IsRow numbered.now.row }
{
    let row = numbered.row;
    row.fields().as_slice()
}

/// Whether the fields have these names, one after another. Then they are in UTF-8.
fn are_named(fields: &[Field], names: &[Name]) -> bool
    ensures names { IsTrue result → names_in fields.now ≡ names.now }
    ensures texts { IsTrue result → list_all is_text_field fields.now ≡ true }
{
    if fields.len() != names.len() {
        return false;
    }
    for i in 0..fields.len() {
        if !is_named(&fields[i], &names[i]) {
            return false;
        }
    }
    true
}

/// Whether the field has this name. The field is in UTF-8.
fn is_named(field: &Field, name: &Name) -> bool
    ensures name { result ≡ bytes_eq field.now.0 name.now }
    ensures text { is_text_field field.now ≡ true }
{
    name_of(field) == name.as_str()
}

/// The name of a field. It and the value are in UTF-8.
fn name_of(field: &Field) -> &str
    ensures name { result.now ≡ field.now.0 }
    ensures text { is_text_field field.now ≡ true }
{
    let _ = field.value.as_str();
    field.name.as_str()
}
