//! What is asked for beside the lines.
ghost use Rattle.std.specs.Prelude.{◌≡◌, IsTrue};
ghost use Rattle.std.specs.List.{list_all};
ghost use Rattle.ingest_row.specs.Ingest.{is_named, plain};

use crate::prepared::Prepared;
use std::alloc::Global;
use std::marker::Model;
use vl_row::{Field, FieldList, Items, Names, Text};

/// What is asked for beside the lines: which fields are the stream, the moment and the message, which are left out, and
/// which are added.
#[derive(Drop)]
pub struct Options {
    pub(crate) stream_fields: Items<Text>,
    /// `_time`, unless another name is given, be it empty.
    pub(crate) time_field: Option<Text>,
    pub(crate) message_fields: Items<Text>,
    pub(crate) ignored_fields: Items<Text>,
    /// Whether none of the names of the moment, of the message, of what is ignored and of what is added has more than
    /// 128 bytes.
    pub(crate) are_short: bool,
    pub(crate) extra_fields: Items<Field>,
    pub(crate) prepared: Prepared,
}

impl Model for Options {
    ghost use Rattle.std.specs.Prelude.{IsTrue, codes, unwrap_or};
    ghost use Rattle.std.specs.List.{list_all};
    ghost use Rattle.ingest_row.specs.Ingest.{Options as Asked, have_short_names, is_named};
    ghost use Rattle.ingest_row.specs.Prepared.{IsPrepared};

    ghost Value = { Asked };

    ghost view = { λ o. record {
      stream_fields = o.stream_fields;
      time_field = unwrap_or o.time_field (codes "_time");
      message_fields = o.message_fields;
      ignored_fields = o.ignored_fields;
      extra_fields = o.extra_fields;
    } };

    ghost invariant = { λ o. IsTrue (list_all is_named o.extra_fields)
        × (IsTrue o.are_short → IsTrue (have_short_names (unwrap_or o.time_field (codes "_time")) o.message_fields
        o.ignored_fields o.extra_fields))
        × IsPrepared o.stream_fields o.message_fields o.ignored_fields o.extra_fields o.prepared };
}

impl Options {
    ghost use Rattle.std.specs.Prelude.{ℕ, [], List};
    ghost use Rattle.log_model.specs.Field.{set_all};
    ghost use Rattle.vl_row.specs.Names.{is_among};
    ghost use Rattle.ingest_row.specs.Ingest.{AsksShort};
    ghost use Rattle.ingest_row.specs.Prepared.{least_place, names_of, place_in};

    /// Nothing is asked for: the moment is in `_time`, the message in `_msg`, and rows have no labels.
    pub fn plain(alloc: Global) -> Options
        ensures { result ≡ plain }
    {
        Options {
            stream_fields: Items::of(Vec::new(alloc)),
            time_field: None,
            message_fields: Items::of(Vec::new(alloc)),
            ignored_fields: Items::of(Vec::new(alloc)),
            are_short: true,
            extra_fields: Items::of(Vec::new(alloc)),
            prepared: Prepared::new(alloc),
        }
    }

    /// Returns the names of the fields that are a row's labels.
    pub fn stream_fields(&self) -> &[Text]
        ensures { result.now ≡ self.now.stream_fields }
    {
        self.stream_fields.as_slice()
    }

    /// Returns the name of the field that says a row's moment. Where it is empty, no line has that field.
    pub fn time_field(&self) -> &str
        ensures { result.now ≡ self.now.time_field }
    {
        match &self.time_field {
            Some(name) => name.as_str(),
            None => "_time",
        }
    }

    /// Returns the names of the fields of which the first with a value is the message.
    pub fn message_fields(&self) -> &[Text]
        ensures { result.now ≡ self.now.message_fields }
    {
        self.message_fields.as_slice()
    }

    /// Returns the names of the fields that are left out.
    pub fn ignored_fields(&self) -> &[Text]
        ensures { result.now ≡ self.now.ignored_fields }
    {
        self.ignored_fields.as_slice()
    }

    /// Returns the names of the fields that are a row's labels, in byte order.
    pub(crate) fn labels(&self) -> &Names
        ensures { (name : List ℕ) → is_among result.now name ≡ is_among self.now.stream_fields name }
    {
        &self.prepared.labels
    }

    /// Returns the names of the fields that are left out, in byte order.
    pub(crate) fn ignored(&self) -> &Names
        ensures { (name : List ℕ) → is_among result.now name ≡ is_among self.now.ignored_fields name }
    {
        &self.prepared.ignored
    }

    /// Returns the first place in the message's list that the name of one of these fields has, and the list's length
    /// where no field is listed.
    pub(crate) fn message_place(&self, fields: &[Field]) -> usize
        ensures { result ≡ least_place self.now.message_fields fields.now }
    {
        let mut least = self.message_fields.as_slice().len();
        for field in fields {
            least = least.min(self.place_of(field.name()));
        }
        least
    }

    /// Returns the first place of a name in the message's list, and the list's length where it is not listed.
    fn place_of(&self, name: &str) -> usize
        ensures { result ≡ place_in self.now.message_fields name.now }
    {
        match self.prepared.places.get(name) {
            Some(place) => *place,
            None => self.message_fields.as_slice().len(),
        }
    }

    /// Returns the names of the fields that are added, in byte order.
    pub(crate) fn replaced(&self) -> &Names
        ensures { (name : List ℕ) → is_among result.now name ≡ is_among (names_of self.now.extra_fields) name }
    {
        &self.prepared.replaced
    }

    /// Returns the fields that are added, each name once, with the last of its values.
    pub(crate) fn added(&self) -> &FieldList
        ensures { result.now ≡ set_all [] self.now.extra_fields }
    {
        &self.prepared.added
    }

    /// Returns true only if none of the names of the moment, of the message, of what is ignored and of what is added
    /// has more than 128 bytes.
    pub(crate) fn are_short(&self) -> bool
        ensures { IsTrue result → AsksShort self.now }
    {
        self.are_short
    }

    /// Returns the fields that every row has besides.
    pub fn extra_fields(&self) -> &[Field]
        ensures value { result.now ≡ self.now.extra_fields }
        ensures named { IsTrue (list_all is_named self.now.extra_fields) }
    {
        self.extra_fields.as_slice()
    }
}
