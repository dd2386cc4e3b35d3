//! Texts that stand for the tuples of the values of keys.
ghost use Rattle.std.specs.Prelude.{◌≡◌, ◌<◌, ◌^◌, IfOk, OnOk, flat_map, length, map, string_bytes};
ghost use Rattle.std.specs.List.{AllByRecursion};
ghost use Rattle.lq_ast.specs.Groups.{key_tuple};
ghost use Rattle.lq_stats.specs.Key.{grouped_by};
ghost use Rattle.lq_tuple.specs.Counted.{AreShort, part, tuple_text};

use crate::bucket::Bucket;
use crate::key::Key;
use crate::keys::key_value;
use lq_tuple::{HashSeed, push_part};
use std::alloc::{AllocError, Global};
use vl_row::FieldList;

/// Where the texts of tuples are written, one after another, and the seed of the tables in which they are found.
#[derive(Drop)]
pub(crate) struct Scratch {
    pub(crate) alloc: Global,
    pub(crate) seed: HashSeed,
    pub(crate) text: String,
    pub(crate) bucket: Bucket,
}

impl Scratch {
    /// No text.
    pub(crate) fn new(alloc: Global, seed: HashSeed) -> Result<Scratch, AllocError> {
        Ok(Scratch {
            alloc,
            seed,
            text: String::new(alloc),
            bucket: Bucket::at(alloc, 0)?,
        })
    }

    /// Returns the text of the tuple of these keys. It is written here, or is the value of the key where there is one
    /// only.
    pub(crate) fn key_text<'a>(
        &'a mut self,
        keys: &[Key],
        fields: &'a FieldList,
    ) -> Result<&'a str, AllocError>
        ensures text { IfOk result (λ text.
            text.now ≡ tuple_text (key_tuple (map grouped_by keys.now) fields.entry.now)) }
        ensures short { IfOk result (λ _. AreShort (key_tuple (map grouped_by keys.now) fields.entry.now)) }
    {
        if let [key] = keys {
            return key_value(self.alloc, &mut self.bucket, key, fields);
        }
        self.write_keys(keys, fields)?;
        Ok(self.text.as_str())
    }

    /// Writes the values of the keys, each after its length.
    fn write_keys(&mut self, keys: &[Key], fields: &FieldList) -> Result<(), AllocError>
        ensures text { OnOk result (string_bytes self.new.text
            ≡ flat_map part (key_tuple (map grouped_by keys.now) fields.now)) }
        ensures short { OnOk result
            (AllByRecursion (λ text. length text < 2 ^ 64) (key_tuple (map grouped_by keys.now) fields.now)) }
    {
        self.text.clear();
        for key in keys {
            let value = key_value(self.alloc, &mut self.bucket, key, fields)?;
            push_part(&mut self.text, value)?;
        }
        Ok(())
    }
}
