//! The labels of a stream.

ghost use Rattle.std.specs.Prelude.{◌≡◌, ◌<◌, ◌^◌, ◌++◌, IfOk, OnOk, length};
ghost use Rattle.std.specs.List.{AllByRecursion, flat_map};
ghost use Rattle.byte_format.specs.Format.{front, many};
ghost use Rattle.byte_format.specs.Gives.{Gives};
ghost use Rattle.block_format.specs.Labels.{IsShortLabel, label, label_bytes, label_steps, labels};
ghost use Rattle.block_format.specs.Labels.{labels_bytes, labels_steps};

use byte_format::{Stop, put_text16, put_text32, take_text16, take_text32, take_u16};
use std::alloc::{AllocError, Global};
use vl_row::{Field, Stream, Text};

/// Appends the number of labels, and each label.
#[tactic(auto, unfolding(crate::specs::Labels::labels_bytes))]
pub fn put_labels(out: &mut Vec<u8>, stream: &Stream) -> Result<(), AllocError>
    requires few { length stream.now < 2 ^ 16 }
    requires short { AllByRecursion IsShortLabel stream.now }
    ensures { OnOk result (out.new.items ≡ out.old.items ++ labels_bytes stream.now) }
{
    out.extend_from_slice(&(stream.len() as u16).to_le_bytes())?;
    put_each(out, stream.as_slice())?;
    Ok(())
}

fn put_each(out: &mut Vec<u8>, labels: &[Field]) -> Result<(), AllocError>
    requires { AllByRecursion IsShortLabel labels.now }
    ensures { OnOk result (out.new.items ≡ out.old.items ++ flat_map label_bytes labels.now) }
{
    for label in labels {
        put_label(out, label)?;
    }
    Ok(())
}

#[tactic(auto, unfolding(crate::specs::Labels::label_bytes))]
fn put_label(out: &mut Vec<u8>, label: &Field) -> Result<(), AllocError>
    requires { IsShortLabel label.now }
    ensures { OnOk result (out.new.items ≡ out.old.items ++ label_bytes label.now) }
{
    put_text16(out, label.name())?;
    put_text32(out, label.value())?;
    Ok(())
}

/// The labels at the front of the bytes, and the bytes after them.
pub(crate) fn take_labels(alloc: Global, bytes: &[u8]) -> Result<(Vec<Field>, &[u8]), Stop>
    ensures { Gives (λ x. (x.0.items, x.1.now)) result (front labels bytes.now) }
{
    take_counted(alloc, bytes)
}

#[tactic(auto, unfolding(crate::specs::Labels::labels_steps))]
fn take_counted(alloc: Global, bytes: &[u8]) -> Result<(Vec<Field>, &[u8]), Stop>
    ensures { Gives (λ x. (x.0.items, x.1.now)) result (labels_steps bytes.now) }
{
    let (count, rest) = take_u16(bytes)?;
    let (labels, rest) = take_each(alloc, count, rest)?;
    Ok((labels, rest))
}

/// So many labels.
fn take_each(alloc: Global, count: u16, bytes: &[u8]) -> Result<(Vec<Field>, &[u8]), Stop>
    ensures { Gives (λ x. (x.0.items, x.1.now)) result (front (many count label) bytes.now) }
{
    let mut labels = Vec::new(alloc);
    let mut rest = bytes;
    for _ in 0..count {
        let (label, after) = take_label(alloc, rest)?;
        labels.push(label)?;
        rest = after;
    }
    Ok((labels, rest))
}

fn take_label(alloc: Global, bytes: &[u8]) -> Result<(Field, &[u8]), Stop>
    ensures { Gives (λ x. (x.0, x.1.now)) result (front label bytes.now) }
{
    take_pair(alloc, bytes)
}

#[tactic(auto, unfolding(crate::specs::Labels::label_steps))]
fn take_pair(alloc: Global, bytes: &[u8]) -> Result<(Field, &[u8]), Stop>
    ensures { Gives (λ x. (x.0, x.1.now)) result (label_steps bytes.now) }
{
    let (name, rest) = take_text16(bytes)?;
    let (value, rest) = take_text32(rest)?;
    let label = label_of(alloc, name, value)?;
    Ok((label, rest))
}

fn label_of(alloc: Global, name: &str, value: &str) -> Result<Field, AllocError>
    ensures { IfOk result (λ label. label ≡ (name.now, value.now)) }
{
    let name = Text::try_of(alloc, name)?;
    let value = Text::try_of(alloc, value)?;
    Ok(Field { name, value })
}
