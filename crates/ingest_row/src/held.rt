//! How many bytes rows take.
use crate::complete::FEW;
use crate::options::Options;
use vl_row::{Field, Row};

/// The bytes of a field, beside long texts.
const FIELD: u64 = 64;

/// The bytes of a row, 64 in the list of rows, and 60 while blocks are made of the rows: 24 for lending it, 24 for
/// sorting, and 12 for its moment and its place.
const ROW: u64 = 124;

/// The bytes of an allocation beside those that are asked for, of which there are a multiple of 64.
const BLOCK: u64 = 16;

/// A name or a value of up to this many bytes lies in its field.
const INLINE: usize = 30;

/// The bytes of an allocation for a text beside the text itself.
const TEXT_BLOCK: u64 = 24;

/// The bytes of a value in its column, beside its text.
const CELL: u64 = 8;

/// The least number of slots that a list has once it grows.
const LEAST_SLOTS: usize = 4;

/// How many names are reserved.
const RESERVED: usize = 3;

/// From this many fields on, the fields of a line may be sorted together, into a list of as many slots as members.
const SORTED: usize = 64;

/// How many slots more than twice its fields a row may have.
const SPARE: usize = 16;

/// The fields that are added to each line.
#[derive(Clone, Copy)]
pub(crate) struct Added {
    count: usize,
    /// About how many bytes they take, with those of them that are labels, too.
    pub(crate) bytes: u64,
}

/// How many slots are kept for the fields of a row, and how many for those of the next line.
#[derive(Clone, Copy)]
pub(crate) struct Slots {
    /// At most how many slots the list of the row's fields has.
    pub(crate) most: usize,
    /// Whether this is so much more than there are fields that the row is copied into a list without room to spare.
    pub(crate) is_wide: bool,
    /// How many fields are expected of the next line.
    pub(crate) next: usize,
}

impl Added {
    pub(crate) fn of(o: &Options) -> Added {
        let mut bytes: u64 = 0;
        for field in o.added().as_slice() {
            let mut size = size_of(field);
            if o.labels().has(field.name()) {
                size = size.saturating_mul(2);
            }
            bytes = bytes.saturating_add(size);
        }
        Added {
            count: o.added().len(),
            bytes,
        }
    }

    /// Returns the slots of a row with this many fields, whose line was read with this room and has at most this many
    /// members.
    pub(crate) fn slots(self, room: usize, members: usize, fields: usize) -> Slots {
        let enough = fields.saturating_mul(2).saturating_add(SPARE);
        let most = self.most_slots(room, members, fields);
        Slots {
            most: if most > enough { fields } else { most },
            is_wide: most > enough,
            next: self.with_few(members).min(enough),
        }
    }

    /// Returns how many fields such a list has at most while they are put into it one by one.
    fn with_few(self, members: usize) -> usize {
        if self.count > FEW {
            return members;
        }
        members.saturating_add(self.count)
    }

    /// Returns at most how many slots the list of a row's fields has. A list to which many fields are added is made for
    /// all of them, and only fields of reserved names leave it. Another one doubles where its room does not suffice.
    fn most_slots(self, room: usize, members: usize, fields: usize) -> usize {
        if self.count > FEW {
            let made = members.saturating_add(self.count);
            return made.min(fields.saturating_add(RESERVED));
        }
        let put = self.with_few(members);
        let is_sorted = members > SORTED && self.count > 0;
        if put <= room && !is_sorted {
            return room;
        }
        put.saturating_mul(2).max(LEAST_SLOTS).max(room)
    }
}

/// Returns at most how many members a line has: how many of its colons come right after a quotation mark or white
/// space.
pub(crate) fn members_of(line: &[u8]) -> usize {
    let mut members: usize = 0;
    let mut before = b'{';
    for byte in line {
        if *byte == b':' && (before == b'"' || before <= b' ') {
            members = members.saturating_add(1);
        }
        before = *byte;
    }
    members
}

/// Returns how many bytes a field takes.
fn size_of(field: &Field) -> u64 {
    let texts = field.name().len().saturating_add(field.value().len());
    FIELD.saturating_add(texts as u64)
}

/// Returns at most how many bytes a row takes whose fields have this many slots, and the blocks that are made of it
/// beside it.
pub(crate) fn bytes_of(row: &Row, slots: usize) -> u64 {
    let fields = row.fields().as_slice();
    let labels = row.stream().as_slice();
    ROW.saturating_add(list_bytes(slots))
        .saturating_add(texts_bytes(fields))
        .saturating_add(cells_bytes(fields))
        .saturating_add(list_bytes(label_slots(labels.len())))
        .saturating_add(texts_bytes(labels))
}

/// Returns how many slots the list of this many labels has, which doubles as labels are added one by one.
fn label_slots(labels: usize) -> usize {
    if labels == 0 {
        return 0;
    }
    match labels.checked_next_power_of_two() {
        Some(slots) => slots.max(LEAST_SLOTS),
        None => labels,
    }
}

/// Returns how many bytes a list of this many slots takes.
fn list_bytes(slots: usize) -> u64 {
    if slots == 0 {
        return 0;
    }
    (slots as u64).saturating_mul(FIELD).saturating_add(BLOCK)
}

/// Returns at most how many bytes the long names and values of fields take.
fn texts_bytes(fields: &[Field]) -> u64 {
    let mut bytes: u64 = 0;
    for field in fields {
        bytes = bytes
            .saturating_add(text_bytes(field.name()))
            .saturating_add(text_bytes(field.value()));
    }
    bytes
}

fn text_bytes(text: &str) -> u64 {
    if text.len() <= INLINE {
        return 0;
    }
    (text.len() as u64).saturating_add(TEXT_BLOCK)
}

/// Returns how many bytes the values of fields take in columns.
fn cells_bytes(fields: &[Field]) -> u64 {
    let mut bytes: u64 = 0;
    for field in fields {
        bytes = bytes
            .saturating_add(field.value().len() as u64)
            .saturating_add(CELL);
    }
    bytes
}
