//! Groups of the input that are read side by side.
ghost use Rattle.std.specs.Prelude.{◌≡◌, ◌+◌, ◌<◌, ◌≤◌, ◌++◌, ◌∷◌, [], OnErr, OnOk, length, true};
ghost use Rattle.vl_io.specs.Lines.{piece_len};
ghost use Rattle.vl_pipe.specs.Window.{AreReadGroups, IsReadGroup, IsWindow, bodies_of};

use crate::arrival::Arrival;
use lone_desk::{Incoming, InsertionFault, read_lines};
use std::alloc::{AllocError, Global};
use std::thread::{self, Threads};
use vl_io::{GroupReader, ReadFault, Source};

/// The most groups of a window.
pub(crate) const WINDOW_GROUPS: usize = 8;

/// A window with this many bytes takes no further group.
const WINDOW_BYTES: usize = 16_777_216;

/// A group of lines, and what reading them gave.
#[derive(Drop)]
pub(crate) struct Group {
    pub(crate) body: Vec<u8>,
    /// Out of memory, until the lines are read.
    pub(crate) read: Result<Incoming, InsertionFault>,
}

impl Group {
    /// Reads the lines.
    fn read(&mut self, alloc: Global, arrival: &Arrival)
        ensures body { self.new.body.items ≡ self.old.body.items }
        ensures read { IsReadGroup arrival.now self.new }
    {
        let body = self.body.as_slice();
        self.read = read_lines(alloc, arrival.options(), arrival.moment(), body);
    }
}

/// Groups that come one after another.
#[derive(Drop)]
pub(crate) struct Window {
    pub(crate) groups: Vec<Group>,
    /// Whether groups may come after these, or why they could not be read.
    pub(crate) more: Result<bool, ReadFault>,
}

/// Takes groups from the reader, at most this many, and reads their lines in threads. A window of one group needs no
/// thread.
pub(crate) fn read_window<R: Threads + Sync, S: Source>(
    rt: &R,
    alloc: Global,
    arrival: &Arrival,
    reader: &mut GroupReader,
    src: &mut S,
    most: usize,
) -> Window
    requires most { (0 < most) × (most ≤ 8) }
    requires lines { reader.old.lines ≡ 1000 }
    requires within { reader.old.passed + length reader.old.group ≤ reader.old.limit }
    requires ahead { length reader.old.ahead ≤ piece_len }
    requires closed { reader.old.ended ≡ true → reader.old.ahead ≡ [] }
    ensures window { IsWindow reader.old reader.new (S.left src.old) (S.left src.new) (S.faults src.old)
        (S.faults src.new) (bodies_of result.groups.items) result.more }
    ensures read { AreReadGroups arrival.now result.groups.items }
    ensures faults { S.faults src.old ≤ S.faults src.new }
{
    let mut window = cut_window(alloc, reader, src, most);
    read_groups(rt, alloc, arrival, window.groups.as_mut_slice());
    window
}

/// Reads the lines of the groups, in as many threads.
fn read_groups<R: Threads + Sync>(rt: &R, alloc: Global, arrival: &Arrival, groups: &mut [Group])
    ensures bodies { bodies_of groups.new ≡ bodies_of groups.old }
    ensures read { AreReadGroups arrival.now groups.new }
{
    thread::for_each_mut(
        rt,
        groups,
        WINDOW_GROUPS,
        &|_i: usize, group: &mut Group|
            ensures body { group.new.body.items ≡ group.old.body.items }
            ensures read { IsReadGroup arrival.entry.now group.new }
        { group.read(alloc, arrival) },
    );
}

/// Takes groups from the reader, at most this many, and none once they have many bytes.
fn cut_window<S: Source>(
    alloc: Global,
    reader: &mut GroupReader,
    src: &mut S,
    most: usize,
) -> Window
    requires most { (0 < most) × (most ≤ 8) }
    requires lines { reader.old.lines ≡ 1000 }
    requires within { reader.old.passed + length reader.old.group ≤ reader.old.limit }
    requires ahead { length reader.old.ahead ≤ piece_len }
    requires closed { reader.old.ended ≡ true → reader.old.ahead ≡ [] }
    ensures window { IsWindow reader.old reader.new (S.left src.old) (S.left src.new) (S.faults src.old)
        (S.faults src.new) (bodies_of result.groups.items) result.more }
    ensures faults { S.faults src.old ≤ S.faults src.new }
{
    let mut groups = Vec::new(alloc);
    let mut held: usize = 0;
    'groups: loop {
        match reader.advance(src) {
            Ok(true) => (),
            Ok(false) => {
                return Window {
                    groups,
                    more: Ok(false),
                };
            }
            Err(fault) => {
                return Window {
                    groups,
                    more: Err(fault),
                };
            }
        }
        match keep_group(alloc, reader.group(), &mut groups) {
            Ok(()) => (),
            Err(AllocError) => {
                return Window {
                    groups,
                    more: Err(ReadFault::Memory),
                };
            }
        }
        held = held.saturating_add(reader.group().len());
        if groups.len() >= most || held >= WINDOW_BYTES {
            return Window {
                groups,
                more: Ok(true),
            };
        }
    }
}

/// Puts a group with this body behind the others. Its lines are not read yet.
fn keep_group(alloc: Global, body: &[u8], groups: &mut Vec<Group>) -> Result<(), AllocError>
    ensures kept { OnOk result (bodies_of groups.new.items ≡ bodies_of groups.old.items ++ body.now ∷ []) }
    ensures same { OnErr result (groups.new.items ≡ groups.old.items) }
{
    let body = Vec::from_slice(alloc, body)?;
    let read = Err(InsertionFault::Memory);
    groups.push(Group { body, read })?;
    Ok(())
}
