//! The files of a directory, with the handles that are open. This is the edge where the program meets the file system:
//! no clause says what these functions do there.
ghost use Rattle.std.specs.Prelude.{◌≡◌, ◌<◌, ◌≤◌, [], IfOk, IfSome, IsSome, OnErr, OnOk, false, length};
ghost use Rattle.std.specs.Prelude.{string_bytes, true, vec_len};
ghost use Rattle.vl_vault.specs.Directory.{HasOtherPath, IsFound, IsOpen, KeepsSyncs, place_of};

use std::alloc::{AllocError, Global};
use std::fs::{File, Files, OpenOptions, TryLockError};
use std::io::ErrorKind;
use std::os::unix::fs::FileExt;
use std::{fs, io};

/// How many files are open at once at most.
const OPEN_FILES: usize = 64;

/// How many digits a file's number has at most.
const DIGITS: usize = 20;

/// How many bytes one write to the system has at most.
const PIECE_LEN: usize = 1_048_576;

/// Whether files may be changed.
#[derive(Clone, Copy, Debug, PartialEq, Eq)]
pub enum Access {
    Read,
    Write,
}

/// A file that was changed since it was last synced. It stays open until it is synced, since the system tells an
/// error of writing back only to handles that were open when it came.
#[derive(Drop)]
struct OpenFile {
    number: u64,
    handle: File,
}

/// The files of a directory.
#[derive(Drop)]
pub struct FileTable {
    access: Access,
    /// The directory, which is locked. There is none where it cannot be used.
    directory: Option<File>,
    /// Why the directory cannot be used, until a call said it.
    refused: Option<io::Error>,
    /// The directory's path.
    name: String,
    /// The path of the file that was used last. It has room for that of every file.
    path: String,
    changed: Vec<OpenFile>,
    /// Whether a file may have been created or removed since the directory was last synced.
    names_changed: bool,
    /// Whether a sync failed. The system tells of an error once, so a later sync may return without one.
    sync_failed: bool,
}

impl FileTable {
    /// Returns the files of the directory, and locks it. All memory is taken here.
    pub fn open<R: Files<File = File>>(
        rt: &R,
        alloc: Global,
        directory: &str,
        access: Access,
    ) -> Result<FileTable, AllocError>
        ensures access { IfOk result (λ table. table.access ≡ access) }
        ensures none_open { IfOk result (λ table. table.changed.items ≡ []) }
        ensures names { IfOk result (λ table. table.names_changed ≡ true) }
        ensures syncs { IfOk result (λ table. table.sync_failed ≡ false) }
    {
        let name = String::from_str(alloc, directory)?;
        let mut path = String::from_str(alloc, directory)?;
        path.reserve(DIGITS + 1)?;
        let mut changed = Vec::new(alloc);
        changed.reserve(OPEN_FILES)?;
        let (directory, refused) = match open_directory(rt, directory, &mut path, access) {
            Ok(handle) => (Some(handle), None),
            Err(reason) => (None, Some(reason)),
        };
        Ok(FileTable {
            access,
            directory,
            refused,
            name,
            path,
            changed,
            names_changed: true,
            sync_failed: false,
        })
    }

    /// Returns the path that was used last.
    pub fn path(&self) -> &str
        ensures { result.now ≡ string_bytes self.now.path }
    {
        self.path.as_str()
    }

    /// Returns the length of the file.
    pub fn length<R: Files<File = File>>(&mut self, rt: &R, file: u64) -> io::Result<u64>
        ensures kept { KeepsSyncs self.old self.new }
        ensures found { OnOk result (IsFound self.old self.new) }
    {
        self.find(file)?;
        if let Some(i) = self.place(file) {
            return length_of(&self.changed[i].handle);
        }
        let path = self.path.as_str();
        match uninterrupted(|| fs::metadata(rt, path)) {
            Ok(metadata) => Ok(metadata.len()),
            Err(reason) if reason.kind() == ErrorKind::NotFound => Ok(0),
            Err(reason) => Err(reason),
        }
    }

    /// Reads the file's bytes from `at` on, as many as there are and fit.
    pub fn read<R: Files<File = File>>(
        &mut self,
        rt: &R,
        file: u64,
        at: u64,
        buf: &mut [u8],
    ) -> io::Result<usize>
        ensures kept { KeepsSyncs self.old self.new }
        ensures bound { IfOk result (λ n. n ≤ length buf.new) }
        ensures same { OnOk result (IsFound self.old self.new) }
    {
        self.find(file)?;
        // No file is longer than 2^63 - 1 bytes, and the system refuses a range that ends after them.
        let end = buf
            .len()
            .min((i64::MAX as usize).saturating_sub(at as usize));
        let room = &mut buf[..end];
        if let Some(i) = self.place(file) {
            return read_all_at(&self.changed[i].handle, at, room);
        }
        match File::open(rt, self.path.as_str()) {
            Ok(handle) => read_all_at(&handle, at, room),
            Err(reason) if reason.kind() == ErrorKind::NotFound => Ok(0),
            Err(reason) => Err(reason),
        }
    }

    /// Writes the piece at `at`. A missing file is created.
    pub fn write_at<R: Files<File = File>>(
        &mut self,
        rt: &R,
        file: u64,
        at: u64,
        piece: &[u8],
    ) -> io::Result<()>
        ensures kept { KeepsSyncs self.old self.new }
        ensures writes { OnOk result (self.old.access ≡ Access.Write) }
        ensures open { OnOk result (IsOpen self.new file) }
    {
        self.find_for_change(file)?;
        if self.place(file).is_none() {
            let handle = self.open_or_create(rt)?;
            self.keep_open(file, handle)?;
        }
        match self.place(file) {
            Some(i) => write_all_at(&self.changed[i].handle, at, piece),
            None => Err(io::Error::from(ErrorKind::OutOfMemory)),
        }
    }

    /// Shortens the file. A shorter or a missing one stays as it is.
    pub fn cut<R: Files<File = File>>(&mut self, rt: &R, file: u64, length: u64) -> io::Result<()>
        ensures kept { KeepsSyncs self.old self.new }
        ensures writes { OnOk result (self.old.access ≡ Access.Write) }
    {
        self.find_for_change(file)?;
        if self.place(file).is_none() {
            match changing().open(rt, self.path.as_str()) {
                Ok(handle) => self.keep_open(file, handle)?,
                Err(reason) if reason.kind() == ErrorKind::NotFound => return Ok(()),
                Err(reason) => return Err(reason),
            }
        }
        match self.place(file) {
            Some(i) => shorten(&self.changed[i].handle, length),
            None => Err(io::Error::from(ErrorKind::OutOfMemory)),
        }
    }

    /// Removes the file.
    pub fn remove<R: Files<File = File>>(&mut self, rt: &R, file: u64) -> io::Result<()>
        ensures kept { KeepsSyncs self.old self.new }
        ensures writes { OnOk result (self.old.access ≡ Access.Write) }
        ensures names { OnOk result (self.new.names_changed ≡ true) }
    {
        self.find_for_change(file)?;
        self.names_changed = true;
        let path = self.path.as_str();
        match uninterrupted(|| fs::remove_file(rt, path)) {
            Err(reason) if reason.kind() != ErrorKind::NotFound => return Err(reason),
            _ => {}
        }
        if let Some(i) = self.place(file) {
            self.changed.remove(i);
        }
        Ok(())
    }

    /// Syncs the file, and the directory where a file was created or removed since it was last synced. After a sync
    /// that failed, every later one fails.
    pub fn sync<R: Files<File = File>>(&mut self, rt: &R, file: u64) -> io::Result<()>
        ensures kept { KeepsSyncs self.old self.new }
        ensures names { OnOk result (self.new.names_changed ≡ false) }
        ensures none_failed { OnOk result (self.old.sync_failed ≡ false) }
        ensures last { OnErr result (self.new.sync_failed ≡ true) }
    {
        let synced = self.try_sync(rt, file);
        self.sync_failed = synced.is_err();
        synced
    }

    /// Syncs the file and the directory, unless an earlier sync failed.
    fn try_sync<R: Files<File = File>>(&mut self, rt: &R, file: u64) -> io::Result<()>
        ensures kept { KeepsSyncs self.old self.new }
        ensures names { OnOk result (self.new.names_changed ≡ false) }
        ensures none_failed { OnOk result (self.old.sync_failed ≡ false) }
    {
        self.find(file)?;
        if self.sync_failed {
            return Err(io::Error::new(ErrorKind::Other, "an earlier sync failed"));
        }
        match self.place(file) {
            Some(i) => self.sync_open(i)?,
            None => sync_closed(rt, self.path.as_str(), self.access)?,
        }
        self.sync_names()
    }

    /// Syncs an open file, and closes it.
    fn sync_open(&mut self, i: usize) -> io::Result<()>
        requires { i < vec_len self.old.changed }
        ensures kept { KeepsSyncs self.old self.new }
        ensures last { OnErr result (self.new.sync_failed ≡ true) }
        ensures same { OnOk result (self.new.sync_failed ≡ self.old.sync_failed) }
        ensures directory { self.new.directory ≡ self.old.directory }
    {
        let file = &mut self.changed[i];
        let number = file.number;
        if let Err(reason) = file.handle.sync_all() {
            self.sync_failed = true;
            self.set_path(number)?;
            return Err(reason);
        }
        self.changed.remove(i);
        Ok(())
    }

    /// Syncs the directory where a file was created or removed since it was last synced.
    fn sync_names(&mut self) -> io::Result<()>
        ensures kept { KeepsSyncs self.old self.new }
        ensures names { OnOk result (IsSome self.old.directory → self.new.names_changed ≡ false) }
    {
        if let Some(directory) = &self.directory {
            if self.names_changed {
                if let Err(reason) = sync_unless_refused(directory, self.access) {
                    self.path.clear();
                    self.path.push_str(self.name.as_str())?;
                    return Err(reason);
                }
                self.names_changed = false;
            }
        }
        Ok(())
    }

    /// Sets the path to that of the file. It fails where the directory cannot be used.
    fn find(&mut self, file: u64) -> io::Result<()>
        ensures kept { KeepsSyncs self.old self.new }
        ensures found { OnOk result (IsFound self.old self.new) }
    {
        if self.directory.is_none() {
            let reason = self.refused.take();
            return Err(reason.unwrap_or(io::Error::from(ErrorKind::NotFound)));
        }
        self.set_path(file)
    }

    /// Sets the path to that of the file.
    fn set_path(&mut self, file: u64) -> io::Result<()>
        ensures { HasOtherPath self.old self.new }
    {
        self.path.clear();
        match write!(self.path, "{}/{file}", self.name) {
            Ok(()) => Ok(()),
            Err(_) => Err(io::Error::from(ErrorKind::OutOfMemory)),
        }
    }

    /// As `find`, for a call that changes the file.
    fn find_for_change(&mut self, file: u64) -> io::Result<()>
        ensures kept { KeepsSyncs self.old self.new }
        ensures found { OnOk result (IsFound self.old self.new) }
        ensures writes { OnOk result (self.old.access ≡ Access.Write) }
    {
        self.find(file)?;
        match self.access {
            Access::Write => Ok(()),
            Access::Read => Err(io::Error::new(
                ErrorKind::PermissionDenied,
                "the directory was opened for reading only",
            )),
        }
    }

    /// Returns where the file stands among the open ones.
    fn place(&self, file: u64) -> Option<usize>
        ensures found { result ≡ place_of self.now file }
        ensures inside { IfSome result (λ i. i < vec_len self.now.changed) }
    {
        self.changed.iter().position(|kept| kept.number == file)
    }

    /// Opens the file at the path for a change, and creates it if it is missing.
    fn open_or_create<R: Files<File = File>>(&mut self, rt: &R) -> io::Result<File>
        ensures kept { KeepsSyncs self.old self.new }
    {
        match changing().open(rt, self.path.as_str()) {
            Err(reason) if reason.kind() == ErrorKind::NotFound => {
                self.names_changed = true;
                changing().create(true).open(rt, self.path.as_str())
            }
            opened => opened,
        }
    }

    /// Keeps the file open until it is synced. Where too many are open, the one that was opened first is synced.
    fn keep_open(&mut self, number: u64, handle: File) -> io::Result<()>
        ensures kept { KeepsSyncs self.old self.new }
    {
        if self.changed.len() >= OPEN_FILES {
            self.sync_open(0)?;
        }
        match self.changed.push(OpenFile { number, handle }) {
            Ok(()) => Ok(()),
            Err(_) => Err(io::Error::from(ErrorKind::OutOfMemory)),
        }
    }
}

/// Returns how a file is opened for a change.
fn changing() -> OpenOptions {
    let mut how = OpenOptions::new();
    how.read(true).write(true);
    how
}

/// Shortens the file, which is never lengthened.
fn shorten(handle: &File, length: u64) -> io::Result<()> {
    if length_of(handle)? > length {
        handle.set_len(length)?;
    }
    Ok(())
}

/// Returns the length of the open file.
fn length_of(handle: &File) -> io::Result<u64> {
    let metadata = uninterrupted(|| handle.metadata())?;
    Ok(metadata.len())
}

/// Makes the call, and makes it again while a signal interrupts it. Openings, locks, cuts and syncs need no such loop:
/// they are tried again where they are made.
fn uninterrupted<T, F: Fn() -> io::Result<T>>(call: F) -> io::Result<T>
    requires { F.IsAlwaysCallable call }
{
    for _ in 0..u64::MAX {
        match call() {
            Err(reason) if reason.kind() == ErrorKind::Interrupted => {}
            returned => return returned,
        }
    }
    Err(io::Error::from(ErrorKind::Interrupted))
}

/// Syncs the file at the path, which is not open: an earlier program may have changed it. A missing one has nothing to
/// sync.
fn sync_closed<R: Files<File = File>>(rt: &R, path: &str, access: Access) -> io::Result<()> {
    match File::open(rt, path) {
        Ok(handle) => sync_unless_refused(&handle, access),
        Err(reason) if reason.kind() == ErrorKind::NotFound => Ok(()),
        Err(reason) => Err(reason),
    }
}

/// Syncs the file or directory. A file system that cannot be written has no sync, and refuses it by EINVAL. Where files
/// are only read, that is no error.
fn sync_unless_refused(handle: &File, access: Access) -> io::Result<()> {
    match handle.sync_all() {
        Err(reason) if access == Access::Read && reason.kind() == ErrorKind::InvalidInput => Ok(()),
        synced => synced,
    }
}

/// Reads until the buffer is full or the file ends.
fn read_all_at(handle: &File, at: u64, buf: &mut [u8]) -> io::Result<usize>
    ensures { IfOk result (λ n. n ≤ length buf.new) }
{
    let mut done = 0;
    for _ in 0..u64::MAX {
        if done >= buf.len() {
            break;
        }
        match handle.read_at(&mut buf[done..], at.saturating_add(done as u64)) {
            Ok(0) => break,
            Ok(count) => done += count,
            Err(reason) if reason.kind() == ErrorKind::Interrupted => {}
            Err(reason) => return Err(reason),
        }
    }
    Ok(done)
}

/// Writes the whole piece.
fn write_all_at(handle: &File, at: u64, piece: &[u8]) -> io::Result<()> {
    let mut done = 0;
    for _ in 0..u64::MAX {
        if done >= piece.len() {
            break;
        }
        let end = piece.len().min(done.saturating_add(PIECE_LEN));
        match handle.write_at(&piece[done..end], at.saturating_add(done as u64)) {
            Ok(0) => return Err(io::Error::from(ErrorKind::WriteZero)),
            Ok(count) => done += count,
            Err(reason) if reason.kind() == ErrorKind::Interrupted => {}
            Err(reason) => return Err(reason),
        }
    }
    Ok(())
}

/// Opens the directory and locks it. For writing it is created if it does not exist, and synced into the one that it
/// stands in: a program that created it may have ended before that. `path`, which is the directory's, is left as the
/// path of what was refused.
fn open_directory<R: Files<File = File>>(
    rt: &R,
    name: &str,
    path: &mut String,
    access: Access,
) -> io::Result<File> {
    if access == Access::Write {
        let exists = create_directory(rt, name)?;
        path.push_str("/..")?;
        sync_parent(rt, name, path.as_str(), exists)?;
        path.clear();
        path.push_str(name)?;
    }
    lock_directory(rt, name, access)
}

/// Opens the directory and locks it.
fn lock_directory<R: Files<File = File>>(rt: &R, path: &str, access: Access) -> io::Result<File> {
    let directory = File::open(rt, path)?;
    let locked = match access {
        Access::Read => directory.try_lock_shared(),
        Access::Write => directory.try_lock(),
    };
    match locked {
        Ok(()) => Ok(directory),
        Err(TryLockError::WouldBlock) => Err(io::Error::new(
            ErrorKind::WouldBlock,
            "another program uses this directory",
        )),
        Err(TryLockError::Error(reason)) => Err(reason),
    }
}

/// Creates the directory if it does not exist. Returns whether it existed.
fn create_directory<R: Files<File = File>>(rt: &R, path: &str) -> io::Result<bool> {
    match uninterrupted(|| fs::create_dir(rt, path)) {
        Ok(()) => Ok(false),
        Err(reason) if reason.kind() == ErrorKind::AlreadyExists => Ok(true),
        Err(reason) => Err(reason),
    }
}

/// Syncs the directory that this one stands in. One that was there may stand where this program may not look, or where
/// there is no sync. One that was created and cannot be synced there is removed again, so that the next program is
/// refused too.
fn sync_parent<R: Files<File = File>>(
    rt: &R,
    path: &str,
    outer: &str,
    exists: bool,
) -> io::Result<()> {
    match sync_directory(rt, outer) {
        Err(reason) if exists && may_stay_unsynced(reason.kind()) => Ok(()),
        Err(reason) if !exists => {
            let _ = fs::remove_dir(rt, path);
            Err(reason)
        }
        synced => synced,
    }
}

/// Syncs the directory at the path.
fn sync_directory<R: Files<File = File>>(rt: &R, path: &str) -> io::Result<()> {
    let directory = File::open(rt, path)?;
    directory.sync_all()
}

/// Returns whether a directory that this program may not look into, or that has no sync, refuses one so.
fn may_stay_unsynced(kind: ErrorKind) -> bool {
    kind == ErrorKind::PermissionDenied || kind == ErrorKind::InvalidInput
}
