//! Files in memory, for tests.

ghost use Rattle.std.specs.Prelude.{◌≡◌, ◌<◌, ◌≤◌, ◌+◌, false, is_ok, take, length, IfOk, OnOk, OnErr, IsTrue, Some, is_err, is_some};
ghost use Rattle.std.specs.Result.{result_ok, result_unwrap_or};
ghost use Rattle.std.specs.Option.{option_map};
ghost use Rattle.std.specs.Io.{ReadsAtMost};
ghost use Rattle.mv_files.specs.Counts.{CountsFaults};
ghost use Rattle.mv_files.specs.Disk.{file_of, Closes, Opens, Reads, Creates, Appends};
ghost use Rattle.mv_files.specs.Sending.{TakesSome};
ghost use Rattle.mv_files.specs.MemoryFiles.{HasDistinctNames, listed_of, fresh_files, open_answer, after_open, read_answer, after_read, buffer_after, create_fails, after_create, write_answer, after_write};

use crate::calls::Calls;
use crate::failed::Failed;
use crate::file_list::{find, put, slots, stored_files};
use crate::files::Files;
use crate::stored_file::{MOST_NAME_BYTES, Slot, StoredFile};
use sequences::NoMemory;
use std::alloc::Global;
use std::marker::Model;

/// Which file is open, by its place in the list of files.
#[derive(Debug, Clone, Copy)]
enum Open {
    Nothing,
    /// What comes before `at` was read.
    Reading { file: usize, at: usize },
    Writing { file: usize },
}

/// Files in memory, which give and take their bytes in pieces, fail at chosen calls, and have a limited room.
#[derive(Debug, Drop)]
pub struct MemoryFiles {
    files: Vec<StoredFile>,
    unused: Vec<Slot>,
    open: Open,
    piece: usize,
    room: usize,
    calls: Calls,
    read_faults: u64,
    write_faults: u64,
}

impl Model for MemoryFiles {
    ghost use Rattle.std.specs.Prelude.{vec_len, vec_capacity};
    ghost use Rattle.mv_files.specs.MemoryFiles.{FilesState};
    ghost use Rattle.mv_files.specs.FileList.{disk_of, IsInOrder};

    ghost Value = { FilesState };

    ghost view = { λ m. record { disk = disk_of m.files.items m.«open»; piece = m.piece; room = m.room; makes = vec_len m.unused; calls = m.calls; read_faults = m.read_faults; write_faults = m.write_faults } };

    ghost invariant = { λ m. IsInOrder m.files.items (vec_capacity m.files) m.unused.items m.room m.piece m.«open» };
}

impl MemoryFiles {
    /// Files of these names and bytes. A call reads or writes at most `piece` bytes. `makes` files of `room` bytes each may
    /// be created, with names of at most [`MOST_NAME_BYTES`] bytes.
    ///
    /// A call fails where its number stands in `failing`, the first having the number 0. A `create` fails also where
    /// `makes` files were created before or the name is too long, and a `write` where the file has no room left.
    pub fn make(
        alloc: Global,
        files: Vec<(String, Vec<u8>)>,
        piece: usize,
        failing: Vec<u64>,
        makes: u32,
        room: u32,
    ) -> Result<MemoryFiles, NoMemory>
        requires distinct { HasDistinctNames (listed_of files.items) }
        requires some { 1 ≤ piece }
        ensures { IfOk result (λ m. m ≡ fresh_files (listed_of files.items) piece failing.items makes room) }
    {
        let room = room as usize;
        Ok(MemoryFiles {
            files: stored_files(alloc, files, makes)?,
            unused: slots(alloc, makes, room)?,
            open: Open::Nothing,
            piece,
            room,
            calls: Calls::make(failing),
            read_faults: 0,
            write_faults: 0,
        })
    }

    /// The bytes of the file of this name, or `None` where no such file is there.
    pub fn bytes_of(&self, name: &str) -> Option<&[u8]>
        ensures { option_map (λ b. b.now) result ≡ file_of name.now self.now.disk }
    {
        let place = find(&self.files, name)?;
        Some(self.files[place].bytes())
    }
}

impl Files for MemoryFiles {
    ghost disk = { λ m. Some m.disk };

    ghost is_reading = { λ m. is_some m.disk.left };

    ghost is_writing = { λ m. is_some m.disk.created };

    ghost read_faults = { λ m. m.read_faults };

    ghost write_faults = { λ m. m.write_faults };

    fn open_file(&mut self, name: &str) -> Result<bool, Failed>
        ensures answer { result_ok result ≡ open_answer name.now self.old }
        ensures state { self.new ≡ after_open name.now self.old }

        // What all files promise.
        ensures opens { IfOk result (λ found. Opens name.now found self.old.disk self.new.disk) }
        ensures closes { OnErr result (Closes self.old.disk self.new.disk) }
        ensures reading { is_some self.new.disk.left ≡ result_unwrap_or result false }
        ensures writing { is_some self.new.disk.created ≡ false }
        ensures faults { CountsFaults self.old.read_faults self.new.read_faults result }
        ensures other_faults { self.new.write_faults ≡ self.old.write_faults }
    {
        self.open = Open::Nothing;
        if self.calls.fails() {
            self.read_faults = self.read_faults.saturating_add(1);
            return Err(Failed);
        }
        let Some(file) = find(&self.files, name) else {
            return Ok(false);
        };
        self.open = Open::Reading { file, at: 0 };
        Ok(true)
    }

    fn read(&mut self, buf: &mut [u8]) -> Result<usize, Failed>
        requires reading { IsTrue (is_some self.old.disk.left) }
        requires some { 0 < length buf.old }
        ensures answer { result_ok result ≡ read_answer (length buf.old) self.old }
        ensures state { self.new ≡ after_read (length buf.old) self.old }
        ensures buffer { buf.new ≡ buffer_after buf.old self.old }

        // What all files promise.
        ensures bound { ReadsAtMost result buf.new }
        ensures reads { IfOk result (λ n. Reads n buf.new self.old.disk self.new.disk) }
        ensures unread { OnErr result (self.new.disk ≡ self.old.disk) }
        ensures reading { IsTrue (is_some self.new.disk.left) }
        ensures writing { is_some self.new.disk.created ≡ is_some self.old.disk.created }
        ensures faults { CountsFaults self.old.read_faults self.new.read_faults result }
        ensures other_faults { self.new.write_faults ≡ self.old.write_faults }
    {
        let Open::Reading { file, at } = self.open else {
            unreachable!()
        };
        if self.calls.fails() {
            self.read_faults = self.read_faults.saturating_add(1);
            return Err(Failed);
        }
        let unread = &self.files[file].bytes()[at..];
        let read = self.piece.min(buf.len()).min(unread.len());
        buf[..read].copy_from_slice(&unread[..read]);
        self.open = Open::Reading {
            file,
            at: at + read,
        };
        Ok(read)
    }

    fn create(&mut self, name: &str) -> Result<(), Failed>
        ensures answer { is_err result ≡ create_fails name.now self.old }
        ensures state { self.new ≡ after_create name.now self.old }

        // What all files promise.
        ensures creates { OnOk result (Creates name.now self.old.disk self.new.disk) }
        ensures closes { OnErr result (Closes self.old.disk self.new.disk) }
        ensures reading { is_some self.new.disk.left ≡ false }
        ensures writing { is_some self.new.disk.created ≡ is_ok result }
        ensures faults { CountsFaults self.old.write_faults self.new.write_faults result }
        ensures other_faults { self.new.read_faults ≡ self.old.read_faults }
    {
        self.open = Open::Nothing;
        let fails = self.calls.fails();
        if fails || name.len() > MOST_NAME_BYTES || self.unused.is_empty() {
            self.write_faults = self.write_faults.saturating_add(1);
            return Err(Failed);
        }
        let slot = self.unused.pop().unwrap();
        let file = put(&mut self.files, slot.named(name));
        self.open = Open::Writing { file };
        Ok(())
    }

    fn write(&mut self, bytes: &[u8]) -> Result<usize, Failed>
        requires writing { IsTrue (is_some self.old.disk.created) }
        requires some { 0 < length bytes.now }
        ensures answer { result_ok result ≡ write_answer bytes.now self.old }
        ensures state { self.new ≡ after_write bytes.now self.old }

        // What all files promise.
        ensures takes { IfOk result (λ n. TakesSome n bytes.now) }
        ensures writes { IfOk result (λ n. Appends (take n bytes.now) self.old.disk self.new.disk) }
        ensures unwritten { OnErr result (self.new.disk ≡ self.old.disk) }
        ensures reading { is_some self.new.disk.left ≡ is_some self.old.disk.left }
        ensures writing { IsTrue (is_some self.new.disk.created) }
        ensures faults { CountsFaults self.old.write_faults self.new.write_faults result }
        ensures other_faults { self.new.read_faults ≡ self.old.read_faults }
    {
        let Open::Writing { file } = self.open else {
            unreachable!()
        };
        let fails = self.calls.fails();
        let left = self.files[file].room_left();
        if fails || left == 0 {
            self.write_faults = self.write_faults.saturating_add(1);
            return Err(Failed);
        }
        let taken = self.piece.min(bytes.len()).min(left);
        let stored = &mut self.files[file];
        stored.append(&bytes[..taken]);
        Ok(taken)
    }
}
