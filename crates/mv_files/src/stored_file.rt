//! A file in memory, and the memory for one to come.

ghost use Rattle.std.specs.Prelude.{◌≡◌, ◌+◌, ◌-◌, ◌≤◌, ◌++◌, [], length, vec_len, string_bytes, IfOk};
ghost use Rattle.mv_files.specs.StoredFile.{most_name_bytes};

use sequences::NoMemory;
use std::alloc::Global;
use std::marker::Model;

/// The name of a created file has at most so many bytes.
pub const MOST_NAME_BYTES: usize = 256;

/// A file with its name, and the most bytes that it may come to hold.
#[derive(Debug, Drop)]
pub struct StoredFile {
    name: String,
    bytes: Vec<u8>,
    room: usize,
}

impl Model for StoredFile {
    ghost use Rattle.std.specs.Prelude.{◌≤◌, vec_len, vec_capacity, string_bytes};
    ghost use Rattle.mv_files.specs.StoredFile.{Stored};

    ghost Value = { Stored };

    ghost view = { λ f. record { name = string_bytes f.name; bytes = f.bytes.items; room = f.room } };

    ghost invariant = { λ f. (vec_len f.bytes ≤ f.room) × (f.room ≤ vec_capacity f.bytes) };
}

impl StoredFile {
    /// A file that takes no more bytes.
    pub fn given(name: String, bytes: Vec<u8>) -> StoredFile
        ensures { result ≡ record { name = string_bytes name; bytes = bytes.items; room = vec_len bytes } }
    {
        let room = bytes.len();
        StoredFile { name, bytes, room }
    }

    pub fn name(&self) -> &str
        ensures { result.now ≡ self.now.name }
    {
        &self.name
    }

    pub fn bytes(&self) -> &[u8]
        ensures { result.now ≡ self.now.bytes }
    {
        &self.bytes
    }

    /// How many more bytes it takes.
    pub fn room_left(&self) -> usize
        ensures { result ≡ self.now.room - length self.now.bytes }
    {
        self.room - self.bytes.len()
    }

    /// Adds the bytes at the end, which takes no memory.
    pub fn append(&mut self, more: &[u8])
        requires { length self.old.bytes + length more.now ≤ self.old.room }
        ensures { self.new ≡ record self.old { bytes = self.old.bytes ++ more.now } }
    {
        self.bytes.extend_from_slice(more).unwrap();
    }
}

/// The memory for a file to come, of a name of at most [`MOST_NAME_BYTES`] bytes. Contracts see how many bytes it may hold.
#[derive(Debug, Drop)]
pub struct Slot {
    name: String,
    bytes: Vec<u8>,
    room: usize,
}

impl Model for Slot {
    ghost use Rattle.std.specs.Prelude.{ℕ, ◌≡◌, ◌≤◌, [], vec_capacity, string_bytes, string_len};
    ghost use Rattle.std.specs.String.{string_capacity};
    ghost use Rattle.mv_files.specs.StoredFile.{most_name_bytes};

    ghost Value = { ℕ };

    ghost view = { λ s. s.room };

    ghost invariant = { λ s. (string_bytes s.name ≡ []) × (string_len s.name ≡ 0) × (s.bytes.items ≡ []) × (most_name_bytes ≤ string_capacity s.name) × (s.room ≤ vec_capacity s.bytes) };
}

impl Slot {
    /// The memory for a file of at most `room` bytes.
    pub fn make(alloc: Global, room: usize) -> Result<Slot, NoMemory>
        ensures { IfOk result (λ slot. slot ≡ room) }
    {
        Ok(Slot {
            name: String::with_capacity(alloc, MOST_NAME_BYTES)?,
            bytes: Vec::with_capacity(alloc, room)?,
            room,
        })
    }

    /// The empty file of this name, which takes no more memory.
    pub fn named(self, name: &str) -> StoredFile
        requires { length name.now ≤ most_name_bytes }
        ensures { result ≡ record { name = name.now; bytes = []; room = self } }
    {
        let Slot {
            name: mut file_name,
            bytes,
            room,
        } = self;
        file_name.push_str(name).unwrap();
        StoredFile {
            name: file_name,
            bytes,
            room,
        }
    }
}
