//! A list of files in memory, in which each is found by its name.

ghost use Rattle.std.specs.Prelude.{◌≡◌, ◌+◌, ◌<◌, ◌≤◌, ◌++◌, ◌∷◌, [], All, IfOk, IsTrue, MatchOption, is_some, length, map, position, slice_index_or, slice_set, string_bytes, vec_capacity, vec_len};
ghost use Rattle.std.specs.Str.{bytes_eq};
ghost use Rattle.mv_files.specs.StoredFile.{told_of, no_file};
ghost use Rattle.mv_files.specs.MemoryFiles.{listed_of, put};
ghost use Rattle.mv_files.specs.FileList.{place_of, IsAt, IsNowhere};

use crate::stored_file::{Slot, StoredFile};
use sequences::NoMemory;
use std::alloc::Global;

/// These files, in a list that has places for `makes` more.
pub fn stored_files(
    alloc: Global,
    files: Vec<(String, Vec<u8>)>,
    makes: u32,
) -> Result<Vec<StoredFile>, NoMemory>
    ensures files { IfOk result (λ list. map told_of list.items ≡ listed_of files.items) }
    ensures places { IfOk result (λ list. vec_len list + makes ≤ vec_capacity list) }
{
    let mut list = Vec::with_capacity(alloc, files.len() + makes as usize)?;
    for (name, bytes) in files {
        list.push(StoredFile::given(name, bytes))?;
    }
    Ok(list)
}

/// The memory for so many files, of `room` bytes each.
pub fn slots(alloc: Global, makes: u32, room: usize) -> Result<Vec<Slot>, NoMemory>
    ensures count { IfOk result (λ list. vec_len list ≡ makes) }
    ensures rooms { IfOk result (λ list. All (λ r. r ≡ room) list.items) }
{
    let mut list = Vec::with_capacity(alloc, makes as usize)?;
    for _ in 0..makes {
        list.push(Slot::make(alloc, room)?)?;
    }
    Ok(list)
}

/// The place of the first file of this name.
pub fn find(files: &[StoredFile], name: &str) -> Option<usize>
    ensures { MatchOption result (IsNowhere name.now files.now) (IsAt name.now files.now) }
{
    files.iter().position(|f| name == f.name())
}

/// Puts the file in the place of the one of its name, or else at the end, and answers its place. Takes no memory.
pub fn put(files: &mut Vec<StoredFile>, file: StoredFile) -> usize
    requires { vec_len files.old < vec_capacity files.old }
    ensures files { map told_of files.new.items ≡ put file.name file.bytes (map told_of files.old.items) }
    ensures there { result < vec_len files.new }
    ensures placed { slice_index_or files.new.items result no_file ≡ file }
    ensures first { place_of file.name files.new.items ≡ result }
    ensures places { vec_capacity files.old ≤ vec_capacity files.new }
    ensures longer { vec_len files.new ≤ vec_len files.old + 1 }
{
    match find(files, file.name()) {
        Some(place) => {
            files[place] = file;
            place
        }
        None => {
            files.push(file).unwrap();
            files.len() - 1
        }
    }
}
