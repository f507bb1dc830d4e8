//! The files of the process.

use crate::retry::{MOST_TRIES, counted, read_some, write_some};
use mv_files::{Failed, Files};
use std::fs;
use std::io::{self, ErrorKind};

/// The files of the process. They tell nothing of what is in them. They are the trusted edge: that a
/// file's bytes are those that its reads give, and that what is written stands in it, no clause says.
#[derive(Drop)]
pub struct RealFiles<'a, R: std::rt::Files> {
    rt: &'a R,
    source: Option<R::File>,
    target: Option<R::File>,
    read_faults: u64,
    write_faults: u64,
}

impl<'a, R: std::rt::Files> RealFiles<'a, R> {
    /// No file is open, and nothing has failed.
    pub fn new(rt: &'a R) -> RealFiles<'a, R> {
        RealFiles {
            rt,
            source: None,
            target: None,
            read_faults: 0,
            write_faults: 0,
        }
    }
}

/// Opens a file for reading; `None` where there is none of the name. Over the files of the process std itself tries an
/// open again, for as long as it is interrupted, so the tries here bound nothing there.
fn open<R: std::rt::Files>(rt: &R, name: &str) -> io::Result<Option<R::File>> {
    for _ in 0..MOST_TRIES {
        match fs::open(rt, name) {
            Ok(file) => return Ok(Some(file)),
            Err(error) => match error.kind() {
                ErrorKind::NotFound => return Ok(None),
                ErrorKind::Interrupted => {}
                _ => return Err(error),
            },
        }
    }
    Err(io::Error::from(ErrorKind::Interrupted))
}

/// Makes an empty file and opens it for writing. What is said of [`open`] holds here too.
fn create<R: std::rt::Files>(rt: &R, name: &str) -> io::Result<R::File> {
    for _ in 0..MOST_TRIES {
        match fs::create(rt, name) {
            Err(error) if error.kind() == ErrorKind::Interrupted => {}
            done => return done,
        }
    }
    Err(io::Error::from(ErrorKind::Interrupted))
}

impl<R: std::rt::Files> Files for RealFiles<'_, R> {
    ghost use Rattle.std.specs.Prelude.{None, is_some};

    ghost disk = { λ _. None };

    ghost is_reading = { λ f. is_some f.source };

    ghost is_writing = { λ f. is_some f.target };

    ghost read_faults = { λ f. f.read_faults };

    ghost write_faults = { λ f. f.write_faults };

    fn open_file(&mut self, name: &str) -> Result<bool, Failed> {
        let faults = self.read_faults;
        self.source = None;
        self.target = None;
        match open(self.rt, name) {
            Ok(Some(file)) => {
                self.source = Some(file);
                Ok(true)
            }
            Ok(None) => Ok(false),
            Err(_) => {
                self.read_faults = counted(faults);
                Err(Failed)
            }
        }
    }

    fn read(&mut self, buf: &mut [u8]) -> Result<usize, Failed> {
        let faults = self.read_faults;
        let Some(file) = &mut self.source else {
            unreachable!();
        };
        match read_some(file, buf) {
            Ok(taken) => Ok(taken),
            Err(_) => {
                self.read_faults = counted(faults);
                Err(Failed)
            }
        }
    }

    fn create(&mut self, name: &str) -> Result<(), Failed> {
        let faults = self.write_faults;
        self.source = None;
        self.target = None;
        match create(self.rt, name) {
            Ok(file) => {
                self.target = Some(file);
                Ok(())
            }
            Err(_) => {
                self.write_faults = counted(faults);
                Err(Failed)
            }
        }
    }

    fn write(&mut self, bytes: &[u8]) -> Result<usize, Failed> {
        let faults = self.write_faults;
        let Some(file) = &mut self.target else {
            unreachable!();
        };
        match write_some(file, bytes) {
            Ok(taken) => Ok(taken),
            Err(_) => {
                self.write_faults = counted(faults);
                Err(Failed)
            }
        }
    }
}
