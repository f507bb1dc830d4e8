//! Standard output.

use crate::retry::{counted, write_some};
use mv_files::{Failed, Sink};
use std::io;

/// Standard output. It tells nothing of what it took.
#[derive(Drop)]
pub struct RealSink<'a, R: Print> {
    rt: &'a R,
    faults: u64,
}

impl<'a, R: Print> RealSink<'a, R> {
    pub fn new(rt: &'a R) -> RealSink<'a, R> {
        RealSink { rt, faults: 0 }
    }
}

impl<R: Print> Sink for RealSink<'_, R> {
    ghost use Rattle.std.specs.Prelude.{None};

    ghost written = { λ _. None };

    ghost faults = { λ s. s.faults };

    fn write(&mut self, bytes: &[u8]) -> Result<usize, Failed> {
        let faults = self.faults;
        match write_some(&mut io::writer(self.rt), bytes) {
            Ok(taken) => Ok(taken),
            Err(_) => {
                self.faults = counted(faults);
                Err(Failed)
            }
        }
    }
}
