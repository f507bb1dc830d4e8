//! Want of memory.

use std::alloc::AllocError;

/// Memory was refused.
pub type NoMemory = AllocError;
