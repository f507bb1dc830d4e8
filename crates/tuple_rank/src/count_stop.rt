//! Why a count is refused.
use std::alloc::AllocError;

/// Why tuples are not counted.
#[derive(Debug, Drop)]
pub enum CountStop {
    /// There are more than 2^62 tuples.
    TooManyTuples,
    /// Memory was refused.
    NoMemory,
}

impl From<AllocError> for CountStop {
    ghost use Rattle.std.specs.Prelude.{◌≡◌};
    ghost use Rattle.tuple_rank.specs.declared.count_stop.CountStop.TheVariants.{NoMemory};

    ghost from_gives = { λ _ stop. stop ≡ NoMemory };

    fn from(_: AllocError) -> CountStop {
        CountStop::NoMemory
    }
}
