//! The least of some lines.
ghost use Rattle.std.specs.Prelude.{Contains};
ghost use Rattle.share_notes.specs.Lines.{IsLeastLine};

/// The least of the lines.
pub fn least(lines: &[u32]) -> Option<u32>
    ensures { IsLeastLine (Contains lines.now) result }
{
    lines.iter().copied().min()
}
