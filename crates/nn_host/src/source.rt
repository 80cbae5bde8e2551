// The trait over the bytes of a script.
ghost use Rattle.std.specs.Prelude.{List, ℕ};
ghost use Rattle.nn_host.specs.Sources.{Taken};

use crate::Failed;

/// Where a script comes from: its bytes, first to last.
///
/// A source either tells the bytes that are left, or it tells nothing but its count of faults.
pub trait Source {
    /// That it tells the bytes that are left.
    ghost told: { Type 0 };

    /// The bytes that are left. Of a source that doesn't tell they mean nothing.
    ghost left: { Self → List ℕ };

    /// How often it has failed.
    ghost faults: { Self → ℕ };

    /// Moves bytes from the front of those left to the front of `out`, and says how many. Where `out` isn't empty, 0 is
    /// the end of the input.
    fn take(&mut self, out: &mut [u8]) -> Result<usize, Failed>
        ensures { Taken told (faults self.old) (faults self.new) (left self.old) (left self.new) out.old out.new result };
}
