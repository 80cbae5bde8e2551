// The source in memory.
ghost use Rattle.std.specs.Prelude.{◌≡◌, ◌≤◌, min, length, IfOk};

use crate::kept::files::copy_from;
use nn_host::{Failed, Source};

/// A source in memory, for tests. It tells the bytes that are left.
///
/// Its calls are numbered from 0, and exactly those fail whose numbers its list has. Any other call gives as many bytes
/// as `out` takes and are left.
#[derive(Drop)]
pub struct MemSource {
    bytes: Vec<u8>,
    taken: usize,
    fails: Vec<u64>,
    calls: u64,
    faults: u64,
    ghost within: { taken ≤ length bytes.items },
}

impl MemSource {
    ghost use Rattle.nn_memhost.specs.Source.{left_of};

    /// A source of these bytes, whose calls with these numbers fail.
    pub fn new(bytes: Vec<u8>, fails: Vec<u64>) -> MemSource
        ensures left { left_of result ≡ bytes.items }
        ensures fails { result.fails ≡ fails }
        ensures begins { (result.calls ≡ 0) × (result.faults ≡ 0) }
    {
        MemSource {
            bytes,
            taken: 0,
            fails,
            calls: 0,
            faults: 0,
        }
    }

    /// How many calls there were, which is the number of the next one.
    pub fn calls(&self) -> u64
        ensures { result ≡ self.now.calls }
    {
        self.calls
    }
}

impl Source for MemSource {
    ghost use Rattle.nn_host.specs.Sources.{Taken};
    ghost use Rattle.nn_memhost.specs.Source.{left_of, FailsByNumber};

    ghost told = { Unit {0} };

    ghost left = { left_of };

    ghost faults = { λ source. source.faults };

    fn take(&mut self, out: &mut [u8]) -> Result<usize, Failed>
        ensures call { Taken (Unit {0}) self.old.faults self.new.faults (left_of self.old) (left_of self.new) out.old out.new result }
        ensures cause { FailsByNumber self.old self.new result }
        ensures most { IfOk result (λ n. n ≡ min (length out.old) (length (left_of self.old))) }
    {
        let call = self.calls;
        self.calls = call.saturating_add(1);
        if self.fails.contains(&call) {
            self.faults = self.faults.saturating_add(1);
            return Err(Failed);
        }
        let n = copy_from(&self.bytes, self.taken as u64, out);
        self.taken += n;
        Ok(n)
    }
}
