// The source over standard input.
ghost use Rattle.std.specs.Prelude.{◌≡◌, []};

use crate::looks::read_some;
use nn_host::{Failed, Source};

/// A script that comes by the standard input of `rt`. It tells nothing.
///
/// A read that the system refuses is `Failed`, and a line on the standard error of `rt` says to a person why; one that a signal
/// interrupts is tried again. A read may give fewer bytes than there are.
#[derive(Drop)]
pub struct StdSource<R: Input> {
    rt: R,
    reader: R::Reader,
    faults: u64,
}

impl<R: Input + Eprint + Drop> StdSource<R> {
    /// The standard input of `rt`, from where it stands. Nothing is read yet.
    pub fn new(rt: R) -> StdSource<R>
        ensures { ⟦<StdSource<R> as Source>⟧.faults result ≡ 0 }
    {
        let reader = rt.reader();
        StdSource {
            rt,
            reader,
            faults: 0,
        }
    }
}

impl<R: Input + Eprint + Drop> Source for StdSource<R> {
    ghost told = { ⊥ };

    ghost left = { λ it. [] };

    ghost faults = { λ it. it.faults };

    fn take(&mut self, out: &mut [u8]) -> Result<usize, Failed> {
        match read_some(&mut self.reader, out) {
            Ok(count) => Ok(count),
            Err(error) => {
                let _ = eprintln!(self.rt; "namenode: can't read standard input: {error}");
                self.faults = self.faults.saturating_add(1);
                Err(Failed)
            }
        }
    }
}
