// How often each directory and the output have failed.
ghost use Rattle.std.specs.Prelude.{◌≡◌, ◌<◌, slice_index};
ghost use Rattle.nn_host.specs.Calls.{next_count};
ghost use Rattle.nn_memhost.specs.Counts.{no_faults, raised, raised_out};

/// The counts of faults at one moment. A count that stands at its last value stays there.
#[derive(Clone, Copy)]
pub struct Counts {
    /// Of each directory.
    pub dirs: [u64; 8],
    /// Of the output.
    pub out: u64,
}

pub fn none() -> Counts
    ensures { result ≡ no_faults }
{
    Counts {
        dirs: [0; 8],
        out: 0,
    }
}

pub fn raise(counts: Counts, i: u8) -> Counts
    requires { i < 8 }
    ensures value { result ≡ raised i counts }
    ensures here { slice_index result.dirs i ≡ next_count (slice_index counts.dirs i) }
{
    let mut more = counts;
    let at = i as usize;
    more.dirs[at] = more.dirs[at].saturating_add(1);
    more
}

pub fn raise_out(counts: Counts) -> Counts
    ensures { result ≡ raised_out counts }
{
    let mut more = counts;
    more.out = counts.out.saturating_add(1);
    more
}
