// What serves as current in a directory.
ghost use Rattle.std.specs.Prelude.{◌≡◌, ◌<◌, length};
ghost use Rattle.nn_choose.specs.Served.{served_at as served_in};

use nn_base::{DirNo, Sub};
use nn_marks::Version;

/// The folder of a directory that serves as current, and what its VERSION says.
#[derive(Clone, Copy, Debug, PartialEq, Eq)]
pub struct Served {
    pub sub: Sub,
    pub version: Version,
}

/// A directory and what serves there.
#[derive(Clone, Copy, Debug, PartialEq, Eq)]
pub struct Lead {
    pub dir: DirNo,
    pub served: Served,
}

/// What serves in this directory, of a list with a place for each. None where it isn't formatted.
#[tactic(auto, using(std::proofs::lemmas::List::get_or_default))]
pub fn served_at(served: &[Option<Served>], i: usize) -> Option<Served>
    requires { i < length served.now }
    ensures { result ≡ served_in served.now i }
{
    served[i]
}
