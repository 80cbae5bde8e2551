// The first line that is wrong.
ghost use Rattle.std.specs.Prelude.{◌≡◌, ◌≤◌, List, [], ◌∷◌, ◌++◌, IsNone, length};
ghost use Rattle.std.specs.Str.Lines.{lines};
ghost use Rattle.nn_marks.specs.Given.{place_of, Marks};
ghost use Rattle.nn_base.specs.Limits.{most_version};
ghost use Rattle.nn_base.specs.First.{first_of};
ghost use Rattle.nn_marks.specs.Version.{Line};
ghost use Rattle.nn_marks.specs.VersionFaults.{twice_key, line_faults};

use crate::lines::{first_line, is_bad, key_in};
use crate::{Key, VersionFault};

// The first line without a `=`, or with a key that a line before it gave.
pub(crate) fn line_fault(text: &[u8]) -> Option<VersionFault>
    requires { length text.now ≤ most_version }
    ensures { result ≡ first_of (line_faults (lines text.now)) }
{
    let mut given = [false; 6];
    let mut rest = text;
    let mut number = 0;
    'lines: while !rest.is_empty() {
        let (line, after) = first_line(rest);
        number += 1;
        if is_bad(line) {
            return Some(VersionFault::BadLine(number));
        }
        if let Some(key) = twice(line, &mut given) {
            return Some(VersionFault::Twice(key));
        }
        rest = after;
    }
    None
}

// The key of a line, where it was given before. The line's key counts as given from then on.
fn twice(line: &[u8], given: &mut [bool; 6]) -> Option<Key>
    ensures twice { (before : List Line) → Marks given.old before → result ≡ twice_key before line.now }
    ensures given { (before : List Line) → Marks given.old before → IsNone result → Marks given.new (before ++ line.now ∷ []) }
{
    let key = key_in(line)?;
    if given[place(key)] {
        return Some(key);
    }
    given[place(key)] = true;
    None
}

fn place(key: Key) -> usize
    ensures { result ≡ place_of key }
{
    match key {
        Key::NamespaceId => 0,
        Key::ClusterId => 1,
        Key::CTime => 2,
        Key::StorageType => 3,
        Key::BlockpoolId => 4,
        Key::LayoutVersion => 5,
    }
}
