// Reads the text of a path.
ghost use Rattle.std.specs.Prelude.{◌≡◌, ◌≢◌, ◌≤◌, None, Some, length, take, MatchResult, IfOk, IfErr};
ghost use Rattle.std.specs.List.{slice_split, position_from, position_or_len, before_first};
ghost use Rattle.nn_base.specs.Limits.{most_path};
ghost use Rattle.nn_base.specs.Paths.{Names, IsPath, text_of};
ghost use Rattle.nn_base.specs.PathText.{part_fault, fault_among, fault_of};
ghost use Rattle.nn_base.specs.PathHeld.{is_slash, is_special};

use crate::limits::{MOST_LEVELS, MOST_NAME, MOST_PATH};
use crate::name::is_dots;
use crate::{Path, PathFault};
use std::alloc::Global;

impl Path {
    /// The path that a text is the text of: a `/` before each name, and `/` alone for the root. A byte stands for
    /// itself; there are no escapes.
    pub fn parse(alloc: Global, text: &[u8]) -> Result<Path, PathFault>
        ensures ok { IfOk result (λ path. IsPath path × (text_of path ≡ text.now)) }
        ensures only { (path : Names) → IsPath path → text_of path ≡ text.now → MatchResult result (λ found. found ≡ path) (λ fault. fault ≡ PathFault.Memory) }
        ensures err { MatchResult result (λ _. fault_of text.now ≡ None) (λ fault. fault ≢ PathFault.Memory → fault_of text.now ≡ Some fault) }
    {
        let Some((first, rest)) = text.split_first() else {
            return Err(PathFault::Empty);
        };
        if *first != b'/' {
            return Err(PathFault::Relative);
        }
        if MOST_PATH < text.len() {
            return Err(PathFault::LongPath);
        }
        if rest.is_empty() {
            return Ok(Path::root(alloc));
        }
        let depth = count_names(rest)?;
        if MOST_LEVELS < depth {
            return Err(PathFault::Deep);
        }
        Ok(Path {
            text: text.to_vec(alloc)?,
            depth,
        })
    }
}

/// How many names slashes separate.
fn count_names(text: &[u8]) -> Result<usize, PathFault>
    requires { length text.now ≤ most_path }
    ensures ok { IfOk result (λ count. (count ≡ length (slice_split is_slash text.now)) × (fault_among (slice_split is_slash text.now) ≡ None)) }
    ensures err { IfErr result (λ fault. fault_among (slice_split is_slash text.now) ≡ Some fault) }
{
    let mut count = 1;
    let mut left = text;
    'names: loop {
        let len = name_len(left)?;
        if len == left.len() {
            return Ok(count);
        }
        left = &left[len + 1..];
        count += 1;
    }
}

/// How many bytes stand before the first `/`, where they are a name.
fn name_len(text: &[u8]) -> Result<usize, PathFault>
    ensures within { IfOk result (λ len. len ≤ length text.now) }
    ensures ok { IfOk result (λ len. (len ≡ position_or_len is_slash text.now) × (part_fault (take len text.now) ≡ None)) }
    ensures err { IfErr result (λ fault. part_fault (before_first is_slash text.now) ≡ Some fault) }
{
    let len = plain_len(text);
    if len < text.len() && text[len] != b'/' {
        return Err(PathFault::BadName);
    }
    if len == 0 || is_dots(&text[..len]) {
        return Err(PathFault::BadName);
    }
    if MOST_NAME < len {
        return Err(PathFault::LongName);
    }
    Ok(len)
}

/// How many bytes stand before the first that ends a name, or that no name has.
fn plain_len(text: &[u8]) -> usize
    ensures { result ≡ position_or_len is_special text.now }
{
    first_special(text).unwrap_or(text.len())
}

fn first_special(text: &[u8]) -> Option<usize>
    ensures { result ≡ position_from is_special 0 text.now }
{
    text.iter()
        .position(|byte| *byte == b'/' || (*byte == 0 || *byte == b':'))
}
