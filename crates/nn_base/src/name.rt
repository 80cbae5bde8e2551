// One component of a path.
ghost use Rattle.std.specs.Prelude.{◌≡◌, ◌≤◌, true, length, IfOk};
ghost use Rattle.std.specs.Option.{SomeIff};
ghost use Rattle.nn_base.specs.Limits.{most_name};
ghost use Rattle.nn_base.specs.Paths as paths;

use crate::NoMemory;
use crate::limits::MOST_NAME;
use std::alloc::Global;
use std::marker::Model;

/// The name of a node in its directory: 1 to 255 bytes without a zero byte, `/` or `:`, and neither `.` nor `..` (HDFS's `DFSUtil.isValidName`).
#[derive(Drop)]
pub struct Name {
    bytes: Vec<u8>,
}

impl Model for Name {
    ghost use Rattle.std.specs.Prelude.{◌≡◌, true, List, ℕ};
    ghost use Rattle.nn_base.specs.Paths.{is_name};

    ghost Value = { List ℕ };

    ghost view = { λ a. a.bytes.items };

    ghost invariant = { λ a. is_name a.bytes.items ≡ true };
}

/// Whether a component stands for the directory itself or for its parent.
pub(crate) fn is_dots(part: &[u8]) -> bool
    ensures { result ≡ paths.is_dots part.now }
{
    match part {
        [a] => *a == b'.',
        [a, b] => *a == b'.' && *b == b'.',
        _ => false,
    }
}

/// Whether a component has a byte that no name has.
fn has_barred(part: &[u8]) -> bool
    ensures { result ≡ paths.has_barred part.now }
{
    part.iter().any(|b| *b == 0 || *b == b':')
}

/// Whether a component is empty, stands for another directory or has a byte that no name has.
fn is_bad_name(part: &[u8]) -> bool
    ensures { result ≡ paths.is_bad_name part.now }
{
    part.is_empty() || is_dots(part) || has_barred(part)
}

fn has_slash(part: &[u8]) -> bool
    ensures { result ≡ paths.has_slash part.now }
{
    part.iter().any(|b| *b == b'/')
}

impl Name {
    /// Whether bytes are a name.
    pub fn is(bytes: &[u8]) -> bool
        ensures { result ≡ paths.is_name bytes.now }
    {
        !(is_bad_name(bytes) || MOST_NAME < bytes.len() || has_slash(bytes))
    }

    /// The name of these bytes. `None` stands for bytes that are no name.
    pub fn of(alloc: Global, bytes: &[u8]) -> Result<Option<Name>, NoMemory>
        ensures { IfOk result (λ found. SomeIff found (paths.is_name bytes.now ≡ true) bytes.now) }
    {
        if !Name::is(bytes) {
            return Ok(None);
        }
        let bytes = bytes.to_vec(alloc)?;
        Ok(Some(Name { bytes }))
    }

    /// The name of bytes that are one.
    pub(crate) fn held(alloc: Global, bytes: &[u8]) -> Result<Name, NoMemory>
        requires { paths.is_name bytes.now ≡ true }
        ensures { IfOk result (λ name. name ≡ bytes.now) }
    {
        let bytes = bytes.to_vec(alloc)?;
        Ok(Name { bytes })
    }

    /// The same name in memory of its own.
    pub fn copy(&self, alloc: Global) -> Result<Name, NoMemory>
        ensures { IfOk result (λ name. name ≡ self.now) }
    {
        let bytes = self.bytes.to_vec(alloc)?;
        Ok(Name { bytes })
    }

    /// Its bytes.
    #[tactic(auto, using(crate::proofs::PathsLemmas::name_is_short))]
    pub fn bytes(&self) -> &[u8]
        ensures value { result.now ≡ self.now }
        ensures name { paths.is_name self.now ≡ true }
        ensures short { length self.now ≤ most_name }
    {
        &self.bytes
    }
}
