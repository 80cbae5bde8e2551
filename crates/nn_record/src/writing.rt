// Writes the fields of a record behind what is there. The caller has made room, so that no record is left half written.
ghost use Rattle.std.specs.Prelude.{◌≡◌, ◌+◌, ◌<◌, ◌≤◌, ◌^◌, ◌∷◌, ◌++◌, length, take, drop, vec_len, vec_capacity};
ghost use Rattle.nn_base.specs.Paths.{IsPath, text_of};
ghost use Rattle.nn_base.specs.Limits.{most_path};
ghost use Rattle.nn_base.specs.Labels.{IsLabel};
ghost use Rattle.nn_record.specs.Ops.{IsOp, IsHeld};
ghost use Rattle.nn_record.specs.Spelling as spelling;

use crate::Op;
use nn_base::{Label, Path};

#[inline(always)]
pub(crate) fn put(bytes: &[u8], out: &mut Vec<u8>)
    requires room { vec_len out.old + length bytes.now ≤ vec_capacity out.old }
    ensures items { out.new.items ≡ out.old.items ++ bytes.now }
    ensures len { vec_len out.new ≡ vec_len out.old + length bytes.now }
    ensures capacity { vec_capacity out.old ≤ vec_capacity out.new }
{
    // There is room, and asking here spares the call that would make some.
    if out.capacity() - out.len() < bytes.len() {
        return;
    }
    if out.extend_from_slice(bytes).is_err() {
        unreachable!()
    }
}

/// Writes over what stands at a place.
pub(crate) fn overwrite(bytes: &[u8], at: usize, out: &mut Vec<u8>)
    requires within { at + length bytes.now ≤ vec_len out.old }
    ensures items { out.new.items ≡ take at out.old.items ++ bytes.now ++ drop (at + length bytes.now) out.old.items }
    ensures len { vec_len out.new ≡ vec_len out.old }
    ensures capacity { vec_capacity out.new ≡ vec_capacity out.old }
{
    out[at..at + bytes.len()].copy_from_slice(bytes);
}

#[tactic(auto, unfolding(crate::specs::Spelling::u16))]
#[inline(always)]
pub(crate) fn put_u16(number: u16, out: &mut Vec<u8>)
    requires room { vec_len out.old + 2 ≤ vec_capacity out.old }
    ensures items { out.new.items ≡ out.old.items ++ spelling.u16 number }
    ensures len { vec_len out.new ≡ vec_len out.old + 2 }
    ensures capacity { vec_capacity out.old ≤ vec_capacity out.new }
{
    put(&number.to_be_bytes(), out);
}

#[tactic(auto, unfolding(crate::specs::Spelling::u32))]
#[inline(always)]
pub(crate) fn put_u32(number: u32, out: &mut Vec<u8>)
    requires room { vec_len out.old + 4 ≤ vec_capacity out.old }
    ensures items { out.new.items ≡ out.old.items ++ spelling.u32 number }
    ensures len { vec_len out.new ≡ vec_len out.old + 4 }
    ensures capacity { vec_capacity out.old ≤ vec_capacity out.new }
{
    put(&number.to_be_bytes(), out);
}

#[tactic(auto, unfolding(crate::specs::Spelling::u64))]
#[inline(always)]
pub(crate) fn put_u64(number: u64, out: &mut Vec<u8>)
    requires room { vec_len out.old + 8 ≤ vec_capacity out.old }
    ensures items { out.new.items ≡ out.old.items ++ spelling.u64 number }
    ensures len { vec_len out.new ≡ vec_len out.old + 8 }
    ensures capacity { vec_capacity out.old ≤ vec_capacity out.new }
{
    put(&number.to_be_bytes(), out);
}

#[tactic(auto, unfolding(crate::specs::Spelling::bound))]
#[inline(always)]
pub(crate) fn put_bound(most: Option<u64>, out: &mut Vec<u8>)
    requires room { vec_len out.old + 8 ≤ vec_capacity out.old }
    ensures items { out.new.items ≡ out.old.items ++ spelling.bound most }
    ensures len { vec_len out.new ≡ vec_len out.old + 8 }
    ensures capacity { vec_capacity out.old ≤ vec_capacity out.new }
{
    put_u64(most.unwrap_or(u64::MAX), out);
}

#[tactic(auto, unfolding(crate::specs::Spelling::name))]
#[inline(always)]
pub(crate) fn put_name(label: &Label, out: &mut Vec<u8>)
    requires room { vec_len out.old + 33 ≤ vec_capacity out.old }
    ensures items { out.new.items ≡ out.old.items ++ spelling.name label.now }
    ensures len { vec_len out.new ≤ vec_len out.old + 33 }
    ensures capacity { vec_capacity out.old ≤ vec_capacity out.new }
    ensures label { IsLabel label.now }
{
    let text = label.bytes();
    put(&[text.len() as u8], out);
    put(text, out);
}

#[tactic(auto, using(crate::proofs::PathLemmas::text_small), unfolding(crate::specs::Spelling::path))]
#[inline(always)]
pub(crate) fn put_path(path: &Path, out: &mut Vec<u8>)
    requires room { vec_len out.old + (most_path + 2) ≤ vec_capacity out.old }
    ensures path { IsPath path.now }
    ensures items { out.new.items ≡ out.old.items ++ spelling.path path.now }
    ensures len { vec_len out.new ≤ vec_len out.old + (most_path + 2) }
    ensures capacity { vec_capacity out.old ≤ vec_capacity out.new }
{
    let text = path.bytes();
    put_u16(text.len() as u16, out);
    put(text, out);
}
