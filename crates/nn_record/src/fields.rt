// Reads the fields of a body: each reader takes one off the front of what is left.
ghost use Rattle.std.specs.Prelude.{◌≡◌, ◌<◌, ◌^◌, ◌∷◌, ◌++◌, length, Some, None, IfOk, IfErr, IfSome};
ghost use Rattle.std.specs.Int.{w16, w32, w64};
ghost use Rattle.nn_base.specs.Paths.{IsPath, text_of};
ghost use Rattle.nn_base.specs.Limits.{IsLong};
ghost use Rattle.nn_base.specs.Labels.{IsLabel};
ghost use Rattle.nn_record.specs.Ops.{IsMode};
ghost use Rattle.nn_record.specs.Spelling.{u16, u32, u64, path, name, bound};
ghost use Rattle.nn_record.specs.declared.unread.Unread.TheVariants.{NoRecord};
ghost use Rattle.nn_record.specs.Reading as reading;

use crate::numbers::{first_u16, first_u32, first_u64};
use crate::unread::Unread;
use nn_base::limits::MOST_MODE;
use nn_base::{Label, Path, PathFault};
use std::alloc::Global;

/// Where Hadoop's signed numbers end.
const LONGS: u64 = 1 << 63;

#[tactic(auto, unfolding(crate::specs::Reading::byte_at))]
pub(crate) fn take_u8(rest: &mut &[u8]) -> Result<u8, Unread>
    ensures found { IfOk result (λ n. rest.old.now ≡ n ∷ rest.new.now) }
    ensures exact { reading.Gives result rest.new.now (reading.byte_at rest.old.now) }
    ensures err { IfErr result (λ e. e ≡ NoRecord) }
{
    match *rest {
        [byte, after @ ..] => {
            *rest = after;
            Ok(*byte)
        }
        [] => Err(Unread::NoRecord),
    }
}

pub(crate) fn take_u16(rest: &mut &[u8]) -> Result<u16, Unread>
    ensures found { IfOk result (λ n. (n < 2 ^ 16) × (rest.old.now ≡ u16 n ++ rest.new.now)) }
    ensures exact { reading.Gives result rest.new.now (reading.number_at w16 rest.old.now) }
{
    let (number, after) = first_u16(rest).ok_or(Unread::NoRecord)?;
    *rest = after;
    Ok(number)
}

pub(crate) fn take_u32(rest: &mut &[u8]) -> Result<u32, Unread>
    ensures found { IfOk result (λ n. (n < 2 ^ 32) × (rest.old.now ≡ u32 n ++ rest.new.now)) }
    ensures exact { reading.Gives result rest.new.now (reading.number_at w32 rest.old.now) }
    ensures err { IfErr result (λ e. e ≡ NoRecord) }
{
    let (number, after) = first_u32(rest).ok_or(Unread::NoRecord)?;
    *rest = after;
    Ok(number)
}

pub(crate) fn take_u64(rest: &mut &[u8]) -> Result<u64, Unread>
    ensures found { IfOk result (λ n. (n < 2 ^ 64) × (rest.old.now ≡ u64 n ++ rest.new.now)) }
    ensures exact { reading.Gives result rest.new.now (reading.number_at w64 rest.old.now) }
    ensures err { IfErr result (λ e. e ≡ NoRecord) }
{
    let (number, after) = first_u64(rest).ok_or(Unread::NoRecord)?;
    *rest = after;
    Ok(number)
}

/// So many bytes.
#[tactic(auto, unfolding(crate::specs::Reading::text_at))]
pub(crate) fn take_text<'a>(len: usize, rest: &mut &'a [u8]) -> Result<&'a [u8], Unread>
    ensures found { IfOk result (λ text. (length text.now ≡ len) × (rest.old.now ≡ text.now ++ rest.new.now)) }
    ensures exact { IfOk result (λ text. reading.text_at len rest.old.now ≡ Some (text.now, rest.new.now)) }
    ensures none { IfErr result (λ e. reading.Fails e (reading.text_at len rest.old.now)) }
    ensures err { IfErr result (λ e. e ≡ NoRecord) }
{
    let (text, after) = rest.split_at_checked(len).ok_or(Unread::NoRecord)?;
    *rest = after;
    Ok(text)
}

/// A time, an id or a stamp.
#[tactic(auto, unfolding(crate::specs::Reading::long_at))]
pub(crate) fn take_long(rest: &mut &[u8]) -> Result<u64, Unread>
    ensures found { IfOk result (λ n. IsLong n × (rest.old.now ≡ u64 n ++ rest.new.now)) }
    ensures exact { reading.Gives result rest.new.now (reading.long_at rest.old.now) }
    ensures err { IfErr result (λ e. e ≡ NoRecord) }
{
    let number = take_u64(rest)?;
    if number < LONGS {
        Ok(number)
    } else {
        Err(Unread::NoRecord)
    }
}

#[tactic(auto, unfolding(crate::specs::Reading::mode_at))]
pub(crate) fn take_mode(rest: &mut &[u8]) -> Result<u16, Unread>
    ensures found { IfOk result (λ mode. IsMode mode × (rest.old.now ≡ u16 mode ++ rest.new.now)) }
    ensures exact { reading.Gives result rest.new.now (reading.mode_at rest.old.now) }
{
    let mode = take_u16(rest)?;
    if mode <= MOST_MODE {
        Ok(mode)
    } else {
        Err(Unread::NoRecord)
    }
}

/// A path, by its text.
#[tactic(auto, unfolding(crate::specs::Reading::path_at, crate::specs::Spelling::path))]
pub(crate) fn take_path(alloc: Global, rest: &mut &[u8]) -> Result<Path, Unread>
    ensures found { IfOk result (λ names. IsPath names × (rest.old.now ≡ path names ++ rest.new.now)) }
    ensures exact { reading.Gives result rest.new.now (reading.path_at rest.old.now) }
{
    let len = take_u16(rest)?;
    let text = take_text(usize::from(len), rest)?;
    path_of(alloc, text)
}

#[tactic(auto, using(crate::proofs::PathLemmas::path_in_found, crate::proofs::PathLemmas::path_in_none))]
fn path_of(alloc: Global, text: &[u8]) -> Result<Path, Unread>
    ensures found { IfOk result (λ names. IsPath names × (text_of names ≡ text.now)) }
    ensures exact { IfOk result (λ names. reading.path_in text.now ≡ Some names) }
    ensures none { IfErr result (λ e. reading.Fails e (reading.path_in text.now)) }
{
    match Path::parse(alloc, text) {
        Ok(path) => Ok(path),
        Err(PathFault::Memory) => Err(Unread::Memory),
        Err(_) => Err(Unread::NoRecord),
    }
}

/// The name of an owner or a group.
#[tactic(auto, unfolding(crate::specs::Reading::name_at, crate::specs::Spelling::name))]
pub(crate) fn take_name(rest: &mut &[u8]) -> Result<Label, Unread>
    ensures found { IfOk result (λ label. IsLabel label × (rest.old.now ≡ name label ++ rest.new.now)) }
    ensures exact { reading.Gives result rest.new.now (reading.name_at rest.old.now) }
{
    let len = take_u8(rest)?;
    let text = take_text(usize::from(len), rest)?;
    Label::of(text).ok_or(Unread::NoRecord)
}

/// A bound of a directory, where all ones are none.
#[tactic(auto, unfolding(crate::specs::Reading::bound_at, crate::specs::Spelling::bound))]
pub(crate) fn take_bound(rest: &mut &[u8]) -> Result<Option<u64>, Unread>
    ensures found { IfOk result (λ most. IfSome most IsLong × (rest.old.now ≡ bound most ++ rest.new.now)) }
    ensures exact { reading.Gives result rest.new.now (reading.bound_at rest.old.now) }
{
    let number = take_u64(rest)?;
    if number < LONGS {
        Ok(Some(number))
    } else if number == u64::MAX {
        Ok(None)
    } else {
        Err(Unread::NoRecord)
    }
}
