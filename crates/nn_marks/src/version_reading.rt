// Reads a VERSION file.
ghost use Rattle.std.specs.Prelude.{◌≡◌, ◌<◌, ◌≤◌, ◌^◌, IsTrue, pos, negsuc, neg_ℤ, ◌<ℤ◌, ◌≤ℤ◌, length, drop, map, codes, Some, None, IsSomeAnd, SomeIff, IfSome, IfOk, IfErr, MatchResult};
ghost use Rattle.std.specs.List.{list_all};
ghost use Rattle.std.specs.Str.Lines.{lines};
ghost use Rattle.std.specs.Str.Parse.{digits_value};
ghost use Rattle.nn_base.specs.Words.{is_word};
ghost use Rattle.nn_marks.specs.declared.key.Key.TheVariants.{NamespaceId, ClusterId, CTime, StorageType, BlockpoolId, LayoutVersion};
ghost use Rattle.nn_base.specs.First.{first_of};
ghost use Rattle.nn_marks.specs.Version.{keys, value_of};
ghost use Rattle.nn_marks.specs.VersionFaults.{fault_of, is_text_byte, is_value, is_positive, bad_value, key_fault};
ghost use Rattle.nn_marks.specs.VersionText.{IsVersionText, Says};

use crate::line_check::line_fault;
use crate::lines::value_of;
use crate::{Key, Version, VersionFault};
use nn_base::Word;
use nn_base::decimal::number;
use nn_base::limits::MOST_VERSION;

/// What a VERSION file says. Its lines may stand in any order and end with a carriage return before the newline; the last newline
/// may be missing; empty lines, lines that begin with `#` and unknown keys are skipped. The fault is the first that there is, as
/// `VersionFault` orders them. It needs no memory, so the fault is never `Memory`.
#[tactic(auto, unfolding(crate::specs::VersionFaults::fault_of))]
pub fn version_read(bytes: &[u8]) -> Result<Version, VersionFault>
    ensures ok { IfOk result (IsVersionText bytes.now) }
    ensures err { IfErr result (λ fault. fault_of bytes.now ≡ Some fault) }
{
    if MOST_VERSION < bytes.len() {
        return Err(VersionFault::TooLong);
    }
    if !is_text(bytes) {
        return Err(VersionFault::NotText);
    }
    if let Some(fault) = line_fault(bytes) {
        return Err(fault);
    }
    fields(bytes)
}

fn is_text(bytes: &[u8]) -> bool
    ensures { result ≡ list_all is_text_byte bytes.now }
{
    bytes.iter().all(|byte| *byte == b'\t'
        || *byte == b'\n'
        || *byte == b'\r'
        || (b' ' <= *byte && *byte <= b'~'))
}

// The values of all keys, or the first fault among them.
fn fields(text: &[u8]) -> Result<Version, VersionFault>
    ensures ok { IfOk result (Says (lines text.now)) }
    ensures cause { MatchResult result (λ _. first_of (map (key_fault (lines text.now)) keys) ≡ None)
        (λ fault. first_of (map (key_fault (lines text.now)) keys) ≡ Some fault) }
{
    let namespace = namespace(text)?;
    let cluster = cluster(text)?;
    let ctime = ctime(text)?;
    storage_type(text)?;
    let blockpool = blockpool(text)?;
    let layout = layout(text)?;
    Ok(Version {
        namespace,
        cluster,
        ctime,
        blockpool,
        layout,
    })
}

fn namespace(text: &[u8]) -> Result<u32, VersionFault>
    ensures ok { IfOk result (λ n. IsSomeAnd (value_of NamespaceId (lines text.now)) (λ digits. n ≡ digits_value 10 digits)) }
    ensures range { IfOk result (λ n. (1 ≤ n) × (n ≤ 2147483647)) }
    ensures cause { MatchResult result (λ _. key_fault (lines text.now) NamespaceId ≡ None) (λ fault. key_fault (lines text.now) NamespaceId ≡ Some fault) }
{
    let digits = required(Key::NamespaceId, text)?;
    positive(digits).ok_or(VersionFault::BadNumber(Key::NamespaceId))
}

fn ctime(text: &[u8]) -> Result<u64, VersionFault>
    ensures ok { IfOk result (λ n. IsSomeAnd (value_of CTime (lines text.now)) (λ digits. n ≡ digits_value 10 digits)) }
    ensures range { IfOk result (λ n. n < 2 ^ 63) }
    ensures cause { MatchResult result (λ _. key_fault (lines text.now) CTime ≡ None) (λ fault. key_fault (lines text.now) CTime ≡ Some fault) }
{
    let digits = required(Key::CTime, text)?;
    number(digits).ok_or(VersionFault::BadNumber(Key::CTime))
}

fn storage_type(text: &[u8]) -> Result<(), VersionFault>
    ensures { MatchResult result (λ _. key_fault (lines text.now) StorageType ≡ None) (λ fault. key_fault (lines text.now) StorageType ≡ Some fault) }
{
    let word = required(Key::StorageType, text)?;
    if word == b"NAME_NODE".as_slice() {
        return Ok(());
    }
    Err(VersionFault::BadWord(Key::StorageType))
}

fn cluster(text: &[u8]) -> Result<Word, VersionFault>
    ensures ok { IfOk result (λ word. value_of ClusterId (lines text.now) ≡ Some word) }
    ensures word { IfOk result (λ word. IsTrue (is_word word)) }
    ensures cause { MatchResult result (λ _. key_fault (lines text.now) ClusterId ≡ None) (λ fault. key_fault (lines text.now) ClusterId ≡ Some fault) }
{
    let word = required(Key::ClusterId, text)?;
    Word::of(word).ok_or(VersionFault::BadWord(Key::ClusterId))
}

fn blockpool(text: &[u8]) -> Result<Word, VersionFault>
    ensures ok { IfOk result (λ word. value_of BlockpoolId (lines text.now) ≡ Some word) }
    ensures word { IfOk result (λ word. IsTrue (is_word word)) }
    ensures cause { MatchResult result (λ _. key_fault (lines text.now) BlockpoolId ≡ None) (λ fault. key_fault (lines text.now) BlockpoolId ≡ Some fault) }
{
    let word = required(Key::BlockpoolId, text)?;
    Word::of(word).ok_or(VersionFault::BadWord(Key::BlockpoolId))
}

fn layout(text: &[u8]) -> Result<i32, VersionFault>
    ensures ok { IfOk result (λ layout. IsSomeAnd (value_of LayoutVersion (lines text.now)) (λ value. layout ≡ neg_ℤ (pos (digits_value 10 (drop 1 value))))) }
    ensures range { IfOk result (λ layout. (layout <ℤ pos 0) × (negsuc 2147483646 ≤ℤ layout)) }
    ensures cause { MatchResult result (λ _. key_fault (lines text.now) LayoutVersion ≡ None) (λ fault. key_fault (lines text.now) LayoutVersion ≡ Some fault) }
{
    let value = required(Key::LayoutVersion, text)?;
    negative(value).ok_or(VersionFault::BadNumber(Key::LayoutVersion))
}

fn required<'a>(key: Key, text: &'a [u8]) -> Result<&'a [u8], VersionFault>
    ensures { MatchResult result (λ value. value_of key (lines text.now) ≡ Some value.now) (λ fault. key_fault (lines text.now) key ≡ Some fault) }
{
    value_of(key, text).ok_or(VersionFault::Missing(key))
}

// A number from 1 to 2147483647.
fn positive(digits: &[u8]) -> Option<u32>
    ensures value { SomeIff result (IsTrue (is_positive digits.now)) (digits_value 10 digits.now) }
    ensures range { IfSome result (λ n. (1 ≤ n) × (n ≤ 2147483647)) }
{
    let number = number(digits)?;
    if 1 <= number && number <= 2_147_483_647 {
        return Some(number as u32);
    }
    None
}

// A `-`, and such a number behind it.
fn negative(value: &[u8]) -> Option<i32>
    ensures value { SomeIff result (IsTrue (is_value LayoutVersion value.now)) (neg_ℤ (pos (digits_value 10 (drop 1 value.now)))) }
    ensures range { IfSome result (λ layout. (layout <ℤ pos 0) × (negsuc 2147483646 ≤ℤ layout)) }
{
    let (sign, digits) = value.split_first()?;
    if *sign != b'-' {
        return None;
    }
    let number = positive(digits)?;
    Some(-(number as i32))
}
