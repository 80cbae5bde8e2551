// Which directories refuse a command, and which of them first.
ghost use Rattle.std.specs.Prelude.{◌≡◌};
ghost use Rattle.nn_pick.specs.Refused.{or_else, unusable as unusable_at, unformattable as unformattable_at};

use crate::Refusal;
use nn_base::DirNo;
use nn_state::{StorageState, Why};

/// Why directory `i`, of which the table of storage states says this, can't be worked on as it is: it is missing or
/// inconsistent.
pub fn unusable(i: DirNo, found: Result<StorageState, Why>) -> Option<Refusal>
    ensures { result ≡ unusable_at i.0 found }
{
    match found {
        Ok(StorageState::NonExistent) => Some(Refusal::Missing(i)),
        Ok(_) => None,
        Err(why) => Some(Refusal::Inconsistent(i, why)),
    }
}

/// Why directory `i`, of which the table of storage states says this, can't be formatted: it is missing, inconsistent, or
/// holds a state already, one that has yet to be recovered among them.
pub fn unformattable(i: DirNo, found: Result<StorageState, Why>) -> Option<Refusal>
    ensures { result ≡ unformattable_at i.0 found }
{
    match found {
        Ok(StorageState::NotFormatted) => None,
        Ok(StorageState::NonExistent) => Some(Refusal::Missing(i)),
        Ok(_) => Some(Refusal::Formatted(i)),
        Err(why) => Some(Refusal::Inconsistent(i, why)),
    }
}

/// The refusal of a lower directory, if there is one, or else this one.
pub fn earlier(lower: Option<Refusal>, next: Option<Refusal>) -> Option<Refusal>
    ensures { result ≡ or_else lower next }
{
    lower.or(next)
}
