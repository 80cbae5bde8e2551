// Stops inside recorded calls.
ghost use Rattle.std.specs.Prelude.{◌≡◌, ◌++◌, OnOk};
ghost use Rattle.nn_memhost.specs.Stop.{stays};

use nn_base::NoMemory;

/// What stays, at a stop, of the bytes of each file that were handed over and not synced.
#[derive(Clone, Copy, Debug, PartialEq, Eq)]
pub enum Keep {
    /// None of them.
    Synced,
    /// The first half, rounded down.
    Half,
    /// All of them.
    All,
    /// All of them, with the bits of the last byte turned over.
    Torn,
}

/// How a stop inside a call leaves things.
#[derive(Clone, Copy, Debug, PartialEq, Eq)]
pub struct Choice {
    /// Whether a name, a rename or a removal in flight took place.
    pub done: bool,
    /// What stays of bytes that weren't synced.
    pub keep: Keep,
}

/// Why there is no host for a stop.
#[derive(Clone, Copy, Debug, PartialEq, Eq)]
pub enum StopFault {
    /// Not so many calls were recorded.
    NoSuchCall,
    /// There was no memory for the contents.
    Memory,
}

/// Puts behind the synced bytes what stays of the others.
pub fn keep_tail(bytes: &mut Vec<u8>, pending: &[u8], keep: Keep) -> Result<(), NoMemory>
    ensures { OnOk result (bytes.new.items ≡ bytes.old.items ++ stays keep pending.now) }
{
    let n = pending.len();
    match keep {
        Keep::Synced => Ok(()),
        Keep::Half => extend(bytes, &pending[..n / 2]),
        Keep::All => extend(bytes, pending),
        Keep::Torn => {
            if n == 0 {
                return Ok(());
            }
            extend(bytes, &pending[..n - 1])?;
            bytes.push(255 - pending[n - 1])?;
            Ok(())
        }
    }
}

fn extend(bytes: &mut Vec<u8>, more: &[u8]) -> Result<(), NoMemory>
    ensures { OnOk result (bytes.new.items ≡ bytes.old.items ++ more.now) }
{
    bytes.extend_from_slice(more)?;
    Ok(())
}
