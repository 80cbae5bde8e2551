// Why a command is refused.
ghost use Rattle.std.specs.Prelude.{◌≡◌, ◌++◌, OnOk, OnErr};

use nn_base::{DirNo, NoMemory, Txid};
use nn_chain::ImageWhy;
use nn_marks::{Key, VersionFault};
use nn_state::Why;
use std::alloc::Global;
use std::fmt;

/// The transaction id from which on no run starts, so that none comes to the last id that a signed `long` holds.
pub const SPENT_FROM: u64 = 1 << 62;

/// Why the folder that serves as previous can't be opened. Each holds where the ones before it don't.
#[derive(Clone, Copy, Debug, PartialEq, Eq)]
pub enum PreviousWhy {
    /// Its VERSION is absent or faulty.
    Version,
    /// Its namespaceID, clusterID or blockpoolID isn't that of the folder that serves as current.
    Ids,
    /// Its layout is none of ours, or a newer one than that of the folder that serves as current.
    Layout,
    /// Its cTime isn't below that of the folder that serves as current.
    Ctime,
    /// It has no intact image.
    Image,
    /// Its records end before the id that its `seen_txid` says.
    Gap,
}

impl fmt::Display for PreviousWhy {
    ghost use Rattle.std.specs.Prelude.{Some};
    ghost use Rattle.nn_pick.specs.Words.{previous_word};

    ghost output = { λ why. Some (previous_word why) };

    fn fmt<W: fmt::Write>(&self, f: &mut fmt::Formatter<W>) -> fmt::Result {
        f.write_str(match self {
            PreviousWhy::Version => "version",
            PreviousWhy::Ids => "ids",
            PreviousWhy::Layout => "layout",
            PreviousWhy::Ctime => "ctime",
            PreviousWhy::Image => "image",
            PreviousWhy::Gap => "gap",
        })
    }
}

/// Why a command is refused. Nothing was changed.
#[derive(Clone, Copy, Debug, PartialEq, Eq)]
pub enum Refusal {
    /// This directory isn't there, or is no folder.
    Missing(DirNo),
    /// The table of storage states calls this directory inconsistent, for this reason.
    Inconsistent(DirNo, Why),
    /// This directory holds a state already.
    Formatted(DirNo),
    /// No directory is formatted.
    NotFormatted,
    /// VERSION of this directory has this fault first.
    BadVersion(DirNo, VersionFault),
    /// VERSION of `dir` isn't of the same cluster as that of `first`, the lowest formatted directory; by `key` first.
    Mismatch { first: DirNo, dir: DirNo, key: Key },
    /// This directory has a layout newer than this program.
    FutureLayout(DirNo, i32),
    /// This directory has a layout that this program never wrote.
    ForeignLayout(DirNo, i32),
    /// No directory of the greatest cTime has an intact image; why not this one, the lowest of them.
    NoImage(DirNo, ImageWhy),
    /// The records end at `last`, though a `seen_txid` says that the journal went on to `seen`.
    Gap { seen: u64, last: Txid },
    /// The last transaction id is `SPENT_FROM` or above, which leaves no room for a run.
    Spent(Txid),
    /// This directory has a saved namespace already, so none can be saved.
    PreviousExists(DirNo),
    /// The cTime is the last one that there is, so no upgrade can raise it.
    CtimeSpent(u64),
    /// No chosen directory has a saved namespace to go back to.
    NoPrevious,
    /// The saved namespace of this directory can't be opened.
    BadPrevious(DirNo, PreviousWhy),
}

impl Refusal {
    ghost use Rattle.std.specs.Prelude.{IfOk};
    ghost use Rattle.std.specs.String.{string_bytes};
    ghost use Rattle.nn_pick.specs.Lines.{refusal_line};

    /// Appends the line that is said of it, with its newline.
    pub fn line(&self, alloc: Global, out: &mut Vec<u8>) -> Result<(), NoMemory>
        ensures ok { OnOk result (out.new.items ≡ out.old.items ++ refusal_line self.now) }
        ensures err { OnErr result (out.new.items ≡ out.old.items) }
    {
        let text = self.text(alloc)?;
        out.extend_from_slice(text.as_bytes())?;
        Ok(())
    }

    /// That line as a text.
    pub fn text(&self, alloc: Global) -> Result<String, NoMemory>
        ensures { IfOk result (λ text. string_bytes text ≡ refusal_line self.now) }
    {
        let text = match self {
            Refusal::Missing(i) => format!(in alloc; "refused missing {}\n", i.0)?,
            Refusal::Inconsistent(i, why) => {
                format!(in alloc; "refused inconsistent {} {}\n", i.0, why)?
            }
            Refusal::Formatted(i) => format!(in alloc; "refused formatted {}\n", i.0)?,
            Refusal::NotFormatted => format!(in alloc; "refused not-formatted\n")?,
            Refusal::BadVersion(i, _) => format!(in alloc; "refused bad-version {}\n", i.0)?,
            Refusal::Mismatch { first, dir, key } => {
                format!(in alloc; "refused mismatch {} {} {}\n", first.0, dir.0, key)?
            }
            Refusal::FutureLayout(i, found) => {
                format!(in alloc; "refused future-layout {} {}\n", i.0, found)?
            }
            Refusal::ForeignLayout(i, found) => {
                format!(in alloc; "refused foreign-layout {} {}\n", i.0, found)?
            }
            Refusal::NoImage(i, why) => format!(in alloc; "refused no-image {} {}\n", i.0, why)?,
            Refusal::Gap { seen, last } => format!(in alloc; "refused gap {} {}\n", seen, last.0)?,
            Refusal::Spent(last) => format!(in alloc; "refused spent {}\n", last.0)?,
            Refusal::PreviousExists(i) => {
                format!(in alloc; "refused previous-exists {}\n", i.0)?
            }
            Refusal::CtimeSpent(old) => format!(in alloc; "refused ctime-spent {}\n", old)?,
            Refusal::NoPrevious => format!(in alloc; "refused no-previous\n")?,
            Refusal::BadPrevious(i, why) => {
                format!(in alloc; "refused bad-previous {} {}\n", i.0, why)?
            }
        };
        Ok(text)
    }
}
