// Files that go or change their names, one after the other.
ghost use Rattle.std.specs.Prelude.{◌≡◌, ◌<◌, OnOk};
ghost use Rattle.nn_host.specs.Moments.{disk_at};
ghost use Rattle.nn_host.specs.Calls.{Called, IsCounted};
ghost use Rattle.nn_host.specs.Runs.{OnlyAt};
ghost use Rattle.nn_tidy.specs.Steps.{call_of, AreApart, AreThere, AreTaken, WereTaken};

use nn_base::{DirNo, FileName, Sub};
use nn_host::{Failed, Host};

/// A file of `current` that goes, or gets another name.
#[derive(Clone, Copy)]
pub(crate) struct Step {
    pub(crate) from: FileName,
    /// Its other name, if it gets one.
    pub(crate) to: Option<FileName>,
}

/// Takes these steps, the last one first.
pub(crate) fn take_all<H: Host>(host: &mut H, i: DirNo, mut steps: Vec<Step>) -> Result<(), Failed>
    requires below { i.0 < (H.state host.old).count }
    requires apart { H.told → AreApart steps.items }
    requires there { H.told → AreThere steps.items ((H.state host.old).reads i.0) }
    ensures ok { H.told → OnOk result (WereTaken steps.items i.0 (H.state host.old) (H.state host.new)) }
    ensures any_moment { OnlyAt H.told i.0 (H.state host.old) (H.state host.new) (AreTaken steps.items (disk_at (H.state host.old) i.0)) }
    ensures cause { IsCounted i.0 (H.state host.old) (H.state host.new) result }
{
    'steps: while let Some(step) = steps.pop() {
        take(host, i, step)?;
    }
    Ok(())
}

fn take<H: Host>(host: &mut H, i: DirNo, step: Step) -> Result<(), Failed>
    requires below { i.0 < (H.state host.old).count }
    ensures { Called H.told i.0 (call_of step) (H.state host.old) (H.state host.new) result }
{
    let Step { from, to } = step;
    match to {
        Some(name) => host.rename_file(i, Sub::Current, from, name),
        None => host.remove_file(i, Sub::Current, from),
    }
}
