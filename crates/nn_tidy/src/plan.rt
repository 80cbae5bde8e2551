// What is to be done in a directory that is tidied, in the order in which it is.
ghost use Rattle.std.specs.Prelude.{◌≡◌, ◌<◌, ℕ, ℤ, List, [], ◌∷◌, ◌++◌, OnOk, IfOk};
ghost use Rattle.nn_base.specs.declared.file_name.FileName.{FileName as Name};
ghost use Rattle.nn_base.specs.declared.sub.Sub.TheVariants.{Current};
ghost use Rattle.nn_host.specs.Moments.{disk_at};
ghost use Rattle.nn_host.specs.Runs.{OnlyAt};
ghost use Rattle.nn_chain.specs.Folder.{Folder, folder_at};
ghost use Rattle.nn_remake.specs.Counts.{IsCountedBy};
ghost use Rattle.nn_tidy.specs.Fates.{IsFate};
ghost use Rattle.nn_tidy.specs.Plans.{IsPlan};

use crate::fate::{Fate, fate_of};
use crate::steps::Step;
use nn_base::{DirNo, FileName, NoMemory, Txid};
use nn_host::Host;
use nn_marks::Version;
use nn_remake::MakeFault;
use std::alloc::Global;

/// What is to be done, each list from its last step to its first.
#[derive(Drop)]
pub(crate) struct Plan {
    /// Done first.
    pub(crate) loose: Vec<Step>,
    pub(crate) beyond: Vec<Step>,
    /// Done last.
    pub(crate) ends: Vec<Step>,
}

impl Plan {
    fn put(&mut self, name: FileName, fate: Fate) -> Result<(), NoMemory>
        ensures put { (folder : Folder) (layout : ℤ) (id : ℕ) (names : List Name) → IsFate folder layout id name fate → IsPlan folder layout id names self.old → OnOk result (IsPlan folder layout id (names ++ name ∷ []) self.new) }
    {
        match fate {
            Fate::Stays => {}
            Fate::Loose => self.loose.push(Step {
                from: name,
                to: None,
            })?,
            Fate::Beyond => self.beyond.push(Step {
                from: name,
                to: None,
            })?,
            Fate::Ends(to) => self.ends.push(Step { from: name, to })?,
        }
        Ok(())
    }

    /// All steps, from the last to the first.
    pub(crate) fn joined(self) -> Result<Vec<Step>, NoMemory>
        ensures { IfOk result (λ steps. steps.items ≡ self.ends.items ++ (self.beyond.items ++ self.loose.items)) }
    {
        let Plan {
            mut loose,
            mut beyond,
            mut ends,
        } = self;
        beyond.append(&mut loose)?;
        ends.append(&mut beyond)?;
        Ok(ends)
    }
}

/// What is to be done in a folder with these files.
pub(crate) fn plan_of<H: Host>(
    alloc: Global,
    host: &mut H,
    i: DirNo,
    names: &[FileName],
    id: Txid,
    version: &Version,
) -> Result<Plan, MakeFault>
    requires below { i.0 < (H.state host.old).count }
    ensures ok { H.told → IfOk result (λ plan. IsPlan (folder_at ((H.state host.old).reads i.0) Current) version.now.layout id names.now plan) }
    ensures kept { H.told → OnOk result ((H.state host.new).reads i.0 ≡ (H.state host.old).reads i.0) }
    ensures any_moment { OnlyAt H.told i.0 (H.state host.old) (H.state host.new) (λ d. d ≡ disk_at (H.state host.old) i.0) }
    ensures cause { IsCountedBy i.0 (H.state host.old) (H.state host.new) result }
{
    let mut plan = Plan {
        loose: Vec::new(alloc),
        beyond: Vec::new(alloc),
        ends: Vec::new(alloc),
    };
    'names: for name in names {
        let fate = fate_of(alloc, host, i, *name, id, version)?;
        plan.put(*name, fate)?;
    }
    Ok(plan)
}
