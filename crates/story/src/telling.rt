// The chapters of the story.
use crate::disks::{Broken, chosen, run};
use crate::moments::{CHOICES, FORMAT, answered, count_lost, formatted, stopped};
use crate::stage::{Stage, lines};
use nn_base::DirNo;
use nn_memhost::MemHost;
use std::alloc::Global;

/// Tells the whole story.
pub fn tell<R: Print>(rt: &R, alloc: Global) -> Result<(), Broken> {
    let stage = Stage { rt, alloc };
    stage.says(
        "Two name directories, A and B, each on a disk of its own. The disks stand in memory: they fail, and lose power,",
    )?;
    stage.says(
        "where the story wants it, by the disk model that the claims of the program speak of.",
    )?;
    let mut host = formatted(alloc, None)?;
    let said = "formatted 2\n";
    stage.chapter("A new namespace in both")?;
    stage.shows(FORMAT, &[], said)?;
    stage.plays(&mut host, "state A B", &[])?;
    a_sync_fails(&stage)?;
    power_goes(&stage)?;
    every_other_moment(&stage)
}

// What a run is asked while the disk under B fails, up to where the power goes, and the line over which it does.
const ASKED: [&str; 5] = [
    "mkdir /logs",
    "create /logs/today 3",
    "dirs",
    "block /logs/today 134217728",
    "close /logs/today",
];

const CUT: &str = "mkdir /logs/next";

// The disk under B fails, and then the power goes while A writes.
fn a_sync_fails<R: Print>(stage: &Stage<'_, R>) -> Result<(), Broken> {
    let alloc = stage.alloc;
    // A writes and syncs, and B writes and syncs: the fourth call of the second command fails.
    let (_, second) = answered(alloc, &ASKED[..1], None)?;
    let failing = Some(second.saturating_add(3));
    let (said, cut) = answered(alloc, &ASKED, failing)?;
    stage.chapter("A run in which the disk under B fails")?;
    stage.says(
        "Each line is answered once its record is synced in each directory that is left. B's sync fails at the second",
    )?;
    stage.says(
        "command: B is dropped, A begins a new segment, so that B can't pass for it later, and the run goes on.",
    )?;
    stage.shows("run A B", &ASKED, said.as_str())?;
    stage.chapter("The power goes while A writes the next record")?;
    stage.says(
        "The command wasn't answered. Half of its record is on A's disk, and half of what B had not synced on B's.",
    )?;
    let mut host = formatted(alloc, failing)?;
    let mut script = lines(alloc, &ASKED)?;
    script.push_str(CUT)?;
    let _said = run(alloc, &mut host, "run A B", script.as_str(), None)?;
    let mut left = stopped(&host, cut)?;
    stage.segments(&mut left, "A", DirNo(0))?;
    stage.segments(&mut left, "B", DirNo(1))?;
    stage.plays(&mut left, "state A B", &[])?;
    stage.chapter("A start over each choice of them")?;
    stage.says(
        "A alone, and A beside B, hold all that was answered, and half a record is nothing. A call on B had failed, so",
    )?;
    stage.says(
        "nothing is promised of B by itself: it opens to what it had. Beside A it is brought to what A holds.",
    )?;
    starts(stage, &host, cut)
}

// The power goes while both directories are written to.
fn power_goes<R: Print>(stage: &Stage<'_, R>) -> Result<(), Broken> {
    let alloc = stage.alloc;
    let asked = ["mkdir /data", "create /data/raw 2"];
    let (said, cut) = answered(alloc, &asked, None)?;
    stage.chapter("The power goes between two healthy disks")?;
    stage.says(
        "A has synced the record of the last command, and B has half of it. It wasn't answered.",
    )?;
    let mut host = formatted(alloc, None)?;
    let mut script = lines(alloc, &asked)?;
    script.push_str("block /data/raw 50")?;
    stage.shows("run A B", &asked, said.as_str())?;
    let _said = run(alloc, &mut host, "run A B", script.as_str(), None)?;
    // A writes and syncs before B writes.
    let call = cut.saturating_add(2);
    let mut left = stopped(&host, call)?;
    stage.segments(&mut left, "A", DirNo(0))?;
    stage.segments(&mut left, "B", DirNo(1))?;
    stage.chapter("A start over each choice of them")?;
    stage.says(
        "Each holds all that was answered, and at most one command more: A's choices have the block, B alone hasn't.",
    )?;
    starts(stage, &host, call)
}

// Shows a start over each choice of the disks that a stop inside this call leaves.
fn starts<R: Print>(stage: &Stage<'_, R>, host: &MemHost, call: u64) -> Result<(), Broken> {
    for (words, numbers) in CHOICES {
        let mut left = stopped(host, call)?;
        let mut alone = chosen(stage.alloc, &mut left, numbers)?;
        stage.plays(&mut alone, words, &["list /"])?;
    }
    Ok(())
}

// The same at each moment of a run.
fn every_other_moment<R: Print>(stage: &Stage<'_, R>) -> Result<(), Broken> {
    stage.chapter("And each other moment")?;
    stage.says(
        "A run of three lines is stopped inside each of its calls, in two ways, and started again over each choice.",
    )?;
    let script = ["mkdir /a", "roll", "rename /a /b"];
    let (starts, lost) = count_lost(stage.alloc, &script)?;
    println!(stage.rt;
        "    {starts} starts, {lost} with another namespace than after the answered lines or one more"
    )?;
    Ok(())
}
