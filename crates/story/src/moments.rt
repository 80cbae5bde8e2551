// The calls of a run, by their numbers, and the stops inside them.
use crate::disks::{Broken, chosen, disks, run};
use crate::stage::lines;
use nn_memhost::{Choice, Keep, MemHost};
use std::alloc::Global;

/// The words of a format of two directories.
pub const FORMAT: &str = "format --cluster c1 --namespace 7 A B";

/// Two disks whose name directories are formatted. The call of this number fails, where there is one.
pub fn formatted(alloc: Global, failing: Option<u64>) -> Result<MemHost, Broken> {
    let mut host = disks(alloc, 2, failing)?;
    let _said = run(alloc, &mut host, FORMAT, "", None)?;
    Ok(host)
}

/// What a run over two disks that were formatted has said once it has answered this script and waits for more, and the number
/// that its next call has.
pub fn answered(
    alloc: Global,
    script: &[&str],
    failing: Option<u64>,
) -> Result<(String, u64), Broken> {
    let mut host = formatted(alloc, failing)?;
    // The input fails where there would be more. Then the last line is said, and nothing else is done.
    let read = match script.is_empty() {
        true => 0,
        false => 1,
    };
    let said = run(
        alloc,
        &mut host,
        "run A B",
        lines(alloc, script)?.as_str(),
        Some(read),
    )?;
    let Some(answers) = said.as_str().strip_suffix("source fault\n") else {
        return Err(Broken::Plot);
    };
    Ok((
        String::from_str(alloc, answers)?,
        host.calls().saturating_sub(1),
    ))
}

/// What a stop inside the call of this number leaves of the two disks. Half of the bytes stay that a file was given and that
/// weren't synced.
pub fn stopped(host: &MemHost, call: u64) -> Result<MemHost, Broken> {
    stopped_so(
        host,
        call,
        Choice {
            done: true,
            keep: Keep::Half,
        },
    )
}

fn stopped_so(host: &MemHost, call: u64, choice: Choice) -> Result<MemHost, Broken> {
    match host.stopped_at(call, choice) {
        Ok(left) => Ok(left),
        Err(_) => Err(Broken::Plot),
    }
}

/// Each choice of the two disks, by words of a run over it.
pub const CHOICES: [(&str, &[u8]); 3] = [("run A", &[0]), ("run B", &[1]), ("run A B", &[0, 1])];

/// Stops a run of this script inside each of its calls, before and after a name in flight is changed, and starts again over each choice of the disks: how many starts
/// there were, and how many of them opened to another namespace than that after the lines answered by then or one line more.
pub fn count_lost(alloc: Global, script: &[&str]) -> Result<(u64, u64), Broken> {
    let mut host = formatted(alloc, None)?;
    let mut from = host.calls();
    let _said = run(
        alloc,
        &mut host,
        "run A B",
        lines(alloc, script)?.as_str(),
        None,
    )?;
    let mut tally = Tally { starts: 0, lost: 0 };
    for count in 0..script.len() {
        let (Some(before), Some(after)) = (script.get(..count), script.get(..=count)) else {
            return Err(Broken::Plot);
        };
        let (_, to) = answered(alloc, after, None)?;
        tally.stops(
            alloc,
            &host,
            (from, to),
            [listed(alloc, before)?, listed(alloc, after)?],
        )?;
        from = to;
    }
    let end = host.calls();
    tally.stops(
        alloc,
        &host,
        (from, end),
        [listed(alloc, script)?, listed(alloc, script)?],
    )?;
    Ok((tally.starts, tally.lost))
}

#[derive(Drop)]
struct Tally {
    starts: u64,
    lost: u64,
}

impl Tally {
    // Stops inside each of these calls.
    fn stops(
        &mut self,
        alloc: Global,
        host: &MemHost,
        calls: (u64, u64),
        wanted: [String; 2],
    ) -> Result<(), Broken> {
        for call in calls.0..calls.1 {
            for done in [false, true] {
                let choice = Choice {
                    done,
                    keep: Keep::Half,
                };
                self.stop(alloc, host, (call, choice), &wanted)?;
            }
        }
        Ok(())
    }

    // Starts over each choice of what a stop leaves.
    fn stop(
        &mut self,
        alloc: Global,
        host: &MemHost,
        stop: (u64, Choice),
        wanted: &[String; 2],
    ) -> Result<(), Broken> {
        for (words, numbers) in CHOICES {
            let mut left = stopped_so(host, stop.0, stop.1)?;
            let mut alone = chosen(alloc, &mut left, numbers)?;
            let said = run(alloc, &mut alone, words, "list /\n", None)?;
            self.starts = self.starts.saturating_add(1);
            if !wanted
                .iter()
                .any(|listing| said.as_str().contains(listing.as_str()))
            {
                self.lost = self.lost.saturating_add(1);
            }
        }
        Ok(())
    }
}

// The listing after these commands, as a run in memory alone gives it.
fn listed(alloc: Global, script: &[&str]) -> Result<String, Broken> {
    let mut text = lines(alloc, script)?;
    text.push_str("list /\n")?;
    let mut host = disks(alloc, 0, None)?;
    let said = run(alloc, &mut host, "dry", text.as_str(), None)?;
    // Behind the answers of the commands.
    match said.as_str().find("d 16385 ") {
        Some(at) => Ok(String::from_str(alloc, said.as_str().get(at..).unwrap_or(""))?),
        None => Err(Broken::Plot),
    }
}
