//! The speed of records and segments, on standard error: a line for records that are written and one for a segment that is
//! read, each with its bytes, the megabytes in a second of processor time, and what was found. The one argument is how
//! many records; without it there are 1,000.
#![tactic(auto)]

ghost use Rattle.std.specs.Prelude.{◌≤◌, vec_capacity, IfSome};
ghost use Rattle.nn_record.specs.Ops.{IsOp};

use nn_base::limits::LAYOUT;
use nn_base::{Label, Path, Txid};
use nn_record::{Op, Record};
use nn_segment::{header_put, intact_run};
use std::alloc::Global;
use std::process::ExitCode;
use std::time::{CpuClock, Duration};
use std::{env, io};

// The record of `mkdir /user/hdfs/part-00001`. None stands for want of memory.
fn mkdir(alloc: Global) -> Option<Op>
    ensures { IfSome result IsOp }
{
    let path = Path::parse(alloc, b"/user/hdfs/part-00001").ok()?;
    let owner = Label::of(b"hdfs")?;
    let group = Label::of(b"supergroup")?;
    Some(Op::Mkdir {
        inode: 16386,
        path,
        time: 1_700_000_000_000,
        owner,
        group,
        mode: 0o755,
    })
}

// Writes so many records, each in the place of the one before it, and says how many bytes they have.
fn write_records(count: u32, op: &Op, out: &mut Vec<u8>) -> u64
    requires op { IsOp op.now }
    requires room { 65536 ≤ vec_capacity out.old }
{
    let mut written: u64 = 0;
    'records: for id in 1..=count {
        out.clear();
        Record::put_op(Txid(u64::from(id)), op, out);
        written = written.wrapping_add(out.len() as u64);
    }
    written
}

// A segment of so many records.
fn segment(alloc: Global, count: u32, op: &Op) -> Option<Vec<u8>>
    requires op { IsOp op.now }
{
    let mut one = Vec::with_capacity(alloc, 65536).ok()?;
    let mut all = Vec::new(alloc);
    all.extend_from_slice(&header_put(LAYOUT)).ok()?;
    'records: for id in 1..=count {
        one.clear();
        Record::put_op(Txid(u64::from(id)), op, &mut one);
        all.extend_from_slice(&one).ok()?;
    }
    Some(all)
}

fn speed(bytes: u64, took: Duration) -> u128 {
    u128::from(bytes) / took.as_micros().max(1)
}

fn measure(rt: &(impl CpuClock + Eprint), alloc: Global, count: u32) -> io::Result<()> {
    let Some(op) = mkdir(alloc) else {
        return eprintln!(rt; "no memory");
    };
    let Ok(mut out) = Vec::with_capacity(alloc, 65536) else {
        return eprintln!(rt; "no memory");
    };
    let start = rt.process_cpu_time()?;
    let written = write_records(count, &op, &mut out);
    let took = rt.process_cpu_time()?.saturating_sub(start);
    eprintln!(rt; "write {written} {} {count}", speed(written, took))?;

    let Some(bytes) = segment(alloc, count, &op) else {
        return eprintln!(rt; "no memory");
    };
    let start = rt.process_cpu_time()?;
    let run = intact_run(alloc, &bytes, LAYOUT, Txid(1));
    let took = rt.process_cpu_time()?.saturating_sub(start);
    match run {
        Ok(run) => {
            let last = match run.last {
                Some(id) => id.0,
                None => 0,
            };
            eprintln!(rt; "read {} {} {last}", run.end, speed(run.end as u64, took))
        }
        Err(_) => eprintln!(rt; "no memory"),
    }
}

fn main(rt: HostRuntime) -> ExitCode {
    let count = match env::args(&rt) {
        Ok(mut words) => match words.nth(1) {
            Some(word) => word.parse::<u32>().unwrap_or(1000),
            None => 1000,
        },
        Err(_) => 1000,
    };
    match measure(&rt, rt.alloc(), count) {
        Ok(()) => ExitCode::SUCCESS,
        Err(_) => ExitCode::FAILURE,
    }
}
