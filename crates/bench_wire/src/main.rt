//! The speed of the checksum, on standard error: for each size of a block a line with its bytes, the megabytes in a
//! second and the checksums joined. The one argument is how many megabytes to take at each size; without it that is 1.
#![tactic(auto)]

ghost use Rattle.std.specs.Prelude.{◌<◌, length};

use nn_wire::crc32;
use std::rt::Env;
use std::time::CpuClock;
use std::{env, io};

fn amount(rt: &(impl Env + Alloc)) -> io::Result<u64> {
    let megabytes = match env::args(rt)?.nth(1) {
        Some(word) => word.parse::<u32>().unwrap_or(1),
        None => 1,
    };
    Ok(u64::from(megabytes) * 1_000_000)
}

// The block differs each time and the checksums are joined, so that none can be left out.
fn measure(rt: &(impl CpuClock + Eprint), block: &mut [u8], amount: u64) -> io::Result<()>
    requires { 0 < length block.old }
{
    let size = block.len() as u64;
    let mut joined = 0;
    let start = rt.process_cpu_time()?;
    for time in 0..amount / size {
        block[0] = (time % 256) as u8;
        joined ^= crc32(block);
    }
    let micros = rt.process_cpu_time()?.saturating_sub(start).as_micros();
    let speed = u128::from(amount - amount % size) / micros.max(1);
    eprintln!(rt; "{size} {speed} {joined:08x}")
}

fn main(rt: HostRuntime) -> io::Result<()> {
    let amount = amount(&rt)?;
    measure(&rt, &mut [7; 64], amount)?;
    measure(&rt, &mut [7; 1024], amount)?;
    measure(&rt, &mut [7; 65536], amount)
}
