//! The speed of images over the linked tree: the image in the file that is the one argument is read, its tree is walked
//! once, and the image is written again. On standard output a line each: what was done, how many bytes and nodes, and the
//! nanoseconds of processor time for a node. Without an argument nothing is done.
#![tactic(auto)]

ghost use Rattle.std.specs.Prelude.{◌≡◌, ◌≤◌, ◌^◌, true, [], IfSome};
ghost use Rattle.nn_tree.specs.Imaged.{IsImaged};

use nn_arena::ArenaTree;
use nn_base::limits::LAYOUT;
use nn_base::{NoMemory, Path};
use nn_image::{Loaded, load, save};
use nn_tree::{Spot, Tree, Walk, next_below};
use std::alloc::Global;
use std::process::ExitCode;
use std::time::{CpuClock, Duration};
use std::{env, fs, io};

/// The most nodes that a tree has.
const NODES: u64 = 1_048_576;

fn root_of<T: Tree>(alloc: Global, tree: &T) -> Option<Spot>
    ensures there { IfSome result (λ root. T.has tree.now root ≡ true) }
    ensures top { IfSome result (λ root. T.place tree.now root ≡ []) }
{
    match tree.find(&Path::root(alloc)) {
        Walk::Found(root) => Some(root),
        Walk::Missing => None,
        Walk::ThroughFile => None,
    }
}

// Goes from node to node as a writer does, and counts them.
fn walk<T: Tree>(tree: &T, root: Spot) -> u64
    requires there { T.has tree.now root ≡ true }
    requires top { T.place tree.now root ≡ [] }
{
    let mut count: u64 = 0;
    let mut next = Some(root);
    'nodes: for _ in 0..NODES {
        match next {
            None => break,
            Some(at) => {
                count = count.wrapping_add(1);
                next = next_below(tree, at, root);
            }
        }
    }
    count
}

// Writes the image into one buffer, and tells whether it is these bytes.
fn write<T: Tree>(alloc: Global, loaded: &Loaded<T>, bytes: &[u8]) -> Result<bool, NoMemory>
    requires { IsImaged (T.meaning loaded.now.tree) }
{
    let mut saver = save(alloc, &loaded.tree, loaded.id, loaded.namespace, LAYOUT)?;
    let mut piece = Vec::new(alloc);
    let mut at = 0;
    'pieces: for _ in 0..=bytes.len() {
        if !saver.next(&loaded.tree, &mut piece)? {
            return Ok(at == bytes.len());
        }
        if !bytes[at..].starts_with(&piece) {
            return Ok(false);
        }
        at += piece.len();
    }
    Ok(false)
}

fn each(took: Duration, nodes: u64) -> u128 {
    took.as_nanos() / u128::from(nodes).max(1)
}

fn measure(rt: &(impl CpuClock + Print), alloc: Global, bytes: &[u8]) -> io::Result<()> {
    let start = rt.process_cpu_time()?;
    let loaded = match load::<ArenaTree>(alloc, bytes, LAYOUT) {
        Ok(loaded) => loaded,
        Err(fault) => return println!(rt; "no image: {fault}"),
    };
    let read = rt.process_cpu_time()?.saturating_sub(start);
    let Some(root) = root_of(alloc, &loaded.tree) else {
        return println!(rt; "no root");
    };
    let start = rt.process_cpu_time()?;
    let nodes = walk(&loaded.tree, root);
    let walked = rt.process_cpu_time()?.saturating_sub(start);
    let start = rt.process_cpu_time()?;
    let same = write(alloc, &loaded, bytes).unwrap_or(false);
    let wrote = rt.process_cpu_time()?.saturating_sub(start);
    println!(rt;
        "save {} {nodes} {} {same}",
        bytes.len(),
        each(wrote, nodes)
    )?;
    println!(rt; "load {} {nodes} {} {same}", bytes.len(), each(read, nodes))?;
    println!(rt;
        "walk {} {nodes} {} {same}",
        bytes.len(),
        each(walked, nodes)
    )
}

fn main(rt: HostRuntime) -> ExitCode {
    let Ok(mut words) = env::args(&rt) else {
        return ExitCode::FAILURE;
    };
    let Some(path) = words.nth(1) else {
        return ExitCode::SUCCESS;
    };
    let Ok(bytes) = fs::read(&rt, &path) else {
        return ExitCode::FAILURE;
    };
    match measure(&rt, rt.alloc(), &bytes) {
        Ok(()) => ExitCode::SUCCESS,
        Err(_) => ExitCode::FAILURE,
    }
}
