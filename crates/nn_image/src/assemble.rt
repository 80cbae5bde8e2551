// The tree of an image's messages.
ghost use Rattle.std.specs.Prelude.{◌≡◌, ◌≢◌, ◌==◌, ◌&&◌, ◌↔◌, ◌≤◌, ℕ, Bool, true, false, List, [], All, Err, IfOk, Some, None, IfSome, MatchOption, IsTrue, length, map, nat_le};
ghost use Rattle.std.specs.List.{list_all};
ghost use Rattle.nn_base.specs.Labels.{IsLabel};
ghost use Rattle.nn_base.specs.Limits.{most_image};
ghost use Rattle.nn_base.specs.Paths.{Bytes};
ghost use Rattle.nn_tree.specs.declared.spot.Spot.{Spot};
ghost use Rattle.nn_tree.specs.Limits.{IsCounters};
ghost use Rattle.nn_image.specs.declared.unmade.Unmade.TheVariants as unmade;
ghost use Rattle.nn_message.specs.Messages.{Content, Inode, DirEntry, IsContent, IsInode, IsDirEntry};
ghost use Rattle.nn_message.specs.Frame.{sections_of};
ghost use Rattle.nn_image.specs.Assembly.{Level, Partial, waiting, are_given, add_all, assemble};
ghost use Rattle.nn_image.specs.Building.{AreOpen, entries_text, inodes_text, blocks_among, IsNoted, IsHalf, AreHeads};
ghost use Rattle.nn_image.specs.Faults.{IsCounted};

use crate::count::{count_messages, have_few_blocks};
use crate::given;
use crate::half::Half;
use crate::nodes::{add_first, add_nodes};
use crate::noted::Noted;
use crate::open_dir::take_waiting;
use crate::string_table::read_table;
use crate::unmade::Unmade;
use nn_message::{read_ns_info, take_inode, take_inodes_head, take_strings_head};
use nn_strtab::Names;
use nn_tree::{Counters, Tree};
use std::alloc::Global;

/// The tree of all nodes, and what goes with it.
fn build<'a, T: Tree>(
    alloc: Global,
    names: &Names,
    inodes: &'a [u8],
    directories: &'a [u8],
) -> Result<(T, Half<'a>), Unmade>
    requires labels { All IsLabel names.now }
    requires listed { ((entries : List DirEntry) × All IsDirEntry entries × (directories.now ≡ entries_text entries)) }
    ensures ok { (entries : List DirEntry) (all : List Inode) → All IsDirEntry entries → directories.now ≡ entries_text entries → All IsInode all → inodes.now ≡ inodes_text all →
        IfOk result (λ made. ((h : Partial) × (add_all names.now entries all ≡ Some h) ×
        IsHalf made.1 (T.meaning made.0) (T.has made.0) (T.place made.0) names.now entries all h)) }
    ensures tree { (entries : List DirEntry) (all : List Inode) → All IsDirEntry entries → directories.now ≡ entries_text entries → All IsInode all → inodes.now ≡ inodes_text all →
        result ≡ Err unmade.Tree → add_all names.now entries all ≡ None }
{
    let mut rest = inodes;
    let Some(first) = take_inode(&mut rest) else {
        return Err(Unmade::Tree);
    };
    match add_first::<T>(alloc, names, directories, &first) {
        Ok((mut tree, mut half)) => match add_nodes(alloc, &mut tree, &mut half, names, rest) {
            Ok(()) => Ok((tree, half)),
            Err(unmade) => Err(unmade),
        },
        Err(unmade) => Err(unmade),
    }
}

/// Whether nothing is to come any more, and all names of the string table are used.
fn is_whole(half: &mut Half<'_>, names: &Names) -> bool
    ensures yes { result ≡ true → (has : Spot → Bool) (place : Spot → List Bytes) (levels : List Level) (entries : List DirEntry) →
        AreOpen has place half.old.dirs.items levels → All IsDirEntry entries → half.old.directories.now ≡ entries_text entries →
        (waiting levels ≡ []) × (entries ≡ []) × (half.old.used ≡ length names.now) }
    ensures no { result ≡ false → (has : Spot → Bool) (place : Spot → List Bytes) (levels : List Level) (entries : List DirEntry) →
        AreOpen has place half.old.dirs.items levels → All IsDirEntry entries → half.old.directories.now ≡ entries_text entries →
        waiting levels ≡ [] → entries ≡ [] → half.old.used ≢ length names.now }
    ensures noted { half.new.noted ≡ half.old.noted }
{
    match take_waiting(&mut half.dirs) {
        Some(_) => return false,
        None => {}
    }
    if !half.directories.is_empty() {
        return false;
    }
    half.used == names.len()
}

/// Whether no id was given twice, and neither an id nor a stamp is above the last one given.
fn are_all_given(noted: &mut Noted, last: &Counters) -> bool
    ensures { (done : List Inode) → IsNoted noted.old done → result ≡ (are_given (map (λ i. i.id) done) last.now.inode &&
        are_given (map (λ b. b.id) (blocks_among done)) last.now.block && list_all (λ b. nat_le b.stamp last.now.stamp) (blocks_among done)) }
{
    if !given::are_given(&mut noted.inodes, last.inode) {
        return false;
    }
    if !given::are_given(&mut noted.blocks, last.block) {
        return false;
    }
    noted.stamp <= last.stamp
}

/// What the messages before those that repeat say, and the bytes of these.
#[derive(Clone, Copy)]
struct Heads<'a> {
    last: Counters,
    /// How many strings and how many nodes there are said to be.
    strings: u64,
    nodes: u64,
    texts: &'a [u8],
    inodes: &'a [u8],
}

fn heads_of<'a>(info: &[u8], strings: &'a [u8], inodes: &'a [u8]) -> Option<Heads<'a>>
    ensures ranges { IfSome result (λ heads. IsCounters heads.last) }
    ensures few { IfSome result (λ heads. length heads.texts.now ≤ length strings.now) }
    ensures some { (content : Content) → IsContent content → info.now ≡ (sections_of content).info → strings.now ≡ (sections_of content).strings → inodes.now ≡ (sections_of content).inodes →
        MatchOption result ⊥ (λ heads. AreHeads heads content) }
{
    let info = read_ns_info(info)?;
    let mut texts = strings;
    let count = take_strings_head(&mut texts)?;
    let mut rest = inodes;
    let (inode, nodes) = take_inodes_head(&mut rest)?;
    Some(Heads {
        last: Counters {
            inode,
            block: info.block,
            stamp: info.stamp,
        },
        strings: count,
        nodes,
        texts,
        inodes: rest,
    })
}

/// Whether there are as many strings and nodes as is said, and no more blocks than a namespace has.
fn is_counted(heads: &Heads<'_>) -> bool
    ensures { (content : Content) → IsContent content → AreHeads heads.now content → IsTrue result ↔ IsCounted content }
{
    if count_messages(heads.texts) != heads.strings {
        return false;
    }
    if count_messages(heads.inodes) != heads.nodes {
        return false;
    }
    have_few_blocks(heads.inodes)
}

/// The tree of all messages, where the counts are theirs. An `Err` of `Tree` says that there is none.
fn tree_of<'a, T: Tree>(
    alloc: Global,
    heads: &Heads<'a>,
    directories: &'a [u8],
) -> Result<T, Unmade>
    requires few { length heads.now.texts.now ≤ most_image }
    requires listed { ((entries : List DirEntry) × All IsDirEntry entries × (directories.now ≡ entries_text entries)) }
    requires ranges { IsCounters heads.now.last }
    ensures ok { (content : Content) → IsContent content → AreHeads heads.now content → directories.now ≡ entries_text content.dir_entries → IsCounted content →
        IfOk result (λ tree. assemble content ≡ Some (T.meaning tree)) }
    ensures tree { (content : Content) → IsContent content → AreHeads heads.now content → directories.now ≡ entries_text content.dir_entries → IsCounted content →
        result ≡ Err unmade.Tree → assemble content ≡ None }
{
    let names = match read_table(alloc, heads.texts) {
        Ok(names) => names,
        Err(unmade) => return Err(unmade),
    };
    let (mut tree, mut half) = match build::<T>(alloc, &names, heads.inodes, directories) {
        Ok(built) => built,
        Err(unmade) => return Err(unmade),
    };
    if !is_whole(&mut half, &names) {
        return Err(Unmade::Tree);
    }
    if !are_all_given(&mut half.noted, &heads.last) {
        return Err(Unmade::Tree);
    }
    tree.set_counters(heads.last);
    Ok(tree)
}

/// The tree of the messages of an image, section by section: the one namespace that has them. An `Err` of `Tree` says
/// that there is none. One of `Memory` comes only where the counts are those of the messages and no limit is exceeded by
/// them. Each message is known to be whole before, so that only how they go together is asked here.
pub(crate) fn assemble_tree<'a, T: Tree>(
    alloc: Global,
    info: &'a [u8],
    strings: &'a [u8],
    inodes: &'a [u8],
    directories: &'a [u8],
) -> Result<T, Unmade>
    requires few { length strings.now ≤ most_image }
    requires whole { ((content : Content) × IsContent content × (sections_of content ≡
        record { info = info.now; strings = strings.now; inodes = inodes.now; directories = directories.now })) }
    ensures ok { (content : Content) → IsContent content → sections_of content ≡
        (record { info = info.now; strings = strings.now; inodes = inodes.now; directories = directories.now }) → IfOk result (λ tree. assemble content ≡ Some (T.meaning tree)) }
    ensures tree { result ≡ Err unmade.Tree → (content : Content) → IsContent content → sections_of content ≡
        (record { info = info.now; strings = strings.now; inodes = inodes.now; directories = directories.now }) → assemble content ≡ None }
    ensures memory { result ≡ Err unmade.Memory → (content : Content) → IsContent content → sections_of content ≡
        (record { info = info.now; strings = strings.now; inodes = inodes.now; directories = directories.now }) → IsCounted content }
{
    let Some(heads) = heads_of(info, strings, inodes) else {
        return Err(Unmade::Tree);
    };
    // A count may be damaged, or too great, so it is looked at before any memory is asked for.
    if is_counted(&heads) {
        tree_of(alloc, &heads, directories)
    } else {
        Err(Unmade::Tree)
    }
}
