// The answers that are more than a line.
ghost use Rattle.std.specs.Prelude.{◌≡◌, ◌≤◌, ◌+◌, ◌*◌, ◌++◌, length, vec_len, vec_capacity};
ghost use Rattle.nn_base.specs.DirSets.{has};
ghost use Rattle.nn_script.specs.declared.answer.Answer.TheVariants.{Done};
ghost use Rattle.nn_script.specs.Answers.{list_text};
ghost use Rattle.nn_script.specs.Spelling.{answer_text, dir_lines, max_dir_line};
ghost use Rattle.nn_say.specs.Saying.{Says};

use crate::listing::say_listing;
use crate::speech::Speech;
use nn_base::{DirNo, DirSet, Path};
use nn_host::{Failed, Host};
use nn_ops::OpRefusal;
use nn_script::{Answer, dir_line};
use nn_tree::{Tree, Walk};

/// Answers `list`: the lines of what stands at a path and of all below it, in the order of paths, and how many nodes these are;
/// or why nothing stands there. A listing of more than 65,536 bytes goes out in several calls.
pub fn say_list<H: Host, T: Tree>(
    host: &mut H,
    tree: &T,
    path: &Path,
    speech: &mut Speech,
) -> Result<(), Failed>
    ensures { Says H.told (H.state host.old) (H.state host.new)
        (list_text (T.meaning tree.now).nodes path.now) result }
{
    match tree.find(path) {
        Walk::Found(top) => say_listing(host, tree, top, speech),
        Walk::Missing => speech.say(host, Answer::Refused(OpRefusal::NotFound)),
        Walk::ThroughFile => speech.say(host, Answer::Refused(OpRefusal::NotDir)),
    }
}

/// Answers `dirs` for the first directories: a line for each, live or dropped, and `ok`, all in one call.
pub fn say_dirs<H: Host>(
    host: &mut H,
    live: DirSet,
    count: u8,
    speech: &mut Speech,
) -> Result<(), Failed>
    requires { count ≤ 8 }
    ensures { Says H.told (H.state host.old) (H.state host.new)
        (dir_lines (has live) count ++ answer_text Done) result }
{
    speech.line.clear();
    put_dirs(live, count, &mut speech.line);
    Answer::Done.text(&mut speech.line);
    host.say(&speech.line)
}

// Appends the lines of the first directories.
fn put_dirs(live: DirSet, count: u8, out: &mut Vec<u8>)
    requires few { count ≤ 8 }
    requires room { vec_len out.old + max_dir_line * count ≤ vec_capacity out.old }
    ensures text { out.new.items ≡ out.old.items ++ dir_lines (has live) count }
    ensures short { length (dir_lines (has live) count) ≤ max_dir_line * count }
    ensures room { vec_capacity out.old ≤ vec_capacity out.new }
{
    for i in 0..count {
        dir_line(DirNo(i), live.has(DirNo(i)), out);
    }
}
