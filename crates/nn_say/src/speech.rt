// What goes out.
ghost use Rattle.std.specs.Prelude.{◌≡◌, ◌<◌, ◌≤◌, ◌+◌, ◌∷◌, ◌++◌, [], length, vec_len, vec_capacity};
ghost use Rattle.nn_host.specs.Calls.{most_said};
ghost use Rattle.nn_tree.specs.Limits.{IsNode};
ghost use Rattle.nn_script.specs.Spelling.{IsSaid, answer_text, escaped};
ghost use Rattle.nn_script.specs.Listing.{node_words, block_line as line_of_block};
ghost use Rattle.nn_say.specs.Saying.{Says, Puts};

use nn_base::NoMemory;
use nn_host::{Failed, Host, MOST_SAID};
use nn_quota::Usage;
use nn_script::{Answer, MAX_PART, block_line, name_text, node_words};
use nn_tree::{Block, Node};
use std::alloc::Global;

/// What answers a script's lines: a line in the making, and what of a listing waits for a call of the output. It takes all its
/// memory as it is made.
#[derive(Drop)]
pub struct Speech {
    pub(crate) line: Vec<u8>,
    pub(crate) waiting: Vec<u8>,
    ghost line_room: { 768 ≤ vec_capacity line },
    ghost waiting_room: { most_said ≤ vec_capacity waiting },
    ghost few: { vec_len waiting < most_said },
}

impl Speech {
    /// All the memory that saying needs is taken here.
    pub fn new(alloc: Global) -> Result<Speech, NoMemory> {
        Ok(Speech {
            line: Vec::with_capacity(alloc, MAX_PART)?,
            waiting: Vec::with_capacity(alloc, MOST_SAID)?,
        })
    }

    /// Says an answer but a listing, in one call.
    pub fn say<H: Host>(&mut self, host: &mut H, answer: Answer) -> Result<(), Failed>
        requires { IsSaid answer }
        ensures { Says H.told (H.state host.old) (H.state host.new) (answer_text answer) result }
    {
        self.line.clear();
        answer.text(&mut self.line);
        host.say(&self.line)
    }

    /// Begins a text that goes out in pieces: nothing waits.
    pub fn begin(&mut self)
        ensures { self.new.waiting.items ≡ [] }
    {
        self.waiting.clear();
    }

    pub(crate) fn put_node<H: Host>(
        &mut self,
        host: &mut H,
        node: &Node,
        usage: Usage,
    ) -> Result<(), Failed>
        requires { IsNode node.now }
        ensures { Puts H.told (H.state host.old) (H.state host.new) self.old.waiting.items
            (node_words node.now usage) self.new.waiting.items result }
    {
        self.line.clear();
        node_words(node, usage, &mut self.line);
        put(host, &self.line, &mut self.waiting)
    }

    pub(crate) fn put_name<H: Host>(&mut self, host: &mut H, name: &[u8]) -> Result<(), Failed>
        requires { length name.now ≤ 255 }
        ensures { Puts H.told (H.state host.old) (H.state host.new) self.old.waiting.items
            (47 ∷ escaped name.now) self.new.waiting.items result }
    {
        self.line.clear();
        name_text(name, &mut self.line);
        put(host, &self.line, &mut self.waiting)
    }

    pub(crate) fn put_block<H: Host>(&mut self, host: &mut H, block: Block) -> Result<(), Failed>
        ensures { Puts H.told (H.state host.old) (H.state host.new) self.old.waiting.items
            (line_of_block block) self.new.waiting.items result }
    {
        self.line.clear();
        block_line(block, &mut self.line);
        put(host, &self.line, &mut self.waiting)
    }

    /// Puts at most 768 bytes of the text behind those that wait. Each 65,536 bytes of the text go out in a call of their own.
    pub fn put_bytes<H: Host>(&mut self, host: &mut H, bytes: &[u8]) -> Result<(), Failed>
        requires { length bytes.now ≤ 768 }
        ensures { Puts H.told (H.state host.old) (H.state host.new) self.old.waiting.items
            bytes.now self.new.waiting.items result }
    {
        put(host, bytes, &mut self.waiting)
    }

    // Puts the last line behind what waits.
    pub(crate) fn put_count<H: Host>(&mut self, host: &mut H, count: u64) -> Result<(), Failed>
        ensures { Puts H.told (H.state host.old) (H.state host.new) self.old.waiting.items
            (answer_text (Answer.Count count)) self.new.waiting.items result }
    {
        self.line.clear();
        Answer::Count(count).text(&mut self.line);
        put(host, &self.line, &mut self.waiting)
    }

    /// Ends the text: says what waits, if anything does.
    pub fn end<H: Host>(&mut self, host: &mut H) -> Result<(), Failed>
        ensures { Says H.told (H.state host.old) (H.state host.new) self.old.waiting.items result }
    {
        if self.waiting.is_empty() {
            return Ok(());
        }
        host.say(&self.waiting)
    }
}

// Puts bytes behind those that wait, and says these once there are as many as one call takes.
fn put<H: Host>(host: &mut H, bytes: &[u8], waiting: &mut Vec<u8>) -> Result<(), Failed>
    requires short { length bytes.now ≤ 768 }
    requires few { vec_len waiting.old < most_said }
    requires room { most_said ≤ vec_capacity waiting.old }
    ensures puts { Puts H.told (H.state host.old) (H.state host.new) waiting.old.items bytes.now
        waiting.new.items result }
    ensures few { vec_len waiting.new < most_said }
    ensures room { most_said ≤ vec_capacity waiting.new }
{
    let room = MOST_SAID - waiting.len();
    if bytes.len() < room {
        append(bytes, waiting);
        return Ok(());
    }
    let (front, rest) = bytes.split_at(room);
    append(front, waiting);
    let said = host.say(waiting);
    waiting.clear();
    append(rest, waiting);
    said
}

fn append(bytes: &[u8], out: &mut Vec<u8>)
    requires { vec_len out.old + length bytes.now ≤ vec_capacity out.old }
    ensures text { out.new.items ≡ out.old.items ++ bytes.now }
    ensures size { vec_len out.new ≡ vec_len out.old + length bytes.now }
    ensures room { vec_capacity out.old ≤ vec_capacity out.new }
{
    match out.extend_from_slice(bytes) {
        Ok(()) => (),
        Err(_) => unreachable!(),
    }
}
