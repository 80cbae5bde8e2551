// The commands of a script, by their words.
ghost use Rattle.std.specs.Prelude.{◌≡◌};
ghost use Rattle.nn_script.specs.Verbs.{change_word, word_of, verb_of};

// A command that changes the namespace.
#[derive(Clone, Copy)]
pub(crate) enum Change {
    Mkdir,
    Create,
    Block,
    Close,
    Delete,
    Rename,
    Chmod,
    Chown,
    Quota,
    Setrep,
}

// A command, as its word tells it.
#[derive(Clone, Copy)]
pub(crate) enum Verb {
    Change(Change),
    Clock,
    List,
    Dirs,
    Roll,
    Checkpoint,
    Finalize,
    Restore,
}

const VERBS: [Verb; 17] = [
    Verb::Change(Change::Mkdir),
    Verb::Change(Change::Create),
    Verb::Change(Change::Block),
    Verb::Change(Change::Close),
    Verb::Change(Change::Delete),
    Verb::Change(Change::Rename),
    Verb::Change(Change::Chmod),
    Verb::Change(Change::Chown),
    Verb::Change(Change::Quota),
    Verb::Change(Change::Setrep),
    Verb::Clock,
    Verb::List,
    Verb::Dirs,
    Verb::Roll,
    Verb::Checkpoint,
    Verb::Finalize,
    Verb::Restore,
];

impl Change {
    fn word(self) -> &'static str
        ensures { result.now ≡ change_word self }
    {
        match self {
            Change::Mkdir => "mkdir",
            Change::Create => "create",
            Change::Block => "block",
            Change::Close => "close",
            Change::Delete => "delete",
            Change::Rename => "rename",
            Change::Chmod => "chmod",
            Change::Chown => "chown",
            Change::Quota => "quota",
            Change::Setrep => "setrep",
        }
    }
}

impl Verb {
    fn word(self) -> &'static str
        ensures { result.now ≡ word_of self }
    {
        match self {
            Verb::Change(change) => change.word(),
            Verb::Clock => "clock",
            Verb::List => "list",
            Verb::Dirs => "dirs",
            Verb::Roll => "roll",
            Verb::Checkpoint => "checkpoint",
            Verb::Finalize => "finalize",
            Verb::Restore => "restore",
        }
    }

    // The command that a word names.
    #[tactic(auto, unfolding(crate::specs::Verbs::verb_of))]
    pub(crate) fn of(word: &[u8]) -> Option<Verb>
        ensures { result ≡ verb_of word.now }
    {
        VERBS
            .iter()
            .copied()
            .find(|verb| verb.word().as_bytes() == word)
    }
}
