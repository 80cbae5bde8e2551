//! What follows from how the words of a command line are read. A law is a function that does nothing: its clauses say it.
ghost use Rattle.std.specs.Prelude.{◌≡◌, ◌≢◌, ◌⊎◌, ◌↔◌, true, false, List, [], ◌∷◌, ◌++◌, codes, Some};
ghost use Rattle.std.specs.List.{list_all};
ghost use Rattle.std.specs.Str.{bytes_eq};
ghost use Rattle.nn_top.specs.Words.{Word as W, is_plain, can_stand_apart, is_among, are_dirs};
ghost use Rattle.nn_top.specs.Parts.{Stray, joined_in};
ghost use Rattle.nn_top.specs.Wanted.{Wanted, Dry, dirs_in};
ghost use Rattle.nn_top.specs.Commands.{options_of, wanted_by, HaveNoReading};
ghost use Rattle.nn_top.specs.Begins.{IsEnd};
ghost use Rattle.nn_top.specs.Laws.{AreDirs, IsOption, is_unmarked, GivenOption, can_be_given, spelling, TakesOptions, asked_with, IsSpelled, AreSpelled, states_with, generate_with};

/// An option of `format` or of `run` is `--name=VALUE` or `--name VALUE`: both are read alike, where the value doesn't begin with
/// `-`.
pub fn options_are_read_joined_or_apart()
    ensures { (command option value : W) (front rest : List W) → IsOption command option → is_unmarked front ≡ true → can_stand_apart value ≡ true →
        wanted_by (command ∷ (front ++ ((option ++ codes "=") ++ value) ∷ rest)) ≡ wanted_by (command ∷ (front ++ option ∷ value ∷ rest)) }
{}

/// An option that is given twice, with one value or two, makes a line without a reading.
pub fn an_option_twice_has_no_reading()
    ensures { (command option one other : W) (front middle rest : List W) → IsOption command option → is_unmarked front ≡ true → is_unmarked middle ≡ true →
        HaveNoReading (command ∷ (front ++ ((option ++ codes "=") ++ one) ∷ (middle ++ ((option ++ codes "=") ++ other) ∷ rest))) }
{}

/// Behind the first `--` each word is a directory, a second `--` and an option's name too, and there are no others.
pub fn words_behind_a_mark_are_the_directories()
    ensures { (command : W) (front dirs : List W) (wanted : Wanted) → is_unmarked front ≡ true → dirs ≢ [] →
        wanted_by (command ∷ (front ++ codes "--" ∷ dirs)) ≡ Some wanted → dirs_in wanted ≡ dirs }
{}

/// Neither a `--` nor an option stands between two directories: such a line has no reading.
pub fn directories_stand_together()
    ensures mark { (command dir other : W) (front dirs : List W) → is_plain dir ≡ true → is_unmarked front ≡ true →
        HaveNoReading (command ∷ dir ∷ (front ++ codes "--" ∷ other ∷ dirs)) }
    ensures option { (command dir other option value : W) (front rest : List W) → is_plain dir ≡ true → is_plain other ≡ true → IsOption command option → is_unmarked front ≡ true →
        HaveNoReading (command ∷ dir ∷ (front ++ ((option ++ codes "=") ++ value) ∷ other ∷ rest)) }
{}

/// Any other word that begins with `-`, but `-` alone, makes a line without a reading, before the first `--`.
pub fn other_words_have_no_reading()
    ensures { (command word : W) (front rest : List W) → is_unmarked front ≡ true → is_plain word ≡ false → bytes_eq word (codes "--") ≡ false →
        is_among (options_of command) word ≡ false → joined_in (options_of command) word ≡ Stray → HaveNoReading (command ∷ (front ++ word ∷ rest)) }
{}

/// The options of `format` and of `run` stand before the directories and behind them: with each option once, or with one of
/// `run` not at all, such a line has its reading, and else none. Behind a `--` that stands first, directories may begin with `-`.
/// No other line of theirs has a reading.
pub fn options_stand_around_directories()
    ensures around { (command : W) (front back : List GivenOption) (dirs end : List W) → TakesOptions command → list_all (can_be_given command) front ≡ true → list_all (can_be_given command) back ≡ true → list_all is_plain dirs ≡ true → IsEnd end →
        wanted_by (command ∷ (spelling front ++ (dirs ++ (spelling back ++ end)))) ≡ asked_with command (front ++ back) dirs }
    ensures marked { (command : W) (choices : List GivenOption) (dirs : List W) → TakesOptions command → list_all (can_be_given command) choices ≡ true →
        wanted_by (command ∷ (spelling choices ++ codes "--" ∷ dirs)) ≡ asked_with command choices dirs }
    ensures only { (command : W) (words : List W) (wanted : Wanted) → TakesOptions command → wanted_by (command ∷ words) ≡ Some wanted →
        (choices : List GivenOption) × (dirs : List W) × (list_all (can_be_given command) choices ≡ true) × IsSpelled words choices dirs × (asked_with command choices dirs ≡ Some wanted) }
{}

/// A reading has one to eight directories, none without a name and no two with the same, or none at all, as `dry` and `generate` have.
pub fn directories_are_few_named_and_distinct()
    ensures read { (words : List W) (wanted : Wanted) → wanted_by words ≡ Some wanted → (dirs_in wanted ≡ []) ⊎ AreDirs (dirs_in wanted) }
    ensures test { (dirs : List W) → (are_dirs dirs ≡ true) ↔ AreDirs dirs }
{}

/// The lines of `state` and `dry` that have a reading are those of directories alone, and of none.
pub fn lines_without_options_are_directories()
    ensures state { (words dirs : List W) → AreSpelled words dirs → wanted_by (codes "state" ∷ words) ≡ states_with dirs }
    ensures only { (words : List W) (wanted : Wanted) → wanted_by (codes "state" ∷ words) ≡ Some wanted → (dirs : List W) × AreSpelled words dirs × (states_with dirs ≡ Some wanted) }
    ensures dry { (words : List W) → IsEnd words → wanted_by (codes "dry" ∷ words) ≡ Some Dry }
    ensures only_dry { (words : List W) (wanted : Wanted) → wanted_by (codes "dry" ∷ words) ≡ Some wanted → (wanted ≡ Dry) × IsEnd words }
{}

/// The lines of `generate` that have a reading are those of a number, and of nothing behind it but perhaps a `--`.
pub fn generate_takes_a_number_alone()
    ensures read { (number : W) (end : List W) → IsEnd end → wanted_by (codes "generate" ∷ number ∷ end) ≡ generate_with number }
    ensures only { (words : List W) (wanted : Wanted) → wanted_by (codes "generate" ∷ words) ≡ Some wanted →
        (number : W) × (end : List W) × IsEnd end × (words ≡ number ∷ end) × (generate_with number ≡ Some wanted) }
{}
