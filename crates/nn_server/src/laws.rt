// In which calls answers go out.
ghost use Rattle.std.specs.Prelude.{◌≡◌, ◌≢◌, ◌<◌, ◌≤◌, List, [], ◌∷◌, ◌++◌, length, Ok, Some};
ghost use Rattle.std.specs.List.{All, concat};
ghost use Rattle.nn_base.specs.Limits.{most_piece};
ghost use Rattle.nn_base.specs.Paths.{Bytes, Names};
ghost use Rattle.nn_script.specs.declared.command.ScriptCommand.TheVariants as command;
ghost use Rattle.nn_script.specs.Reading.{reading_of};
ghost use Rattle.nn_script.specs.Spelling.{max_answer};
ghost use Rattle.nn_script.specs.Answers.{State, answer_of, answers};
ghost use Rattle.nn_say.specs.Saying.{CutOff, pieces_of};
ghost use Rattle.nn_server.specs.Dry.{pieces_to};

/// An answer goes out in the pieces of its text, a call each, as the record of calls says: one that
/// is no listing in a single call, and a longer listing in calls of at most 65,536 bytes each.
pub fn answers_go_out_in_pieces()
    ensures short { (s : State) (line : Bytes) →
        ((path : Names) → reading_of line ≢ Ok (Some (command.List path))) →
        length (answer_of s line).text ≤ max_answer }
    ensures one { (text : Bytes) → 0 < length text → length text ≤ most_piece → pieces_of text ≡ text ∷ [] }
    ensures none { pieces_of [] ≡ [] }
    ensures each { (text : Bytes) → All (λ piece. length piece ≤ most_piece) (pieces_of text) }
    ensures joined { (text : Bytes) → concat (pieces_of text) ≡ text }
    ensures answers { (s : State) (lines : List Bytes) → concat (pieces_to s lines) ≡ answers s lines }
    ensures front { (pieces : List Bytes) (text : Bytes) (asked : List Bytes) → CutOff pieces text asked →
        (later : Bytes) × (concat pieces ≡ text ++ later) }
{}
