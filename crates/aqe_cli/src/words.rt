//! The words of the command line.

ghost use Rattle.std.specs.Prelude.{◌≡◌, ℕ, List, MatchOption, map, string_bytes};
ghost use Rattle.aqe_course.specs.Command.{IsMisused, AreWordsOf, command};

/// The path of the script to run, where the words are `run` and a path.
pub(crate) fn script_path(words: &[String]) -> Option<&str>
    ensures { MatchOption result
        (IsMisused (map string_bytes words.now))
        (λ path. AreWordsOf (map string_bytes words.now) (command path.now)) }
{
    match words {
        [word, path] if word.as_str() == "run" => Some(path.as_str()),
        _ => None,
    }
}
