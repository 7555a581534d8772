//! The commands and their words.

ghost use Rattle.std.specs.Prelude.{MatchOption};
ghost use Rattle.tb_top.specs.Tasks.{SpellsNone, Spells};

/// A command.
#[derive(Clone, Copy, Debug, PartialEq, Eq)]
pub enum Task {
    /// Prints the transcript of a script.
    Single,
    /// Prints the refusals of a script and its counts.
    Check,
}

/// The command that the words spell.
pub fn task_of(words: &[String]) -> Option<Task>
    ensures { MatchOption result (SpellsNone words.now) (λ task. Spells task words.now) }
{
    let [word] = words else {
        return None;
    };
    if word.as_bytes() == b"single".as_slice() {
        return Some(Task::Single);
    }
    if word.as_bytes() == b"check".as_slice() {
        return Some(Task::Check);
    }
    None
}
