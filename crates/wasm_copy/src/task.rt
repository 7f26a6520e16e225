//! What the program is asked to do.

ghost use Rattle.std.specs.Prelude.{◌≡◌};
ghost use Rattle.wasm_copy.specs.Words.{task_of, words_task};

/// What the program does with the module that it reads.
#[derive(Clone, Copy, Debug, PartialEq, Eq)]
pub enum Task {
    /// Writes it.
    Copy,
    /// Writes it if the copy reads as the same records.
    CopyAndCompare,
    /// Nothing more.
    Read,
    /// Writes its names, in place of it.
    Names,
}

/// The task that these words ask for, none where the program doesn't know them.
pub fn task_for(words: &[String]) -> Option<Task>
    ensures { result ≡ words_task words.now }
{
    match words {
        [] => Some(Task::Copy),
        [word] => word_task(word.as_str()),
        _ => None,
    }
}

// The task that a word asks for.
fn word_task(word: &str) -> Option<Task>
    ensures { result ≡ task_of word.now }
{
    match word {
        "--again" => Some(Task::CopyAndCompare),
        "--read" => Some(Task::Read),
        "--names" => Some(Task::Names),
        _ => None,
    }
}
