//! The words that the program is called with.

ghost use Rattle.std.specs.Prelude.{◌≡◌, drop};
ghost use Rattle.typst_html_run.specs.Words.{task_of, texts_of, wanted_task, wants_pretty};

/// The kind of input that the program makes HTML text of.
#[derive(Clone, Copy, Debug, PartialEq, Eq)]
pub enum Task {
    /// A tree.
    Tree,
    /// The document of a list of items.
    Doc,
}

/// Returns the arguments without the first, which is the program's name.
pub fn words_of(args: &[String]) -> &[String]
    ensures { result.now ≡ drop 1 args.now }
{
    match args {
        [_program, words @ ..] => words,
        [] => args,
    }
}

/// Returns the task and whether pretty text is wanted, or `None` if the words are invalid.
pub fn wanted_task(words: &[String]) -> Option<(Task, bool)>
    ensures { result ≡ wanted_task (texts_of words.now) }
{
    let [word, options @ ..] = words else {
        return None;
    };
    let task = task_of(word)?;
    let pretty = wants_pretty(options)?;
    Some((task, pretty))
}

fn task_of(word: &str) -> Option<Task>
    ensures { result ≡ task_of word.now }
{
    match word {
        "tree" => Some(Task::Tree),
        "doc" => Some(Task::Doc),
        _ => None,
    }
}

fn wants_pretty(options: &[String]) -> Option<bool>
    ensures { result ≡ wants_pretty (texts_of options.now) }
{
    match options {
        [] => Some(false),
        [option] if option.as_str() == "--pretty" => Some(true),
        _ => None,
    }
}
