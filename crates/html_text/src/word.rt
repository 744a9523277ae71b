//! Words.

ghost use Rattle.std.specs.Prelude.{◌≡◌, chars, IsTrue};
ghost use Rattle.html_names_core.specs.Names.{is_ascii};
ghost use Rattle.html_text.specs.Words as words;

/// Returns whether an ASCII word begins with the text.
pub fn begins(word: &str, text: &str) -> bool
    requires { IsTrue (is_ascii word.now) }
    ensures { result ≡ words.begins word.now (chars text.now) }
{
    word.starts_with(text)
}
