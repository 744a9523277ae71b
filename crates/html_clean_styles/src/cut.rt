//! Texts that are cut at a character.

ghost use Rattle.std.specs.Prelude.{◌≡◌, ◌<◌, chars, option_map};
ghost use Rattle.html_clean_styles.specs.{Cuts.{IsCut, pair_view}, Styles.{cut_colon}};

/// Returns the text before the first `mark`, which is ASCII, and the text behind it.
pub(crate) fn cut(text: &str, mark: char) -> Option<(&str, &str)>
    requires { mark < 128 }
    ensures { IsCut mark (chars text.now) result }
{
    text.split_once(mark)
}

/// Returns the text before the first `:`, and the text behind it.
pub(crate) fn cut_colon(text: &str) -> Option<(&str, &str)>
    ensures { option_map pair_view result ≡ cut_colon (chars text.now) }
{
    cut(text, ':')
}
