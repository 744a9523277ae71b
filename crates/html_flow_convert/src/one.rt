//! Texts of one character.

ghost use Rattle.std.specs.Prelude.{◌≡◌, ◌<◌, chars};
ghost use Rattle.html_flow_convert.specs.Nodes.{is_one};

/// Returns whether a text is that character of ASCII and nothing else.
#[tactic(auto, using(crate::proofs::SingleChars::one_byte))]
pub fn is_one(c: u8, text: &str) -> bool
    requires { c < 128 }
    ensures { result ≡ is_one c (chars text.now) }
{
    matches!(text.as_bytes(), [only] if *only == c)
}
