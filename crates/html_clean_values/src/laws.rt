//! Laws of values. The contract of each function is a law; the functions do nothing.

ghost use Rattle.html_clean_values.specs.ValueLaws.{PlainStays, PrefixedHrefIsAllowed, PrefixedHrefOnce, PrefixedHrefPasses, PrefixedNameOnce, PrefixedNamePasses, PrefixedOnce, PrefixedPasses, PrefixedWordsOnce, PrefixedWordsPasses, ReplacedIsPlain, ReplacedOnce, ScriptsAreRefused};

/// A text that [`replaced`](crate::replaced) returns holds text characters alone and no carriage
/// return, and in such a text nothing is replaced.
#[tactic(auto, using(crate::proofs::Replacing::replaced_is_plain, crate::proofs::Replacing::plain_stays, crate::proofs::Replacing::replaced_once))]
pub fn replaced_is_plain()
    ensures plain { ReplacedIsPlain }
    ensures stays { PlainStays }
    ensures once { ReplacedOnce }
{}

/// A prefix comes once: with the same prefix again, each of the four calls returns what it is
/// given. In the prefix of words there is no white space.
#[tactic(auto, using(crate::proofs::PrefixLaws::prefixed_once, crate::proofs::PrefixLaws::prefixed_name_once, crate::proofs::JoinedWords::prefixed_words_once, crate::proofs::PrefixLaws::prefixed_href_once))]
pub fn prefix_comes_once()
    ensures text { PrefixedOnce }
    ensures name { PrefixedNameOnce }
    ensures words { PrefixedWordsOnce }
    ensures href { PrefixedHrefOnce }
{}

/// Each character with a prefix before it is one of the prefix or of the text, or a space between
/// words: whatever these pass, so does the result.
#[tactic(auto, using(crate::proofs::PrefixLaws::prefixed_passes, crate::proofs::PrefixLaws::prefixed_name_passes, crate::proofs::JoinedWords::prefixed_words_passes, crate::proofs::PrefixLaws::prefixed_href_passes))]
pub fn prefixed_passes()
    ensures text { PrefixedPasses }
    ensures name { PrefixedNamePasses }
    ensures words { PrefixedWordsPasses }
    ensures href { PrefixedHrefPasses }
{}

/// An `href` with a prefix is allowed if it is allowed without, and only then.
#[tactic(auto, using(crate::proofs::PrefixLaws::prefixed_href_is_allowed))]
pub fn prefixed_href_is_allowed()
    ensures { PrefixedHrefIsAllowed }
{}

/// If `javascript`, `data` and `vbscript` are none of the schemes, no URL that is allowed is a
/// script ([`href_is_script`](html_links::href_is_script)).
#[tactic(auto, using(crate::proofs::ScriptSchemes::scripts_are_refused))]
pub fn scripts_are_refused()
    ensures { ScriptsAreRefused }
{}
