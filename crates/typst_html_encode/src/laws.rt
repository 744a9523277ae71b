//! Laws of this crate's definitions and types. Each function has laws as its contract; those that
//! need no value do nothing.

ghost use Rattle.std.specs.Prelude.{◌≡◌, ◌↔◌, [], codes, IsTrue, Some, None, IfOk, false};
ghost use Rattle.html_dom_tree.specs.PlainTree.{branch, no_plains};
ghost use Rattle.typst_html_encode.specs.{FaultViews.{export_fault_view}, IndentsCollapse.{BodyCollapses, ContentCollapses}, Reader.{read}};
ghost use Rattle.typst_html_encode.specs.{ReaderRows.{paragraph_of}, ReadingBack.{ReadsBack, SameTextSameForm}};

use crate::fault::ExportFault;
use crate::frame::FrameFault;
use crate::options::HtmlOptions;
use std::alloc::AllocError;

/// The plain text of a frame-free tree with valid names and without a fault reads as the tree's
/// normal form. Its pretty text reads as the normal form of the indented tree, unless a raw text on
/// lines of its own ends in a closing tag that lacks its last character.
#[tactic(auto, using(crate::proofs::ReadingBack::reads_back))]
pub fn text_reads_back()
    ensures { ReadsBack }
{}

/// Frame-free trees with valid names and without a fault have the same normal form if they have the
/// same plain text.
#[tactic(auto, using(crate::proofs::Same::same_text))]
pub fn same_text_same_form()
    ensures { SameTextSameForm }
{}

/// Texts that are not read, for example because a value is in single quotes, an end tag is not
/// exact, or there is more than one element with blanks around it. A text of one element with
/// blanks around it is read.
pub fn reads_exact_syntax()
    ensures quotes { read (codes "<!DOCTYPE html><p title='x'></p>") ≡ None }
    ensures case { read (codes "<!DOCTYPE html><p></P>") ≡ None }
    ensures no_slash { read (codes "<!DOCTYPE html><mspace>") ≡ None }
    ensures slash { read (codes "<!DOCTYPE html><p/>") ≡ None }
    ensures void_end { read (codes "<!DOCTYPE html><br></br>") ≡ None }
    ensures two_roots { read (codes "<!DOCTYPE html><p></p><p></p>") ≡ None }
    ensures text_after { read (codes "<!DOCTYPE html><p></p>x") ≡ None }
    ensures text_before { read (codes "<!DOCTYPE html>x<p></p>") ≡ None }
    ensures left_open { read (codes "<!DOCTYPE html><p>") ≡ None }
    ensures two_spaces { read (codes "<!DOCTYPE html><p  a></p>") ≡ None }
    ensures no_element { read (codes "<!DOCTYPE html>") ≡ None }
    ensures no_doctype { read (codes "<p></p>") ≡ None }
    ensures blanks { read (codes "<!DOCTYPE html> \n\t\r<p></p>\n")
        ≡ Some (branch (codes "p") [] no_plains) }
{}

/// A reference that is read, and references that are not: those with a name other than the five,
/// with a spelling other than the one in small hexadecimal digits, or with the number of U+0000, of
/// a surrogate, or of no character.
pub fn reads_references()
    ensures entity { read (codes "<!DOCTYPE html><p>&nbsp;</p>") ≡ None }
    ensures reference { read (codes "<!DOCTYPE html><p>&#x41;</p>")
        ≡ Some (paragraph_of (codes "p") (codes "A")) }
    ensures unclosed { read (codes "<!DOCTYPE html><p>&#x41</p>") ≡ None }
    ensures zeros { read (codes "<!DOCTYPE html><p>&#x041;</p>") ≡ None }
    ensures capital_x { read (codes "<!DOCTYPE html><p>&#X41;</p>") ≡ None }
    ensures capital_digit { read (codes "<!DOCTYPE html><p>&#x4A;</p>") ≡ None }
    ensures null { read (codes "<!DOCTYPE html><p>&#x0;</p>") ≡ None }
    ensures surrogate { read (codes "<!DOCTYPE html><p>&#xd800;</p>") ≡ None }
    ensures too_large { read (codes "<!DOCTYPE html><p>&#x110000;</p>") ≡ None }
{}

/// Texts with a raw text that ends in a closing tag but for its last character, a raw text with a
/// closing tag in capitals, an escapable raw text with and without an element, and a line feed
/// after the start tag of `pre`, which is dropped, and of `p`, which is kept.
pub fn reads_raw_text()
    ensures script { read (codes "<!DOCTYPE html><script></script</script>")
        ≡ Some (paragraph_of (codes "script") (codes "</script")) }
    ensures script_case { read (codes "<!DOCTYPE html><script></SCRIPT></script>") ≡ None }
    ensures title { read (codes "<!DOCTYPE html><title>a&amp;b</title>")
        ≡ Some (paragraph_of (codes "title") (codes "a&b")) }
    ensures title_element { read (codes "<!DOCTYPE html><title>a<b></b></title>") ≡ None }
    ensures pre { read (codes "<!DOCTYPE html><pre>\n\nx</pre>")
        ≡ Some (paragraph_of (codes "pre") (codes "\nx")) }
    ensures feed_kept { read (codes "<!DOCTYPE html><p>\nx</p>")
        ≡ Some (paragraph_of (codes "p") (codes "\nx")) }
    ensures feed_dropped { read (codes "<!DOCTYPE html><pre>\nx</pre>")
        ≡ Some (paragraph_of (codes "pre") (codes "x")) }
{}

/// Options are equal if both ask for pretty text or neither does.
pub fn equal_options(a: &HtmlOptions, b: &HtmlOptions) -> bool
    ensures { IsTrue result ↔ (a.now ≡ b.now) }
{
    a == b
}

/// A copy of options is equal to them.
pub fn cloned_options(options: &HtmlOptions) -> Result<HtmlOptions, AllocError>
    ensures { IfOk result (λ copy. copy ≡ options.now) }
{
    options.clone()
}

/// By default the text is plain.
pub fn default_options() -> HtmlOptions
    ensures { result.pretty ≡ false }
{
    HtmlOptions::default()
}

/// Faults are equal if their kinds, characters, names and spans are.
pub fn equal_export_faults(a: &ExportFault, b: &ExportFault) -> bool
    ensures { IsTrue result ↔ (export_fault_view a.now ≡ export_fault_view b.now) }
{
    a == b
}

/// Faults of frames are equal if their kinds are.
pub fn equal_frame_faults(a: &FrameFault, b: &FrameFault) -> bool
    ensures { IsTrue result ↔ (a.now ≡ b.now) }
{
    a == b
}

/// Indents are not visible once white space has collapsed, if there is no frame and no raw element,
/// each element with indents around or inside it has a border, and none with indents inside
/// preserves its white space.
pub fn indents_collapse()
    ensures content { ContentCollapses }
    ensures body { BodyCollapses }
{}
