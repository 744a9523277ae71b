//! Reading a written page, from its text to the element that it spells.

ghost use Rattle.std.specs.Prelude.{◌≡◌, ◌≤◌, ◌+◌, ◌-◌, chars, length, None};
ghost use Rattle.typst_html_encode.specs.Reader.{Outside, final_root, read, run};
ghost use Rattle.typst_html_read.specs.{Endings.{Gives}, LimitedReading.{deep_places, stop_place, too_deep, unread}};
ghost use Rattle.typst_html_read.specs.PlainElements.{accepted};
ghost use Rattle.html_text.specs.Places.{place_at};

use crate::fault::ReadFault;
use crate::reader::Reader;
use html_dom_tree::HtmlElement;
use html_dom_tree::text::split_first;
use html_text::{common_length, place_at};
use std::alloc::Global;

const DOCUMENT_TYPE: &str = "<!DOCTYPE html>";

/// Returns the element that a text spells. The text is `<!DOCTYPE html>` and one element, with
/// nothing around the element but tabs, line feeds, carriage returns and spaces.
///
/// Accepts the syntax that this project writes; a browser's parser accepts more. Values are in
/// double quotes. Each attribute follows one space. An element has an end tag of the same name,
/// letter for letter, unless it is void or ends with `/>` (`mprescripts` and `mspace`). A reference
/// is `&amp;`, `&lt;`, `&gt;`, `&quot;`, `&apos;` or a number in small hexadecimal digits without
/// leading zeros. All that a text does not spell is as [`HtmlElement::new`] makes it.
///
/// `limit` bounds the depth of elements and is from 1 to 10,000. The root has depth 1.
///
/// # Errors
///
/// Fails with the first of these in the text, with its place. Memory may run out before either.
///
/// - [`ReadFault::TooDeep`]: an element is deeper than the limit. The place is that of the `<` of
///   its start tag.
/// - [`ReadFault::Syntax`]: the text has another syntax. The place is that of the first character
///   with which no readable text goes on, or the end of an incomplete text. A name is judged once
///   it ends: the place of a name that `HtmlTag::intern` or `HtmlAttr::intern` refuses is that of
///   the character after it.
///
/// Takes time for each byte of the text. Allocates, beside the element, memory for the open
/// elements, one text and one name.
///
/// ```
/// use typst_html::{Place, ReadFault, read_html, tag};
///
/// let alloc = rt.alloc();
/// let root = read_html(alloc, "<!DOCTYPE html><p>a &amp; b</p>", 50)?;
/// assert!(rt; root.tag == tag::p);
/// assert_eq!(rt; root.children.len(), 1);
///
/// let read = read_html(alloc, "<!DOCTYPE html>\n<p>a & b</p>", 50);
/// let (offset, line, column) = (22, 2, 7); // the space behind a bare `&`
/// let place = Place { offset, line, column };
/// assert!(rt; read == Err(ReadFault::Syntax { place }));
/// ```
pub fn read_html(alloc: Global, text: &str, limit: usize) -> Result<HtmlElement, ReadFault>
    requires some_limit { 1 ≤ limit }
    requires low_limit { limit ≤ 10000 }
    ensures { let cs = chars text.now in
        Gives result cs (accepted (read cs)) (too_deep limit cs) (unread cs) }
{
    match text.strip_prefix(DOCUMENT_TYPE) {
        None => {
            let place = place_at(text, common_length(DOCUMENT_TYPE, text));
            Err(ReadFault::Syntax { place })
        }
        Some(rest) => read_root(alloc, text, rest, limit),
    }
}

fn char_count(text: &str) -> usize
    ensures { result ≡ length (chars text.now) }
{
    text.chars().count()
}

/// Returns the number of characters of a text before its rest.
fn count_before(text: &str, rest: &str) -> usize
    ensures { result ≡ length (chars text.now) - length (chars rest.now) }
{
    char_count(text).saturating_sub(char_count(rest))
}

/// Returns the fault of a text that cannot be read from its rest on.
fn syntax_at(text: &str, rest: &str) -> ReadFault
    ensures { let count = length (chars text.now) - length (chars rest.now) in
        result ≡ ReadFault.Syntax (place_at (chars text.now) count) }
{
    let place = place_at(text, count_before(text, rest));
    ReadFault::Syntax { place }
}

/// Reads the text after the document type. Places in faults are places in the whole text.
fn read_root(alloc: Global, whole: &str, text: &str, limit: usize) -> Result<HtmlElement, ReadFault>
    requires { length (chars whole.now) ≡ 15 + length (chars text.now) }
    ensures { let cs = chars text.now in
        Gives result (chars whole.now) (accepted (final_root (run (Outside None) cs)))
        (deep_places limit 15 (Outside None) cs) (stop_place 15 (Outside None) cs) }
{
    let mut reader = Reader::new(alloc);
    let mut rest = text;
    loop {
        let past = reader.read_stretch(rest)?;
        if let Some(left) = reader.read_end_tag(past)? {
            rest = left;
            continue;
        }
        let Some((c, left)) = split_first(past) else {
            return match reader.into_root() {
                None => Err(syntax_at(whole, past)),
                Some(root) => Ok(root.into_element()),
            };
        };
        if reader.begins_deep(limit, c) {
            let place = place_at(whole, count_before(whole, past) - 1);
            return Err(ReadFault::TooDeep { place });
        }
        reader.step(c)?;
        if reader.is_stopped() {
            return Err(syntax_at(whole, past));
        }
        rest = left;
    }
}
