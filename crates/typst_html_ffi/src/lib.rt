//! The calls of the exporter for C, and for languages that call C. They write the HTML text of what
//! JSON spells, or a report on a page, into a buffer of the caller. The static library
//! `typst_html_static` exports them.
//!
//! No call keeps state, so calls on several threads are independent. A call returns a status for
//! any arguments; only the slices have to be valid, each as a pointer and a length.
#![tactic(auto)]

ghost use Rattle.std.specs.Prelude.{◌≡◌, IfOk};
ghost use Rattle.html_anchors.specs.DeadLinks.{dead_links_view};
ghost use Rattle.typst_html_run.specs.{DocumentAnswers.{text_given}, Replies.{GivesAnswer}};
ghost use Rattle.typst_html_ffi.specs.CallReplies.{call_dead_links, document_call_answer, write_answer};
ghost use Rattle.typst_html_ffi.specs.Calls.{ChecksPage, ListsDeadLinks, ListsLinks, ListsUnused};
ghost use Rattle.typst_html_ffi.specs.Calls.{Writes, WritesDocument, WritesFragment};
ghost use Rattle.typst_html_ffi.specs.{DeadLinks.{dead_links_answer}, Fragments.{fragment_call_answer}, Unused.{unused_call_answer}};

mod dead_links;
mod findings;
mod links;
mod lists;
mod misnested;
mod numbers;
mod page;
mod pieces;
mod reply;
mod report;

use dead_links::dead_links_text;
use numbers::{limit_of, wanted_fragment, wanted_settings, wanted_task};
pub use reply::Reply;
use reply::{reply_with, reply_with_document};
use report::{Asked, reply_to_page};
use std::alloc::Global;
use typst_html_run::{
    DocumentText, Fault, InputPlace, text_of_document, text_of_fragment, text_of_input,
    unused_of_document,
};

/// The version of these calls. It is incremented when the meaning of a call or a status changes.
const VERSION: u32 = 8;

/// Returns the version of these calls. Compare it with the version of the header that the caller
/// was built with.
pub fn typst_html_version() -> u32
    ensures { result ≡ 8 }
{
    VERSION
}

/// Returns the text of what the input spells. Fails with bad input if the kind or the layout is
/// invalid.
fn text_of(alloc: Global, kind: u8, layout: u8, input: &[u8]) -> Result<String, Fault>
    ensures { GivesAnswer result (write_answer kind layout input.now) }
{
    match wanted_task(kind, layout) {
        Some((task, pretty)) => text_of_input(alloc, input, task, pretty),
        None => Err(Fault::BadInput(InputPlace::Unknown)),
    }
}

/// Writes the HTML text of what the JSON input spells into the buffer, if it fits: a tree (kind 0)
/// or the document of a list of items (kind 1), plain (layout 0) or pretty (layout 1). The program
/// writes the same text.
///
/// The bytes of the buffer after the text stay as they are, and the whole buffer does if no text
/// is written. With status 4, `length` is the length of the buffer that the text needs; a second
/// call makes the text again. Bad input has a place: the line and the column if the input is not
/// JSON, and otherwise, as the `span`, the list in which it leaves the form. Any other kind or
/// layout is bad input without a place.
pub fn typst_html_write(
    alloc: Global,
    kind: u8,
    layout: u8,
    input: &[u8],
    output: &mut [u8],
) -> Reply
    ensures { Writes kind layout input.now output.old result output.new }
{
    reply_with(text_of(alloc, kind, layout, input), output)
}

fn text_of_settings(
    alloc: Global,
    layout: u8,
    links: u8,
    limit: u32,
    input: &[u8],
) -> Result<DocumentText, Fault>
    ensures text { GivesAnswer (text_given result) (document_call_answer layout links limit input.now) }
    ensures dead { IfOk result (λ made.
        dead_links_view made.dead_links.items ≡ call_dead_links layout links limit input.now) }
{
    match wanted_settings(layout, links, limit) {
        Some(settings) => text_of_document(alloc, input, &settings),
        None => Err(Fault::BadInput(InputPlace::Unknown)),
    }
}

/// Writes the HTML text of a document into the buffer, if it fits. The JSON input spells the
/// document as an object: the information about it, its items, its footnotes and nodes for its
/// head. The text is plain (layout 0) or pretty (layout 1). Its links stay as they are (links 0) or
/// get the `href` of their destination (links 1). Bodies may be nested as deep as the limit, from 1
/// to 10,000.
///
/// A link stays without an `href` if none leads to its destination, for example because the
/// document has no such place. If there is such a link, the status is 5 instead of 0, and the span
/// is that of the first; [`typst_html_dead_links`] lists them all.
///
/// The members are those of [`text_of_document`]: `title`, `description`, `authors`, `keywords`,
/// `lang`, `region`, `items`, `footnotes` and `head`. Any other member, layout, number for links or
/// limit is bad input. Buffers and replies are those of [`typst_html_write`].
pub fn typst_html_document(
    alloc: Global,
    layout: u8,
    links: u8,
    limit: u32,
    input: &[u8],
    output: &mut [u8],
) -> Reply
    ensures { WritesDocument layout links limit input.now output.old result output.new }
{
    let made = text_of_settings(alloc, layout, links, limit, input);
    reply_with_document(made, output)
}

/// Returns the text of the items that the input spells, without a document around them. Fails with
/// bad input if the level or the limit is invalid.
fn fragment_of(alloc: Global, level: u8, limit: u32, input: &[u8]) -> Result<String, Fault>
    ensures { GivesAnswer result (fragment_call_answer level limit input.now) }
{
    match wanted_fragment(level, limit) {
        Some((level, limit)) => text_of_fragment(alloc, input, level, limit),
        None => Err(Fault::BadInput(InputPlace::Unknown)),
    }
}

/// Writes the HTML text of the items that the JSON input spells into the buffer, if it fits. The
/// text has no document type, head or body: it is a piece of a page that another program makes,
/// such as a template engine. The input is a list.
///
/// The items have the forms of those of [`typst_html_document`]. The level is that of the place
/// where the caller puts the text: on lines of its own (0) or in a line (1). Links get neither
/// anchors nor an `href`, since both depend on the ids of the whole page. The text is that of
/// [`text_of_fragment`]; any other level or limit is bad input without a place. Buffers and replies
/// are those of [`typst_html_write`].
pub fn typst_html_fragment(
    alloc: Global,
    level: u8,
    limit: u32,
    input: &[u8],
    output: &mut [u8],
) -> Reply
    ensures { WritesFragment level limit input.now output.old result output.new }
{
    reply_with(fragment_of(alloc, level, limit, input), output)
}

/// Returns the links that lead nowhere in the document that the input spells, as JSON.
fn dead_links_of(alloc: Global, limit: u32, input: &[u8]) -> Result<String, Fault>
    ensures { GivesAnswer result (dead_links_answer limit input.now) }
{
    let made = text_of_settings(alloc, 0, 1, limit, input)?;
    Ok(dead_links_text(alloc, &made.dead_links)?)
}

/// Reports in JSON which links of the document that the input spells lead nowhere in the text of
/// [`typst_html_document`] with links 1 ([`dead_links`](html_anchors::dead_links)): those that stay
/// without an `href`, those to a place in a `template` alone, and all if a `base` leads elsewhere.
/// Writes the report into the buffer, if it fits:
///
/// ```json
/// {"dead_links":[{"destination":7,"span":3}]}
/// ```
///
/// The links are listed in document order, each with the location that it would lead to and the
/// span of its `a`. Input, limit and refusals are those of [`typst_html_document`], buffers and
/// replies those of [`typst_html_write`].
pub fn typst_html_dead_links(alloc: Global, limit: u32, input: &[u8], output: &mut [u8]) -> Reply
    ensures { ListsDeadLinks limit input.now output.old result output.new }
{
    reply_with(dead_links_of(alloc, limit, input), output)
}

/// Returns the names of the members whose information the text of the document does not show, as
/// JSON. Fails with bad input if the limit is invalid.
fn unused_of(alloc: Global, limit: u32, input: &[u8]) -> Result<String, Fault>
    ensures { GivesAnswer result (unused_call_answer limit input.now) }
{
    match limit_of(limit) {
        Some(limit) => unused_of_document(alloc, input, limit),
        None => Err(Fault::BadInput(InputPlace::Unknown)),
    }
}

/// Reports in JSON which members of the input hold information that the text of its document does
/// not show. If the items have a root of their own (an `html` alone, which stays as it is), these
/// are all members for information that the input has, also empty lists; otherwise there are none.
/// Writes the report into the buffer, if it fits:
///
/// ```json
/// {"unused":["title","lang"]}
/// ```
///
/// The names are listed in the order `title`, `description`, `authors`, `keywords`, `lang`,
/// `region`, `head`. Input and limit are those of [`typst_html_document`], which refuses whatever
/// is refused here; buffers and replies are those of [`typst_html_write`].
pub fn typst_html_unused(alloc: Global, limit: u32, input: &[u8], output: &mut [u8]) -> Reply
    ensures { ListsUnused limit input.now output.old result output.new }
{
    reply_with(unused_of(alloc, limit, input), output)
}

/// Reads a page and reports in JSON which links to fragments of the page lead nowhere, which ids an
/// earlier element has too, and which nodes would make a browser build another tree if the tree of
/// the page were written ([`misnested`](html_page_nesting::misnested)), each with its place. Writes the
/// report into the buffer, if it fits:
///
/// ```json
/// {"dead_fragments":[{"fragment":"mint","keeps":0,"path":[1,3],"offset":120,"line":5,"column":9},
///                    {"fragment":"sage","keeps":1,"path":[5],"offset":165,"line":5,"column":54}],
///  "repeated_ids":[{"id":"dill","keeps":0,"path":[1,4],"offset":144,"line":5,"column":33}],
///  "misnested":[{"rule":"ClosesParagraph","why":"closes the p that it stands in","keeps":0,"path":[1,7,0],
///                "offset":190,"line":6,"column":4}]}
/// ```
///
/// (The report is a single line.) A path has the index of each child on the way from the root,
/// texts counted. It begins with the first `keeps` indices of the path of the previous finding in
/// the list, and goes on with those of `path`. So the link to `sage` stands at 1, 5. The first
/// finding of a list keeps none.
///
/// The offset is the number of bytes of the page's text, in UTF-8, before the `<` of the start tag,
/// or, for a text, before that of the element in which it stands. Lines and columns are counted from 1, columns in
/// characters. A line ends with a line feed, a carriage return or both, in that order. A byte order
/// mark at the beginning is not counted as a character.
///
/// A misnested node stands where a browser puts it when it reads this page, but not when it reads
/// the text of the tree. Examples are a `table` in a `p` on a page without a document type, and a
/// carriage return that is written as a character reference. `rule` is the name of a
/// [`Misnesting`](html_page_nesting::Misnesting), and `why` has its words.
///
/// The page is decoded ([`decode_page_bytes`](html_page_read::decode_page_bytes)), by its byte order
/// mark, its label or its bytes. A page whose label is not known is refused (25), with the place of
/// the label; bytes that are no text in the encoding are bad input, with the place of the first. The
/// offsets of both count the bytes of the page.
///
/// [`read_page`](html_page_read::read_page) reads the text as a browser does (HTML Standard 13.2,
/// with scripting disabled). It refuses a page in which an element would stand deeper than the limit,
/// or that goes beyond a limit of this project. The reply then has the number of the refusal
/// ([`PageRefusal`](html_page_stack::PageRefusal)) and the place of the tag or character.
/// A limit that is not from 1 to 1,000 is bad input without a place. Buffers and replies are those of
/// [`typst_html_write`].
///
/// Takes the time of reading. Each list takes one more pass over the page, and each finding the
/// length of its path. The findings are written as they are found: beside the report, two paths are
/// held. The tree is freed while the misnested nodes are written.
pub fn typst_html_check(alloc: Global, limit: u32, page: &[u8], output: &mut [u8]) -> Reply
    ensures { ChecksPage limit page.now output.old result output.new }
{
    reply_to_page(alloc, Asked::Findings, limit, page, output)
}

/// Reads a page and reports in JSON what a check of links between pages needs: the names in it to
/// which links may lead, and its own links, each with its place. Writes the report into the buffer,
/// if it fits:
///
/// ```json
/// {"ids":[{"id":"dill","keeps":0,"path":[1,0],"offset":40,"line":3,"column":1}],
///  "names":[{"name":"top","keeps":0,"path":[1,1],"offset":58,"line":4,"column":1}],
///  "links":[{"href":"herbs.html#mint","keeps":0,"path":[1,2],"offset":78,"line":5,"column":1}]}
/// ```
///
/// (The report is a single line.) The ids are those of elements, and the names those of `a`
/// elements, to which a link may lead as to an id; empty ones are left out. The links are the
/// addresses (`href`) of `a` and `area` elements, as they are written, including empty ones and
/// those that lead out of the site. Of two attributes of one name the first counts.
///
/// Each list is in document order. Paths, places, pages, limits and refusals are those of
/// [`typst_html_check`].
pub fn typst_html_links(alloc: Global, limit: u32, page: &[u8], output: &mut [u8]) -> Reply
    ensures { ListsLinks limit page.now output.old result output.new }
{
    reply_to_page(alloc, Asked::Links, limit, page, output)
}
