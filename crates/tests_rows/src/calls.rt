//! The output of a row, by its first word. `N` is a number, and words in brackets may be left out.
//!
//! For the name of an element:
//!
//! - `kinds`: its default display, and its kinds
//!
//! For the name of an attribute:
//!
//! - `attribute`: `known`, `handler`, both or `-`
//!
//! For values and arguments, which `tests_rows_values` spells:
//!
//! - `cast`: the result of a cast, and `castable` if the type is for a value that it refuses
//! - `construct`: the constructed element, or the fault, and the spans of the arguments left
//!
//! For an address:
//!
//! - `address`: `script` or `-`
//! - `decoded-fragment`: its decoded fragment, or `-`
//!
//! For an address and the names of all places of its page, as a list in JSON:
//!
//! - `place-in`: the name of the place to which it leads, or `-`
//!
//! For items, whose spelling `tests_rows_items` describes:
//!
//! - `nodes LEVEL SPACE [depth=N] [limit=N] [role=TEXT]`, where the level is `block` or `inline`
//!   and white space `normal` or `pre`: the content of a `body` with their nodes. By default the
//!   depth is 0, the limit 50, and there is no role.
//! - `block-fragment`, `inline-fragment`, `math-fragment`, each `[depth=N] [limit=N]`: the same by
//!   the call of that name, with the span 9
//! - `spans`: the spans of these nodes, those of children in brackets
//! - `bare`: 1 or 0 for each lone space that is bare or not, and the number of visited nodes
//! - `fragment-text LEVEL [limit=N]`: their text by themselves, at that level
//! - `items-text`: what is visible of their document, written plain and pretty
//!
//! For items, or an object with `items`, `footnotes`, `head`, and information about a document
//! (`title`, `description`, `authors`, `keywords`, `lang`, `region`) as `typst_html_json` reads it,
//! each with `[limit=N]`:
//!
//! - `document`: the content of the body, or the whole text if there is information
//! - `links`: the same with links resolved
//! - `anchors`: each link target and its anchor
//! - `positions`: each location below 100 and its path
//! - `dead-links`: the span and the destination of each
//! - `distinct-ids`: whether the ids differ
//!
//! For the calls that fill a list, whose spelling [`lists`] describes:
//!
//! - `list-lines`: the lines that its page shows, but for empty ones, with `/` between them
//! - `list-page`: the content of the body, with the notes at the end and with links resolved
//!
//! For a page, of which the input is the text after the document type:
//!
//! - `read [limit=N]`: the text of the tree that is read, or `same` if that is the input;
//!   `none at N, L:C` if reading stops there: the offset in bytes, line and column;
//!   `too deep at N, L:C`
//! - `page-text`: what is visible: texts in brackets, objects, `/` for a line break, `|` for an
//!   edge
//! - `dead-fragments`, `repeated-ids`: the path and the name of each
//! - `misnested`: the path and the rule of each
//!
//! For a whole page:
//!
//! - `as-browsers [limit=N] [encoding]`: the text of the tree that `read_page_bytes` reads, before
//!   it the name of the encoding, if wanted, and after each ` ! ` a recovered error, with its line
//!   and column; or `refused, `, the reason and the place
//! - `page-places`: the elements of that tree, in document order, each with the place of its span
//!
//! For a fragment of a page:
//!
//! - `fragment-as-browsers [limit=N]`: the text of the nodes that `read_fragment` reads, and the same
//!   behind it
//!
//! For a foreign fragment:
//!
//! - `clean POLICY [prefix=TEXT] [rel=TEXT] [limit=N]`: the text of what stays by the policy `text`,
//!   `inline`, `article` or `mail`
//!
//! For an input of the library for C, its reply and its buffer, which had `room=N` points:
//!
//! - `c-write [kind=N] [layout=N]`, `c-document [layout=N] [links=N] [limit=N]`,
//!   `c-fragment [level=N] [limit=N]`, `c-dead-links [limit=N]`, `c-unused [limit=N]`,
//!   `c-check [limit=N]`, `c-links [limit=N]`, by default with limit 50 and else 0
//! - `c-version`: the version of these calls
//!
//! A refusal is `refused`, its number, `at` and its span.

use crate::{checks, cleaned, documents, kinds, lists, nodes, pages, replies, runs};
use anyhow::Result;
use std::alloc::Global;
use tests_rows_run::{Caller, Row};
use tests_rows_values::{cast, constructed};

#[derive(Clone, Copy)]
pub(crate) struct Library;

impl Caller for Library {
    fn output(&self, alloc: Global, row: &Row<'_>) -> Result<String> {
        let Some(call) = row.words.first() else {
            return runs::output(alloc, row);
        };
        match *call {
            "nodes" => nodes::converted(alloc, row),
            "block-fragment" | "inline-fragment" | "math-fragment" => nodes::fragment(
                alloc, row, call,
            ),
            "fragment-text" => documents::fragment_text(alloc, row),
            "kinds" => kinds::of_name(alloc, row),
            "attribute" => kinds::of_attribute(alloc, row),
            "cast" => cast(alloc, &row.input),
            "construct" => constructed(alloc, &row.input),
            "address" => checks::is_script(alloc, row),
            "decoded-fragment" => checks::decoded_name(alloc, row),
            "place-in" => checks::place_name(alloc, row),
            "spans" => nodes::spans(alloc, row),
            "bare" => nodes::bare(alloc, row),
            "document" => documents::text(alloc, row, false),
            "links" => documents::text(alloc, row, true),
            "anchors" => documents::anchors(alloc, row),
            "positions" => documents::positions(alloc, row),
            "dead-links" => checks::dead_link_list(alloc, row),
            "distinct-ids" => checks::have_distinct_ids(alloc, row),
            "list-lines" => lists::lines(alloc, row),
            "list-page" => lists::page(alloc, row),
            "read" => pages::read(alloc, row),
            "as-browsers" => pages::as_browsers(alloc, row),
            "page-places" => pages::element_places(alloc, row),
            "fragment-as-browsers" => pages::fragment_as_browsers(alloc, row),
            "clean" => cleaned::text(alloc, row),
            "page-text" => pages::text(alloc, row),
            "items-text" => pages::items_text(alloc, row),
            "dead-fragments" => checks::dead_fragment_list(alloc, row),
            "repeated-ids" => checks::repeated_id_list(alloc, row),
            "misnested" => checks::misnested_list(alloc, row),
            "c-version" => replies::version(alloc),
            call if call.starts_with("c-") => replies::reply(alloc, row, call),
            _ => runs::output(alloc, row),
        }
    }
}
