//! A run of the program on any reader and writer.

ghost use Rattle.std.specs.{Io.KnownBytes.{Appends}, Prelude.{◌≡◌, None, IfSome, IfOk, codes}};
ghost use Rattle.html_dom_flat.specs.FlatTrees.{tree_nodes};
ghost use Rattle.html_dom_tree.specs.{Tree.{ElementView, element_node, node, none}, Views.{text_view}};
ghost use Rattle.html_flow_convert.specs.Views.{items_view};
ghost use Rattle.serde_json.specs.View.{view};
ghost use Rattle.typst_html_run.specs.Answers.{answer_to, input_answer, doc_answer, doc_refusals, doc_text, refused_answer, tree_answer, tree_refusals, tree_text, value_answer};
ghost use Rattle.typst_html_run.specs.ExportRefusals.{export_refusal};
ghost use Rattle.typst_html_run.specs.Outputs.{EndsAs, EndsOn, RunsAs, RunsOn, Output, bad_input_output, output_of};
ghost use Rattle.typst_html_run.specs.Replies.{GivesAnswer, GivesOutput, GivesOutputOn, IsReply, reply_output};
ghost use Rattle.typst_html_run.specs.{Words.{texts_of, wanted_task}, declared.status.Status.TheVariants.{BadInput}};
ghost use Rattle.typst_html_json.specs.{Refusals.{Gives}, Spelled.{spelled_element}, SpelledItems.{spelled_items}};

use crate::recorded::{LastCall, Recorded, WriteFailed};
use crate::status::Status;
use crate::whole::write_whole;
use crate::words::{Task, wanted_task};
use html_dom_document::DocumentInfo;
use html_dom_flat::FlatTree;
use html_dom_tree::Span;
use html_flow_convert::Pair;
use serde_json::Value;
use std::alloc::{AllocError, Global};
use std::io::{Read, Write};
use typst_html_encode::{ExportFault, HtmlOptions, tree_html};
use typst_html_export::export_items;
use typst_html_json::{Fault, InputPlace, into_items, parse, tree_in};

/// The largest number of bytes that one read asks for.
const PIECE: usize = 4096;

/// The largest number of reads. A reader that has not ended after them counts as one that failed.
const MOST_READS: u32 = 1_048_576;

/// How deep the bodies of items may be nested.
const DEPTH_LIMIT: usize = 50;

/// Reads the reader to its end. Returns `None` if a read fails, the reader does not end, or an
/// allocation fails.
fn read_all<R: Read>(alloc: Global, reader: &mut R) -> Option<Vec<u8>>
    ensures { IfSome result (λ input.
        IfSome (R.remaining reader.old) (λ bytes. input.items ≡ bytes)) }
{
    let mut input = Vec::new(alloc);
    let mut piece = [0u8; PIECE];
    for _ in 0..MOST_READS {
        match reader.read(&mut piece) {
            Ok(0) => return Some(input),
            Ok(n) => {
                if input.extend_from_slice(&piece[..n]).is_err() {
                    return None;
                }
            }
            Err(_) => return None,
        }
    }
    None
}

#[derive(Drop)]
pub(crate) struct Reply {
    status: Status,
    text: Vec<u8>,
}

fn make_reply(alloc: Global, status: Status, text: &[u8]) -> Result<Reply, AllocError>
    ensures { IfOk result (λ reply. (reply.status ≡ status) × (reply.text.items ≡ text.now)) }
{
    let text = Vec::from_slice(alloc, text)?;
    Ok(Reply { status, text })
}

fn refused(alloc: Global, number: u8, span: Span) -> Result<Reply, AllocError>
    ensures { IfOk result (λ reply. IsReply reply (output_of (refused_answer (number, span.0)))) }
{
    let Span(span) = span;
    let line = format!(in alloc; "refused: {number} at {span}\n")?;
    make_reply(alloc, Status::Refused, line.as_bytes())
}

fn reply_of(alloc: Global, text: Result<String, Fault>) -> Result<Reply, AllocError>
    ensures { (output : Output) → GivesOutput text output → IfOk result (λ reply. IsReply reply output) }
{
    match text {
        Ok(text) => Ok(Reply {
            status: Status::Done,
            text: text.into_bytes(),
        }),
        Err(Fault::Refused(number, span)) => refused(alloc, number, span),
        Err(Fault::BadInput(_)) => make_reply(alloc, Status::BadInput, b"bad input\n"),
        Err(Fault::OutOfMemory) => Err(AllocError),
    }
}

pub(crate) fn fault_of(fault: &ExportFault) -> Fault
    ensures { result ≡ export_refusal fault.now }
{
    match fault.number() {
        0 => Fault::OutOfMemory,
        number => Fault::Refused(number, fault.span()),
    }
}

fn tree_text(alloc: Global, tree: &FlatTree, pretty: bool) -> Result<String, Fault>
    ensures { (root : ElementView) →
        tree_nodes tree.now ≡ node (element_node root.0 root.1) none →
        Gives text_view result (tree_text pretty root) (tree_refusals pretty root) }
{
    let options = HtmlOptions { pretty };
    match tree_html(alloc, tree, &options, &()) {
        Ok(text) => Ok(text),
        Err(fault) => Err(fault_of(&fault)),
    }
}

#[tactic(auto, using(crate::proofs::FirstFaults::first_faults))]
fn items_text(alloc: Global, items: Vec<Pair>, pretty: bool) -> Result<String, Fault>
    ensures { Gives text_view result (doc_text pretty (items_view items.items))
        (doc_refusals pretty (items_view items.items)) }
{
    let info = DocumentInfo::new(alloc);
    let settings = HtmlOptions { pretty };
    match export_items(alloc, items, &info, &[], DEPTH_LIMIT, &settings, &()) {
        Ok(text) => Ok(text),
        Err(fault) => Err(fault_of(&fault)),
    }
}

fn spelled_tree(alloc: Global, value: Value, pretty: bool) -> Result<String, Fault>
    ensures { GivesAnswer result (answer_to (tree_answer pretty) (spelled_element (view value))) }
{
    let tree = tree_in(alloc, value)?;
    tree_text(alloc, &tree, pretty)
}

fn spelled_doc(alloc: Global, value: Value, pretty: bool) -> Result<String, Fault>
    ensures { GivesAnswer result (answer_to (doc_answer pretty) (spelled_items (view value))) }
{
    let items = into_items(alloc, value)?;
    items_text(alloc, items, pretty)
}

fn value_text(alloc: Global, value: Value, task: Task, pretty: bool) -> Result<String, Fault>
    ensures { GivesAnswer result (value_answer task pretty (view value)) }
{
    match task {
        Task::Tree => spelled_tree(alloc, value, pretty),
        Task::Doc => spelled_doc(alloc, value, pretty),
    }
}

/// Returns the HTML text of what an input spells, which is one JSON value: the bytes that [`run`]
/// writes for it.
///
/// Fails with [`Fault::OutOfMemory`] if an allocation fails, whatever the input is. Fails with
/// [`Fault::BadInput`] and the [`InputPlace`] if the input is not UTF-8 or not a JSON value, or if
/// it spells no tree or no items. Fails with the first refusal if what it spells is refused, with
/// the span of what is refused: the number of its list in the input, counted from 1. The cost is
/// that of a run.
///
/// ```
/// use typst_html_run::{Fault, InputPlace, Task, text_of_input};
/// use typst_html::Span;
///
/// let alloc = rt.alloc();
/// let text = text_of_input(alloc, br#"["el","p",[],[["text","a < b"]]]"#, Task::Tree, false)?;
/// assert_eq!(rt; text.as_str(), "<!DOCTYPE html><p>a &lt; b</p>");
/// let fault = text_of_input(alloc, br#"["el","P Q",[],[]]"#, Task::Tree, false);
/// assert!(rt; fault == Err(Fault::Refused(2, Span(1)))); // no tag has a name with a space
/// let fault = text_of_input(alloc, br#"["el","p",[],[["text",7]]]"#, Task::Tree, false);
/// assert!(rt; fault == Err(Fault::BadInput(InputPlace::Form(2)))); // the second list is no text
/// let fault = text_of_input(alloc, br#"["el","p",[],[]"#, Task::Tree, false);
/// assert!(rt; fault == Err(Fault::BadInput(InputPlace::Text(1, 15)))); // a bracket is missing
/// ```
pub fn text_of_input(alloc: Global, input: &[u8], task: Task, pretty: bool) -> Result<String, Fault>
    ensures { GivesAnswer result (input_answer task pretty input.now) }
{
    let value = parse(alloc, input)?;
    value_text(alloc, value, task, pretty)
}

/// Drops the input before it makes anything of its value.
fn answer(alloc: Global, input: Vec<u8>, task: Task, pretty: bool) -> Result<String, Fault>
    ensures { GivesAnswer result (input_answer task pretty input.items) }
{
    let value = parse(alloc, &input)?;
    drop(input);
    value_text(alloc, value, task, pretty)
}

/// Returns the text that the words ask for. Reports a reader that fails as out of memory.
fn wanted<R: Read>(alloc: Global, reader: &mut R, words: &[String]) -> Result<String, Fault>
    ensures answers { GivesOutputOn (texts_of words.now) (R.remaining reader.old) result }
    ensures wrong_words { wanted_task (texts_of words.now) ≡ None → GivesOutput result bad_input_output }
    ensures unread { wanted_task (texts_of words.now) ≡ None → reader.new ≡ reader.old }
{
    let Some((task, pretty)) = wanted_task(words) else {
        return Err(Fault::BadInput(InputPlace::Unknown));
    };
    match read_all(alloc, reader) {
        Some(input) => answer(alloc, input, task, pretty),
        None => Err(Fault::OutOfMemory),
    }
}

fn send<W: Write>(writer: &mut W, last: &mut LastCall, reply: &Reply) -> Status
    ensures { EndsAs (reply_output reply.now) result
        (W.contents writer.old) (W.contents writer.new) last.new }
{
    match write_whole(writer, last, &reply.text) {
        Ok(()) => reply.status,
        Err(WriteFailed) => Status::Failed,
    }
}

fn run_on<R: Read, W: Write>(
    alloc: Global,
    reader: &mut R,
    writer: &mut W,
    last: &mut LastCall,
    words: &[String],
) -> Status
    ensures answers { EndsOn (texts_of words.now) (R.remaining reader.old) result
        (W.contents writer.old) (W.contents writer.new) last.new }
    ensures bad_input { result ≡ BadInput
        → Appends (W.contents writer.old) (W.contents writer.new) (codes "bad input\n") }
    ensures wrong_words { wanted_task (texts_of words.now) ≡ None
        → EndsAs bad_input_output result (W.contents writer.old) (W.contents writer.new) last.new }
    ensures unread { wanted_task (texts_of words.now) ≡ None → reader.new ≡ reader.old }
{
    match reply_of(alloc, wanted(alloc, reader, words)) {
        Ok(reply) => send(writer, last, &reply),
        Err(AllocError) => Status::Failed,
    }
}

/// Reads the reader to its end, as one JSON value, and writes the HTML text of what it spells, or
/// one line that says why there is none: `refused: 12 at 4` for a refusal, with its number and the
/// number of a list in the input; `bad input` for words or an input that it does not take
/// ([`text_of_input`] says where such an input is bad).
///
/// `words` are the arguments after the program's name: `tree` for a tree or `doc` for the document
/// of a list of items, and then `--pretty` for pretty text. Other words are reported before
/// anything is read. A document has no footnotes and no information about it; the bodies of its
/// items may be nested 50 deep. The reader is read in pieces of at most 4,096 bytes, at most
/// 1,048,576 times.
///
/// With the status `Failed`, either an allocation or a read failed, or the reader did not end, and
/// nothing was written; or a write or the flush after the last one failed, and a beginning of the
/// answer was written. With any other status the whole answer was written and flushed.
///
/// The contract of a writer says which bytes it holds, but not whether a call on it failed or
/// whether it was flushed. So the contract of `run` holds for some outcome of the last call.
/// [`run_recorded`] makes the same run, and its contract holds for the outcome that its writer
/// remembers.
///
/// ```
/// use typst_html_run::{Status, run};
///
/// let alloc = rt.alloc();
/// let words = vec![in alloc; String::from_str(alloc, "tree")?]?;
/// let mut input = r#"["el","p",[],[["text","a < b"]]]"#.as_bytes();
/// let mut text = Vec::new(alloc);
/// let status = run(alloc, &mut input, &mut text, &words);
/// assert!(rt; status == Status::Done);
/// assert!(rt; text.as_slice() == b"<!DOCTYPE html><p>a &lt; b</p>".as_slice());
/// ```
pub fn run<R: Read, W: Write>(
    alloc: Global,
    reader: &mut R,
    writer: &mut W,
    words: &[String],
) -> Status
    ensures answers { RunsOn (texts_of words.now) (R.remaining reader.old) result
        (W.contents writer.old) (W.contents writer.new) }

    // Bad input, of any kind.
    ensures bad_input { result ≡ BadInput
        → Appends (W.contents writer.old) (W.contents writer.new) (codes "bad input\n") }

    // Wrong words.
    ensures wrong_words { wanted_task (texts_of words.now) ≡ None
        → RunsAs bad_input_output result (W.contents writer.old) (W.contents writer.new) }
    ensures unread { wanted_task (texts_of words.now) ≡ None → reader.new ≡ reader.old }
{
    let mut last = LastCall::NoCall;
    run_on(alloc, reader, writer, &mut last, words)
}

/// Does the same as [`run`], with a writer that remembers how its last call ended. If the status is
/// `Failed`, nothing was written unless [`Recorded::last`] is [`LastCall::Failed`].
pub fn run_recorded<R: Read, W: Write>(
    alloc: Global,
    reader: &mut R,
    writer: &mut Recorded<W>,
    words: &[String],
) -> Status
    ensures answers { EndsOn (texts_of words.now) (R.remaining reader.old) result
        (W.contents writer.old.writer) (W.contents writer.new.writer) writer.new.last }

    // Bad input, of any kind.
    ensures bad_input { result ≡ BadInput → Appends (W.contents writer.old.writer)
        (W.contents writer.new.writer) (codes "bad input\n") }

    // Wrong words.
    ensures wrong_words { wanted_task (texts_of words.now) ≡ None
        → EndsAs bad_input_output result (W.contents writer.old.writer) (W.contents writer.new.writer)
        writer.new.last }
    ensures unread { wanted_task (texts_of words.now) ≡ None → reader.new ≡ reader.old }
{
    run_on(alloc, reader, &mut writer.writer, &mut writer.last, words)
}
