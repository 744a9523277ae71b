//! The kinds of the lists that spell nodes and items.

ghost use Rattle.std.specs.Prelude.{◌≡◌};
ghost use Rattle.serde_json.specs.View.{items_view};
ghost use Rattle.typst_html_json.specs.FormKinds.{document_kind, list_kind, named_kind, program_kind};

use crate::input_forms::Forms;
use serde_json::Value;

/// The kind of node or item that a list spells.
#[derive(Clone, Copy)]
pub(crate) enum Kind {
    Text,
    Element,
    Block,
    Box,
    Start,
    End,
    Space,
    Break,
    Hole,
    Place,
    Link,
    Role,
}

/// Returns the kind of a list, which its first value names.
pub(crate) fn list_kind(forms: Forms, list: &[Value]) -> Option<Kind>
    ensures { result ≡ list_kind forms (items_view list.now) }
{
    match list {
        [Value::String(name), ..] => named_kind(forms, name),
        _ => None,
    }
}

fn named_kind(forms: Forms, name: &str) -> Option<Kind>
    ensures { result ≡ named_kind forms name.now }
{
    match forms {
        Forms::Program => program_kind(name),
        Forms::Document => match program_kind(name) {
            Some(kind) => Some(kind),
            None => document_kind(name),
        },
    }
}

#[tactic(auto, unfolding(crate::specs::FormKinds::program_kind))]
fn program_kind(name: &str) -> Option<Kind>
    ensures { result ≡ program_kind name.now }
{
    match name.as_bytes() {
        b"text" => Some(Kind::Text),
        b"el" => Some(Kind::Element),
        b"block" => Some(Kind::Block),
        b"box" => Some(Kind::Box),
        b"start" => Some(Kind::Start),
        b"end" => Some(Kind::End),
        b"space" => Some(Kind::Space),
        b"break" => Some(Kind::Break),
        b"hole" => Some(Kind::Hole),
        _ => None,
    }
}

#[tactic(auto, unfolding(crate::specs::FormKinds::document_kind))]
fn document_kind(name: &str) -> Option<Kind>
    ensures { result ≡ document_kind name.now }
{
    match name.as_bytes() {
        b"place" => Some(Kind::Place),
        b"link" => Some(Kind::Link),
        b"role" => Some(Kind::Role),
        _ => None,
    }
}
