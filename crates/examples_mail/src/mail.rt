//! The mail of a record.

use anyhow::{Context, Error, Result, ensure};
use serde_json::{Map, Value};
use std::alloc::Global;
use typst_html::property::Display;
use typst_html::{
    Abs, DocumentInfo, Em, ExportFault, HtmlElem, HtmlOptions, Item, Locale, Pair, Properties,
    Rgba, Span, attr, export, tag,
};

/// The greatest depth of items. In a mail they are three deep.
const DEPTH_LIMIT: usize = 50;

const INK: Rgba = Rgba {
    r: 32,
    g: 32,
    b: 40,
    a: 255,
};

const PAPER: Rgba = Rgba {
    r: 250,
    g: 248,
    b: 240,
    a: 255,
};

/// The texts that fill holes, by the names of the holes.
type Fields = Map<String, Value>;

/// Makes the mail of a record in JSON from the template, on one line.
///
/// A line break in a field becomes a `br` in paragraphs and on buttons. In the subject or in an
/// address it would be written as it is, and would break the line, so such a record is an error.
pub(crate) fn mail(alloc: Global, template: &str, record: &[u8], lang: &str) -> Result<String> {
    let record = Value::from_slice(alloc, record).context("no JSON")?;
    let fields = record.as_object().context("no JSON object")?;
    let html = html(alloc, template, fields, lang)?;
    ensure!(
        !html.contains(['\n', '\r']),
        "a line break in the subject or in an address"
    );
    Ok(html)
}

/// Returns the HTML text of a mail, which a line break in the subject or in an address breaks.
fn html(alloc: Global, template: &str, fields: &Fields, lang: &str) -> Result<String> {
    let info = info(alloc, template, fields, lang)?;
    let items = vec![in alloc; Pair::from(card(alloc, template, fields)?)]?;
    let options = HtmlOptions { pretty: false };
    export(alloc, &items, &info, &[], DEPTH_LIMIT, &options, &()).map_err(with_line)
}

/// Returns the information about a mail: its subject and its language.
fn info(alloc: Global, template: &str, fields: &Fields, lang: &str) -> Result<DocumentInfo> {
    let subject = template.lines().next().context("no subject")?;
    let title = fill(alloc, subject, fields).context("subject")?;
    let lang = String::from_str(alloc, lang)?;
    Ok(DocumentInfo {
        title: Some(title),
        locale: Some(Locale::new(lang)),
        ..DocumentInfo::new(alloc)
    })
}

/// Makes the visible part of a mail: dark letters on a light ground, with some room around.
fn card(alloc: Global, template: &str, fields: &Fields) -> Result<HtmlElem> {
    let mut body = Vec::new(alloc);
    let mut number = 1u64;
    for line in template.lines().skip(1) {
        number = number.saturating_add(1);
        if !line.trim().is_empty() {
            let content = content(alloc, line, fields, Span(number));
            let content = content.context(format_args!("template's line {number}"))?;
            let paragraph = HtmlElem::new(alloc, tag::p).with_item(alloc, content)?;
            body.push(Pair::from(paragraph))?;
        }
    }
    let card = HtmlElem::new(alloc, tag::div).with_css(card_css(alloc)?);
    Ok(card.with_body(body))
}

fn card_css(alloc: Global) -> Result<Properties> {
    let mut css = Properties::build(alloc, ());
    css.push("background-color", &PAPER)?;
    css.push("color", &INK)?;
    css.push("font-family", &"sans-serif")?;
    css.push("max-width", &Abs::from_millionths(450_000_000))?;
    css.push("padding", &Em::from_millionths(1_500_000))?;
    Ok(css.finish())
}

/// Makes the content of the paragraph for a line of the template.
fn content(alloc: Global, line: &str, fields: &Fields, span: Span) -> Result<Pair> {
    match line.strip_prefix("> ") {
        Some(line) => Ok(Pair::from(button(alloc, line, fields, span)?)),
        None => Ok(Pair::from(Item::Text(fill(alloc, line, fields)?, span))),
    }
}

/// Makes a link that looks like a button: the last word is its address, the rest its label.
fn button(alloc: Global, line: &str, fields: &Fields, span: Span) -> Result<HtmlElem> {
    let (label, address) = line
        .rsplit_once(' ')
        .context("a button without an address")?;
    let address = fill(alloc, address, fields)?;
    let label = fill(alloc, label, fields)?;
    let button = HtmlElem::new(alloc, tag::a).spanned(span);
    let button = button.with_css(button_css(alloc)?);
    Ok(
        button
            .with_attr(attr::href, address)?
            .with_text(alloc, &label)?,
    )
}

fn button_css(alloc: Global) -> Result<Properties> {
    let mut css = Properties::build(alloc, ());
    css.push("background-color", &INK)?;
    css.push("color", &PAPER)?;
    css.push("display", &Display::InlineBlock)?;
    css.push("padding", &Em::from_millionths(500_000))?;
    css.push("text-decoration", &"none")?;
    Ok(css.finish())
}

/// Fills the holes in a text of the template with fields.
fn fill(alloc: Global, text: &str, fields: &Fields) -> Result<String> {
    let mut parts = text.split('{');
    let mut filled = String::from_str(alloc, parts.next().unwrap_or_default())?;
    for part in parts {
        let (name, behind) = part.split_once('}').context("a hole without a `}`")?;
        let field = fields.get(name).and_then(Value::as_str);
        filled.push_str(field.context(format_args!("no text for {{{name}}}"))?)?;
        filled.push_str(behind)?;
    }
    Ok(filled)
}

/// Adds to a fault the line of the template that it is in.
fn with_line(fault: ExportFault) -> Error {
    match (fault.number(), fault.span()) {
        (0, _) => Error::from(fault),
        (_, Span(0)) => Error::from(fault).context("subject or language"),
        (_, Span(line)) => Error::from(fault).context(format_args!("template's line {line}")),
    }
}
