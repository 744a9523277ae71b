//! The known names in ascending order, and the default display and the kinds of each known tag. A
//! known name takes no memory: its representation is its index in one of these tables.

use crate::property::Display;
pub(crate) use kinds::*;

/// Kinds of elements, each a bit.
#[rattlefmt::skip]
mod kinds {
    pub(crate) const VOID: u32 = 1 << 0;
    pub(crate) const RAW: u32 = 1 << 1;
    pub(crate) const ESCAPABLE_RAW: u32 = 1 << 2;
    pub(crate) const FOREIGN_SELF_CLOSING: u32 = 1 << 3;
    pub(crate) const MATHML: u32 = 1 << 4;
    pub(crate) const TOKEN: u32 = 1 << 5;
    pub(crate) const METADATA: u32 = 1 << 6;
    pub(crate) const SECTIONING: u32 = 1 << 7;
    pub(crate) const HEADING: u32 = 1 << 8;
    pub(crate) const PHRASING: u32 = 1 << 9;
    pub(crate) const FLOW_BESIDE_PHRASING: u32 = 1 << 10;
    pub(crate) const NOT_PALPABLE: u32 = 1 << 11;
    pub(crate) const EMBEDDED: u32 = 1 << 12;
    pub(crate) const INTERACTIVE: u32 = 1 << 13;
    pub(crate) const SCRIPT_SUPPORTING: u32 = 1 << 14;
    pub(crate) const REPLACED: u32 = 1 << 15;
    pub(crate) const LINE_BREAK: u32 = 1 << 16;
}

/// Calls the macro `$column` with a row for each known tag: its name, default display and kinds.
macro_rules! tag_rows {
    ($column:ident) => {
        $column! {
            "a": [Inline] PHRASING | INTERACTIVE,
            "abbr": [Inline] PHRASING,
            "address": [Block] FLOW_BESIDE_PHRASING,
            "annotation": [] MATHML,
            "annotation-xml": [] MATHML,
            "area": [None] VOID | PHRASING | NOT_PALPABLE,
            "article": [Block] SECTIONING | FLOW_BESIDE_PHRASING,
            "aside": [Block] SECTIONING | FLOW_BESIDE_PHRASING,
            "audio": [Inline] PHRASING | EMBEDDED | INTERACTIVE | REPLACED,
            "b": [Inline] PHRASING,
            "base": [None] VOID | METADATA,
            "bdi": [Inline] PHRASING,
            "bdo": [Inline] PHRASING,
            "blockquote": [Block] FLOW_BESIDE_PHRASING,
            "body": [Block] 0,
            "br": [Inline] VOID | PHRASING | NOT_PALPABLE | LINE_BREAK,
            "button": [InlineBlock] PHRASING | INTERACTIVE,
            "canvas": [Inline] PHRASING | EMBEDDED | REPLACED,
            "caption": [TableCaption] 0,
            "cite": [Inline] PHRASING,
            "code": [Inline] PHRASING,
            "col": [TableColumn] VOID,
            "colgroup": [TableColumnGroup] 0,
            "data": [Inline] PHRASING,
            "datalist": [None] PHRASING | NOT_PALPABLE,
            "dd": [Block] 0,
            "del": [Inline] PHRASING,
            "details": [Block] FLOW_BESIDE_PHRASING | INTERACTIVE,
            "dfn": [Inline] PHRASING,
            "dialog": [Block] FLOW_BESIDE_PHRASING | NOT_PALPABLE,
            "div": [Block] FLOW_BESIDE_PHRASING,
            "dl": [Block] FLOW_BESIDE_PHRASING,
            "dt": [Block] 0,
            "em": [Inline] PHRASING,
            "embed": [Inline] VOID | PHRASING | EMBEDDED | INTERACTIVE | REPLACED,
            "fieldset": [Block] FLOW_BESIDE_PHRASING,
            "figcaption": [Block] 0,
            "figure": [Block] FLOW_BESIDE_PHRASING,
            "footer": [Block] FLOW_BESIDE_PHRASING,
            "form": [Block] FLOW_BESIDE_PHRASING,
            "h1": [Block] HEADING | FLOW_BESIDE_PHRASING,
            "h2": [Block] HEADING | FLOW_BESIDE_PHRASING,
            "h3": [Block] HEADING | FLOW_BESIDE_PHRASING,
            "h4": [Block] HEADING | FLOW_BESIDE_PHRASING,
            "h5": [Block] HEADING | FLOW_BESIDE_PHRASING,
            "h6": [Block] HEADING | FLOW_BESIDE_PHRASING,
            "head": [None] 0,
            "header": [Block] FLOW_BESIDE_PHRASING,
            "hgroup": [Block] HEADING | FLOW_BESIDE_PHRASING,
            "hr": [Block] VOID | FLOW_BESIDE_PHRASING | NOT_PALPABLE,
            "html": [Block] 0,
            "i": [Inline] PHRASING,
            "iframe": [Inline] PHRASING | EMBEDDED | INTERACTIVE | REPLACED,
            "img": [Inline] VOID | PHRASING | EMBEDDED | INTERACTIVE | REPLACED,
            "input": [InlineBlock] VOID | PHRASING | INTERACTIVE | REPLACED,
            "ins": [Inline] PHRASING,
            "kbd": [Inline] PHRASING,
            "label": [Inline] PHRASING | INTERACTIVE,
            "legend": [Block] 0,
            "li": [ListItem] 0,
            "link": [None] VOID | METADATA | PHRASING | NOT_PALPABLE,
            "maction": [] MATHML,
            "main": [Block] FLOW_BESIDE_PHRASING,
            "map": [Inline] PHRASING,
            "mark": [Inline] PHRASING,
            "math": [InlineMath] MATHML | PHRASING | EMBEDDED,
            "menu": [Block] FLOW_BESIDE_PHRASING,
            "merror": [] MATHML,
            "meta": [None] VOID | METADATA | PHRASING | NOT_PALPABLE,
            "meter": [InlineBlock] PHRASING,
            "mfrac": [] MATHML,
            "mi": [] MATHML | TOKEN,
            "mmultiscripts": [] MATHML,
            "mn": [] MATHML | TOKEN,
            "mo": [] MATHML | TOKEN,
            "mover": [] MATHML,
            "mpadded": [] MATHML,
            "mphantom": [] MATHML,
            "mprescripts": [] FOREIGN_SELF_CLOSING | MATHML,
            "mroot": [] MATHML,
            "mrow": [] MATHML,
            "ms": [] MATHML | TOKEN,
            "mspace": [] FOREIGN_SELF_CLOSING | MATHML | TOKEN,
            "msqrt": [] MATHML,
            "mstyle": [] MATHML,
            "msub": [] MATHML,
            "msubsup": [] MATHML,
            "msup": [] MATHML,
            "mtable": [InlineTable] MATHML,
            "mtd": [TableCell] MATHML,
            "mtext": [] MATHML | TOKEN,
            "mtr": [TableRow] MATHML,
            "munder": [] MATHML,
            "munderover": [] MATHML,
            "nav": [Block] SECTIONING | FLOW_BESIDE_PHRASING,
            "noscript": [Inline] METADATA | PHRASING | NOT_PALPABLE,
            "object": [Inline] PHRASING | EMBEDDED | REPLACED,
            "ol": [Block] FLOW_BESIDE_PHRASING,
            "optgroup": [Block] 0,
            "option": [Block] 0,
            "output": [Inline] PHRASING,
            "p": [Block] FLOW_BESIDE_PHRASING,
            "picture": [Inline] PHRASING | EMBEDDED,
            "pre": [Block] FLOW_BESIDE_PHRASING,
            "progress": [InlineBlock] PHRASING,
            "q": [Inline] PHRASING,
            "rp": [None] 0,
            "rt": [RubyText] 0,
            "ruby": [Ruby] PHRASING,
            "s": [Inline] PHRASING,
            "samp": [Inline] PHRASING,
            "script": [None] RAW | METADATA | PHRASING | NOT_PALPABLE | SCRIPT_SUPPORTING,
            "search": [Block] FLOW_BESIDE_PHRASING,
            "section": [Block] SECTIONING | FLOW_BESIDE_PHRASING,
            "select": [InlineBlock] PHRASING | INTERACTIVE,
            "semantics": [] MATHML,
            "slot": [Contents] PHRASING | NOT_PALPABLE,
            "small": [Inline] PHRASING,
            "source": [Inline] VOID,
            "span": [Inline] PHRASING,
            "strong": [Inline] PHRASING,
            "style": [None] RAW | METADATA,
            "sub": [Inline] PHRASING,
            "summary": [Block] 0,
            "sup": [Inline] PHRASING,
            "table": [Table] FLOW_BESIDE_PHRASING,
            "tbody": [TableRowGroup] 0,
            "td": [TableCell] 0,
            "template": [None] METADATA | PHRASING | NOT_PALPABLE | SCRIPT_SUPPORTING,
            "textarea": [InlineBlock] ESCAPABLE_RAW | PHRASING | INTERACTIVE,
            "tfoot": [TableFooterGroup] 0,
            "th": [TableCell] 0,
            "thead": [TableHeaderGroup] 0,
            "time": [Inline] PHRASING,
            "title": [None] ESCAPABLE_RAW | METADATA,
            "tr": [TableRow] 0,
            "track": [Inline] VOID,
            "u": [Inline] PHRASING,
            "ul": [Block] FLOW_BESIDE_PHRASING,
            "var": [Inline] PHRASING,
            "video": [Inline] PHRASING | EMBEDDED | INTERACTIVE | REPLACED,
            "wbr": [Inline] VOID | PHRASING | NOT_PALPABLE,
        }
    };
}

macro_rules! name_column {
    ($($name:literal: [$($display:ident)?] $kinds:expr,)*) => { [$($name),*] };
}

macro_rules! display_column {
    ($($name:literal: [$($display:ident)?] $kinds:expr,)*) => { [$(display_cell!($($display)?)),*] };
}

macro_rules! display_cell {
    () => { None };
    ($display:ident) => { Some(Display::$display) };
}

macro_rules! kind_column {
    ($($name:literal: [$($display:ident)?] $kinds:expr,)*) => { [$($kinds),*] };
}

pub(crate) const TAGS: [&str; 142] = tag_rows!(name_column);

pub(crate) static DISPLAYS: [Option<Display>; 142] = tag_rows!(display_column);

pub(crate) static KINDS: [u32; 142] = tag_rows!(kind_column);

/// The indices in `TAGS`, each spelled as the constant of its tag.
#[rattlefmt::skip]
#[allow(non_camel_case_types)]
#[repr(u8)]
pub(crate) enum TagNumber {
    a, abbr, address, annotation, annotation_xml, area, article, aside, audio, b, base, bdi, bdo,
    blockquote, body, br, button, canvas, caption, cite, code, col, colgroup, data, datalist, dd,
    del, details, dfn, dialog, div, dl, dt, em, embed, fieldset, figcaption, figure, footer, form,
    h1, h2, h3, h4, h5, h6, head, header, hgroup, hr, html, i, iframe, img, input, ins, kbd, label,
    legend, li, link, maction, main, map, mark, math, menu, merror, meta, meter, mfrac, mi,
    mmultiscripts, mn, mo, mover, mpadded, mphantom, mprescripts, mroot, mrow, ms, mspace, msqrt,
    mstyle, msub, msubsup, msup, mtable, mtd, mtext, mtr, munder, munderover, nav, noscript, object,
    ol, optgroup, option, output, p, picture, pre, progress, q, rp, rt, ruby, s, samp, script,
    search, section, select, semantics, slot, small, source, span, strong, style, sub, summary, sup,
    table, tbody, td, template, textarea, tfoot, th, thead, time, title, tr, track, u, ul, var,
    video, wbr,
}

/// The index in `TAGS` of the first name with each first letter, and the length.
#[rattlefmt::skip]
pub(crate) const TAG_STARTS: [u8; 27] = [
    TagNumber::a as u8, TagNumber::b as u8, TagNumber::canvas as u8, TagNumber::data as u8,
    TagNumber::em as u8, TagNumber::fieldset as u8, TagNumber::h1 as u8, TagNumber::h1 as u8,
    TagNumber::i as u8, TagNumber::kbd as u8, TagNumber::kbd as u8, TagNumber::label as u8,
    TagNumber::maction as u8, TagNumber::nav as u8, TagNumber::object as u8, TagNumber::p as u8,
    TagNumber::q as u8, TagNumber::rp as u8, TagNumber::s as u8, TagNumber::table as u8,
    TagNumber::u as u8, TagNumber::var as u8, TagNumber::wbr as u8, 142, 142, 142, 142,
];

/// The index of `annotation-xml`, the only known tag that is a reserved name.
pub(crate) const RESERVED_TAG: u8 = TagNumber::annotation_xml as u8;

#[rattlefmt::skip]
pub(crate) const ATTRS: [&str; 206] = [
    "abbr", "accent", "accentunder", "accept", "accept-charset", "accesskey", "action", "allow",
    "allowfullscreen", "alpha", "alt", "aria-activedescendant", "aria-atomic", "aria-autocomplete",
    "aria-busy", "aria-checked", "aria-colcount", "aria-colindex", "aria-colspan", "aria-controls",
    "aria-current", "aria-describedby", "aria-details", "aria-disabled", "aria-errormessage",
    "aria-expanded", "aria-flowto", "aria-haspopup", "aria-hidden", "aria-invalid",
    "aria-keyshortcuts", "aria-label", "aria-labelledby", "aria-level", "aria-live", "aria-modal",
    "aria-multiline", "aria-multiselectable", "aria-orientation", "aria-owns", "aria-placeholder",
    "aria-posinset", "aria-pressed", "aria-readonly", "aria-relevant", "aria-required",
    "aria-roledescription", "aria-rowcount", "aria-rowindex", "aria-rowspan", "aria-selected",
    "aria-setsize", "aria-sort", "aria-valuemax", "aria-valuemin", "aria-valuenow",
    "aria-valuetext", "as", "async", "autocapitalize", "autocomplete", "autocorrect", "autofocus",
    "autoplay", "blocking", "charset", "checked", "cite", "class", "closedby", "color",
    "colorspace", "cols", "colspan", "columnspan", "command", "commandfor", "content",
    "contenteditable", "controls", "coords", "crossorigin", "data", "datetime", "decoding",
    "default", "defer", "dir", "dirname", "disabled", "display", "displaystyle", "download",
    "draggable", "enctype", "enterkeyhint", "fence", "fetchpriority", "for", "form", "formaction",
    "formenctype", "formmethod", "formnovalidate", "formtarget", "headers", "height", "hidden",
    "high", "href", "hreflang", "http-equiv", "id", "imagesizes", "imagesrcset", "inert",
    "inputmode", "integrity", "is", "ismap", "itemid", "itemprop", "itemref", "itemscope",
    "itemtype", "kind", "label", "lang", "largeop", "linethickness", "list", "loading", "loop",
    "low", "lspace", "mathvariant", "max", "maxlength", "maxsize", "media", "method", "min",
    "minlength", "minsize", "movablelimits", "multiple", "muted", "name", "nomodule", "nonce",
    "novalidate", "open", "optimum", "pattern", "ping", "placeholder", "playsinline", "popover",
    "popovertarget", "popovertargetaction", "poster", "preload", "readonly", "referrerpolicy",
    "rel", "required", "reversed", "role", "rows", "rowspan", "rspace", "sandbox", "scope",
    "scriptlevel", "selected", "separator", "shadowrootclonable", "shadowrootcustomelementregistry",
    "shadowrootdelegatesfocus", "shadowrootmode", "shadowrootserializable", "shape", "size",
    "sizes", "slot", "span", "spellcheck", "src", "srcdoc", "srclang", "srcset", "start", "step",
    "stretchy", "style", "symmetric", "tabindex", "target", "title", "translate", "type", "usemap",
    "value", "width", "wrap", "writingsuggestions",
];

/// The indices in `ATTRS`, each spelled as the constant of its attribute.
#[rattlefmt::skip]
#[allow(non_camel_case_types)]
#[repr(u8)]
pub(crate) enum AttrNumber {
    abbr, accent, accentunder, accept, accept_charset, accesskey, action, allow, allowfullscreen,
    alpha, alt, aria_activedescendant, aria_atomic, aria_autocomplete, aria_busy, aria_checked,
    aria_colcount, aria_colindex, aria_colspan, aria_controls, aria_current, aria_describedby,
    aria_details, aria_disabled, aria_errormessage, aria_expanded, aria_flowto, aria_haspopup,
    aria_hidden, aria_invalid, aria_keyshortcuts, aria_label, aria_labelledby, aria_level,
    aria_live, aria_modal, aria_multiline, aria_multiselectable, aria_orientation, aria_owns,
    aria_placeholder, aria_posinset, aria_pressed, aria_readonly, aria_relevant, aria_required,
    aria_roledescription, aria_rowcount, aria_rowindex, aria_rowspan, aria_selected, aria_setsize,
    aria_sort, aria_valuemax, aria_valuemin, aria_valuenow, aria_valuetext, as_, async_,
    autocapitalize, autocomplete, autocorrect, autofocus, autoplay, blocking, charset, checked,
    cite, class, closedby, color, colorspace, cols, colspan, columnspan, command, commandfor,
    content, contenteditable, controls, coords, crossorigin, data, datetime, decoding, default,
    defer, dir, dirname, disabled, display, displaystyle, download, draggable, enctype,
    enterkeyhint, fence, fetchpriority, for_, form, formaction, formenctype, formmethod,
    formnovalidate, formtarget, headers, height, hidden, high, href, hreflang, http_equiv, id,
    imagesizes, imagesrcset, inert, inputmode, integrity, is, ismap, itemid, itemprop, itemref,
    itemscope, itemtype, kind, label, lang, largeop, linethickness, list, loading, loop_, low,
    lspace, mathvariant, max, maxlength, maxsize, media, method, min, minlength, minsize,
    movablelimits, multiple, muted, name, nomodule, nonce, novalidate, open, optimum, pattern, ping,
    placeholder, playsinline, popover, popovertarget, popovertargetaction, poster, preload,
    readonly, referrerpolicy, rel, required, reversed, role, rows, rowspan, rspace, sandbox, scope,
    scriptlevel, selected, separator, shadowrootclonable, shadowrootcustomelementregistry,
    shadowrootdelegatesfocus, shadowrootmode, shadowrootserializable, shape, size, sizes, slot,
    span, spellcheck, src, srcdoc, srclang, srcset, start, step, stretchy, style, symmetric,
    tabindex, target, title, translate, type_, usemap, value, width, wrap, writingsuggestions,
}

/// The index in `ATTRS` of the first name with each first letter, and the length.
#[rattlefmt::skip]
pub(crate) const ATTR_STARTS: [u8; 27] = [
    AttrNumber::abbr as u8, AttrNumber::blocking as u8, AttrNumber::charset as u8,
    AttrNumber::data as u8, AttrNumber::enctype as u8, AttrNumber::fence as u8,
    AttrNumber::headers as u8, AttrNumber::headers as u8, AttrNumber::id as u8,
    AttrNumber::kind as u8, AttrNumber::kind as u8, AttrNumber::label as u8,
    AttrNumber::mathvariant as u8, AttrNumber::name as u8, AttrNumber::open as u8,
    AttrNumber::pattern as u8, AttrNumber::readonly as u8, AttrNumber::readonly as u8,
    AttrNumber::sandbox as u8, AttrNumber::tabindex as u8, AttrNumber::usemap as u8,
    AttrNumber::value as u8, AttrNumber::width as u8, 206, 206, 206, 206,
];
