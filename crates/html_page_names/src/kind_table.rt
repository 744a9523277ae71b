//! The names that have a kind, in ascending order, and the kinds of each.

use crate::kind::Kind;

/// Passes to the macro `$column` a row for each name that has a kind: the name and its kinds.
macro_rules! name_rows {
    ($column:ident) => {
        $column! {
            "a": A | Formatting,
            "address": ClosesInScope | ClosesP | Unformatted | Special | PassedByItems,
            "annotation-xml": AnnotationXml,
            "applet": Marker | ClosesInScope | Special | BoundsScope | BarsFrameset,
            "area": Leaf | Special | BarsFrameset,
            "article": ClosesInScope | ClosesP | Unformatted | Special,
            "aside": ClosesInScope | ClosesP | Unformatted | Special,
            "b": Formatting | Breakout,
            "base": HeadLeaf | HeadContent | Special,
            "basefont": HeadLeaf | HeadContent | NoscriptContent | Special,
            "bgsound": HeadLeaf | HeadContent | NoscriptContent | Special,
            "big": Formatting | Breakout,
            "blockquote": ClosesInScope | ClosesP | Unformatted | Special | Breakout,
            "body": Body | Root | Special | Breakout | BarsFrameset,
            "br": Br | Leaf | Special | Breakout | BarsFrameset,
            "button": Button | ClosesInScope | Special | BarsFrameset,
            "caption": Caption | Marker | TablePart | Misplaced | Special | BoundsScope,
            "center": ClosesInScope | ClosesP | Unformatted | Special | Breakout,
            "code": Formatting | Breakout,
            "col": Col | TablePart | Misplaced | Special,
            "colgroup": Colgroup | TablePart | Misplaced | Special,
            "dd": DescriptionPart | ClosesP | Unformatted | Implied | Special | Breakout | BarsFrameset,
            "desc": SvgHtml,
            "details": ClosesInScope | ClosesP | Unformatted | Special,
            "dialog": ClosesInScope | ClosesP | Unformatted,
            "dir": ClosesInScope | ClosesP | Unformatted | Special,
            "div": ClosesInScope | ClosesP | Unformatted | Special | PassedByItems | Breakout,
            "dl": ClosesInScope | ClosesP | Unformatted | Special | Breakout,
            "dt": DescriptionPart | ClosesP | Unformatted | Implied | Special | Breakout | BarsFrameset,
            "em": Formatting | Breakout,
            "embed": Leaf | Special | Breakout | BarsFrameset,
            "fieldset": ClosesInScope | ClosesP | Unformatted | Special,
            "figcaption": ClosesInScope | ClosesP | Unformatted | Special,
            "figure": ClosesInScope | ClosesP | Unformatted | Special,
            "font": Font | Formatting,
            "footer": ClosesInScope | ClosesP | Unformatted | Special,
            "foreignObject": SvgHtml,
            "form": Form | ClosesP | Unformatted | Special,
            "frame": Misplaced | Special,
            "frameset": Frameset | Special,
            "h1": Heading | ClosesP | Unformatted | Special | Breakout,
            "h2": Heading | ClosesP | Unformatted | Special | Breakout,
            "h3": Heading | ClosesP | Unformatted | Special | Breakout,
            "h4": Heading | ClosesP | Unformatted | Special | Breakout,
            "h5": Heading | ClosesP | Unformatted | Special | Breakout,
            "h6": Heading | ClosesP | Unformatted | Special | Breakout,
            "head": Head | Misplaced | Special | Breakout,
            "header": ClosesInScope | ClosesP | Unformatted | Special,
            "hgroup": ClosesInScope | ClosesP | Unformatted | Special,
            "hr": Hr | Leaf | ClosesP | Unformatted | Special | Breakout | BarsFrameset,
            "html": Html | Root | Special | BoundsScope,
            "i": Formatting | Breakout,
            "iframe": Raw | Unformatted | Special | BarsFrameset,
            "image": Image | BarsFrameset,
            "img": Leaf | Special | Breakout | BarsFrameset,
            "input": Input | Leaf | Special | BarsFrameset,
            "keygen": Leaf | Special | BarsFrameset,
            "li": ListItem | ClosesP | Unformatted | Implied | Special | Breakout | BarsFrameset,
            "link": HeadLeaf | HeadContent | NoscriptContent | Special,
            "listing": ClosesInScope | ClosesP | Unformatted | Special | DropsFeed | Breakout | BarsFrameset,
            "main": ClosesInScope | ClosesP | Unformatted | Special,
            "malignmark": Glyph,
            "marquee": Marker | ClosesInScope | Special | BoundsScope | BarsFrameset,
            "math": Math,
            "menu": ClosesInScope | ClosesP | Unformatted | Special | Breakout,
            "meta": HeadLeaf | HeadContent | NoscriptContent | Special | Breakout,
            "mglyph": Glyph,
            "mi": MathText,
            "mn": MathText,
            "mo": MathText,
            "ms": MathText,
            "mtext": MathText,
            "nav": ClosesInScope | ClosesP | Unformatted | Special,
            "nobr": Nobr | Formatting | Breakout,
            "noembed": Raw | Unformatted | Special,
            "noframes": Raw | HeadContent | NoscriptContent | Special,
            "noscript": Noscript | Special,
            "object": Marker | ClosesInScope | Special | BoundsScope | BarsFrameset,
            "ol": ClosesInScope | ClosesP | Unformatted | Special | BoundsList | Breakout,
            "optgroup": Optgroup | Implied,
            "option": Option | Implied,
            "p": P | ClosesP | Unformatted | Implied | Special | PassedByItems | Breakout,
            "param": Leaf | Unformatted | Special,
            "plaintext": Plaintext | ClosesP | Unformatted | Special,
            "pre": ClosesInScope | ClosesP | Unformatted | Special | DropsFeed | Breakout | BarsFrameset,
            "rb": Unformatted | Implied | RubyPart,
            "rp": Unformatted | Implied | RubyPart | RubyText,
            "rt": Unformatted | Implied | RubyPart | RubyText,
            "rtc": Rtc | Unformatted | Implied | RubyPart,
            "ruby": Ruby | Breakout,
            "s": Formatting | Breakout,
            "script": Script | Raw | ScriptOrStyle | HeadContent | Special,
            "search": ClosesInScope | ClosesP | Unformatted | Special,
            "section": ClosesInScope | ClosesP | Unformatted | Special,
            "select": Select | ClosesInScope | Special | BoundsScope | BarsFrameset,
            "small": Formatting | Breakout,
            "source": Leaf | Unformatted | Special,
            "span": Breakout,
            "strike": Formatting | Breakout,
            "strong": Formatting | Breakout,
            "style": Raw | ScriptOrStyle | HeadContent | NoscriptContent | Special,
            "sub": Breakout,
            "summary": ClosesInScope | ClosesP | Unformatted | Special,
            "sup": Breakout,
            "svg": Svg,
            "table": Table | Unformatted | Special | BoundsScope | Breakout | BarsFrameset,
            "tbody": Section | TablePart | Misplaced | Special,
            "td": Cell | Marker | TablePart | Misplaced | Special | BoundsScope,
            "template": Template | HeadContent | Marker | Special | BoundsScope,
            "textarea": EscapableRaw | Raw | Unformatted | Special | DropsFeed | BarsFrameset,
            "tfoot": Section | TablePart | Misplaced | Special,
            "th": Cell | Marker | TablePart | Misplaced | Special | BoundsScope,
            "thead": Section | TablePart | Misplaced | Special,
            "title": EscapableRaw | Raw | HeadContent | Special | SvgHtml,
            "tr": Tr | TablePart | Misplaced | Special,
            "track": Leaf | Unformatted | Special,
            "tt": Formatting | Breakout,
            "u": Formatting | Breakout,
            "ul": ClosesInScope | ClosesP | Unformatted | Special | BoundsList | Breakout,
            "var": Breakout,
            "wbr": Leaf | Special | BarsFrameset,
            "xmp": Raw | ClosesP | Special | BarsFrameset,
        }
    };
}

macro_rules! name_column {
    ($($name:literal: $($kind:ident)|+,)*) => { [$($name),*] };
}

macro_rules! bits_column {
    ($($name:literal: $($kind:ident)|+,)*) => { [$($(1 << Kind::$kind as u64)|+),*] };
}

pub(crate) const NAMES: [&str; 122] = name_rows!(name_column);

/// The kinds of each name, each kind a bit.
pub(crate) static KIND_BITS: [u64; 122] = name_rows!(bits_column);

/// The indices in `NAMES`.
#[rattlefmt::skip]
#[allow(non_camel_case_types)]
enum NameNumber {
    a, address, annotation_xml, applet, area, article, aside, b, base, basefont, bgsound, big,
    blockquote, body, br, button, caption, center, code, col, colgroup, dd, desc, details, dialog,
    dir, div, dl, dt, em, embed, fieldset, figcaption, figure, font, footer, foreignObject, form,
    frame, frameset, h1, h2, h3, h4, h5, h6, head, header, hgroup, hr, html, i, iframe, image, img,
    input, keygen, li, link, listing, main, malignmark, marquee, math, menu, meta, mglyph, mi, mn,
    mo, ms, mtext, nav, nobr, noembed, noframes, noscript, object, ol, optgroup, option, p, param,
    plaintext, pre, rb, rp, rt, rtc, ruby, s, script, search, section, select, small, source, span,
    strike, strong, style, sub, summary, sup, svg, table, tbody, td, template, textarea, tfoot, th,
    thead, title, tr, track, tt, u, ul, var, wbr, xmp,
}

/// The index in `NAMES` of the first name with each first letter, and the length.
#[rattlefmt::skip]
pub(crate) const STARTS: [u8; 27] = [
    NameNumber::a as u8, NameNumber::b as u8, NameNumber::caption as u8, NameNumber::dd as u8,
    NameNumber::em as u8, NameNumber::fieldset as u8, NameNumber::h1 as u8, NameNumber::h1 as u8,
    NameNumber::i as u8, NameNumber::keygen as u8, NameNumber::keygen as u8, NameNumber::li as u8,
    NameNumber::main as u8, NameNumber::nav as u8, NameNumber::object as u8, NameNumber::p as u8,
    NameNumber::rb as u8, NameNumber::rb as u8, NameNumber::s as u8, NameNumber::table as u8,
    NameNumber::u as u8, NameNumber::var as u8, NameNumber::wbr as u8, NameNumber::xmp as u8, 122,
    122, 122,
];
