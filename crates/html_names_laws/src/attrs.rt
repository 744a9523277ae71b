//! The law that each constant of an attribute is the name that its identifier spells. Each function
//! states it for a group of constants.
#![tactic(auto, unfolding(html_names_core::specs::Tables::known_attrs))]

ghost use Rattle.std.specs.Prelude.{◌++◌, IsTrue, codes};
ghost use Rattle.html_names_core.specs.Names.{are_spelled, listed_names};

use html_names_core::HtmlAttr;
use html_names_core::attr::mathml::*;
use html_names_core::attr::*;

/// Returns HTML's attributes from `abbr` to `aria-rowindex`, each paired with its identifier.
#[rattlefmt::skip]
pub fn html_1() -> [(&'static str, HtmlAttr); 47]
    ensures { let names =
        listed_names (codes "abbr accept accept-charset accesskey action allow allowfullscreen")
        ++ listed_names (codes "alpha alt aria-activedescendant aria-atomic aria-autocomplete")
        ++ listed_names (codes "aria-busy aria-checked aria-colcount aria-colindex aria-colspan")
        ++ listed_names (codes "aria-controls aria-current aria-describedby aria-details")
        ++ listed_names (codes "aria-disabled aria-errormessage aria-expanded aria-flowto")
        ++ listed_names (codes "aria-haspopup aria-hidden aria-invalid aria-keyshortcuts")
        ++ listed_names (codes "aria-label aria-labelledby aria-level aria-live aria-modal")
        ++ listed_names (codes "aria-multiline aria-multiselectable aria-orientation aria-owns")
        ++ listed_names (codes "aria-placeholder aria-posinset aria-pressed aria-readonly")
        ++ listed_names (codes "aria-relevant aria-required aria-roledescription aria-rowcount")
        ++ listed_names (codes "aria-rowindex")
        in IsTrue (are_spelled result names) }
{
    identified![
        abbr, accept, accept_charset, accesskey, action, allow, allowfullscreen, alpha, alt,
        aria_activedescendant, aria_atomic, aria_autocomplete, aria_busy, aria_checked,
        aria_colcount, aria_colindex, aria_colspan, aria_controls, aria_current, aria_describedby,
        aria_details, aria_disabled, aria_errormessage, aria_expanded, aria_flowto, aria_haspopup,
        aria_hidden, aria_invalid, aria_keyshortcuts, aria_label, aria_labelledby, aria_level,
        aria_live, aria_modal, aria_multiline, aria_multiselectable, aria_orientation, aria_owns,
        aria_placeholder, aria_posinset, aria_pressed, aria_readonly, aria_relevant, aria_required,
        aria_roledescription, aria_rowcount, aria_rowindex,
    ]
}

/// Returns HTML's attributes from `aria-rowspan` to `form`, each paired with its identifier.
#[rattlefmt::skip]
pub fn html_2() -> [(&'static str, HtmlAttr); 47]
    ensures { let names =
        listed_names (codes "aria-rowspan aria-selected aria-setsize aria-sort aria-valuemax")
        ++ listed_names (codes "aria-valuemin aria-valuenow aria-valuetext as async autocapitalize")
        ++ listed_names (codes "autocomplete autocorrect autofocus autoplay blocking charset")
        ++ listed_names (codes "checked cite class closedby color colorspace cols colspan command")
        ++ listed_names (codes "commandfor content contenteditable controls coords crossorigin")
        ++ listed_names (codes "data datetime decoding default defer dir dirname disabled download")
        ++ listed_names (codes "draggable enctype enterkeyhint fetchpriority for form")
        in IsTrue (are_spelled result names) }
{
    identified![
        aria_rowspan, aria_selected, aria_setsize, aria_sort, aria_valuemax, aria_valuemin,
        aria_valuenow, aria_valuetext, as_, async_, autocapitalize, autocomplete, autocorrect,
        autofocus, autoplay, blocking, charset, checked, cite, class, closedby, color, colorspace,
        cols, colspan, command, commandfor, content, contenteditable, controls, coords, crossorigin,
        data, datetime, decoding, default, defer, dir, dirname, disabled, download, draggable,
        enctype, enterkeyhint, fetchpriority, for_, form,
    ]
}

/// Returns HTML's attributes from `formaction` to `pattern`, each paired with its identifier.
#[rattlefmt::skip]
pub fn html_3() -> [(&'static str, HtmlAttr); 47]
    ensures { let names =
        listed_names (codes "formaction formenctype formmethod formnovalidate formtarget")
        ++ listed_names (codes "headers height hidden high href hreflang http-equiv id imagesizes")
        ++ listed_names (codes "imagesrcset inert inputmode integrity is ismap itemid itemprop")
        ++ listed_names (codes "itemref itemscope itemtype kind label lang list loading loop low")
        ++ listed_names (codes "max maxlength media method min minlength multiple muted name")
        ++ listed_names (codes "nomodule nonce novalidate open optimum pattern")
        in IsTrue (are_spelled result names) }
{
    identified![
        formaction, formenctype, formmethod, formnovalidate, formtarget, headers, height, hidden,
        high, href, hreflang, http_equiv, id, imagesizes, imagesrcset, inert, inputmode, integrity,
        is, ismap, itemid, itemprop, itemref, itemscope, itemtype, kind, label, lang, list, loading,
        loop_, low, max, maxlength, media, method, min, minlength, multiple, muted, name, nomodule,
        nonce, novalidate, open, optimum, pattern,
    ]
}

/// Returns HTML's attributes from `ping` to `writingsuggestions`, each paired with its identifier.
#[rattlefmt::skip]
pub fn html_4() -> [(&'static str, HtmlAttr); 47]
    ensures { let names =
        listed_names (codes "ping placeholder playsinline popover popovertarget")
        ++ listed_names (codes "popovertargetaction poster preload readonly referrerpolicy rel")
        ++ listed_names (codes "required reversed role rows rowspan sandbox scope selected")
        ++ listed_names (codes "shadowrootclonable shadowrootcustomelementregistry")
        ++ listed_names (codes "shadowrootdelegatesfocus shadowrootmode shadowrootserializable")
        ++ listed_names (codes "shape size sizes slot span spellcheck src srcdoc srclang srcset")
        ++ listed_names (codes "start step style tabindex target title translate type usemap value")
        ++ listed_names (codes "width wrap writingsuggestions")
        in IsTrue (are_spelled result names) }
{
    identified![
        ping, placeholder, playsinline, popover, popovertarget, popovertargetaction, poster,
        preload, readonly, referrerpolicy, rel, required, reversed, role, rows, rowspan, sandbox,
        scope, selected, shadowrootclonable, shadowrootcustomelementregistry,
        shadowrootdelegatesfocus, shadowrootmode, shadowrootserializable, shape, size, sizes, slot,
        span, spellcheck, src, srcdoc, srclang, srcset, start, step, style, tabindex, target, title,
        translate, type_, usemap, value, width, wrap, writingsuggestions,
    ]
}

/// Returns MathML's attributes, each paired with its identifier.
#[rattlefmt::skip]
pub fn of_mathml() -> [(&'static str, HtmlAttr); 22]
    ensures { let names =
        listed_names (codes "accent accentunder columnspan display displaystyle fence form")
        ++ listed_names (codes "height largeop linethickness lspace mathvariant maxsize minsize")
        ++ listed_names (codes "movablelimits rowspan rspace scriptlevel separator stretchy")
        ++ listed_names (codes "symmetric width")
        in IsTrue (are_spelled result names) }
{
    identified![
        accent, accentunder, columnspan, display, displaystyle, fence, form, height, largeop,
        linethickness, lspace, mathvariant, maxsize, minsize, movablelimits, rowspan, rspace,
        scriptlevel, separator, stretchy, symmetric, width,
    ]
}
