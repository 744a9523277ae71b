//! The law that each constant of a tag is the name that its identifier spells. Each function states
//! it for a group of constants.
#![tactic(auto, unfolding(html_names_core::specs::Tables::known_tags))]

ghost use Rattle.std.specs.Prelude.{◌++◌, IsTrue, codes};
ghost use Rattle.html_names_core.specs.Names.{are_spelled, listed_names};

use html_names_core::HtmlTag;
use html_names_core::tag::mathml::*;
use html_names_core::tag::*;

/// Returns HTML's tags from `a` to `label`, each paired with its identifier.
#[rattlefmt::skip]
pub fn html_1() -> [(&'static str, HtmlTag); 56]
    ensures { let names =
        listed_names (codes "a abbr address area article aside audio b base bdi bdo blockquote")
        ++ listed_names (codes "body br button canvas caption cite code col colgroup data datalist")
        ++ listed_names (codes "dd del details dfn dialog div dl dt em embed fieldset figcaption")
        ++ listed_names (codes "figure footer form h1 h2 h3 h4 h5 h6 head header hgroup hr html i")
        ++ listed_names (codes "iframe img input ins kbd label")
        in IsTrue (are_spelled result names) }
{
    identified![
        a, abbr, address, area, article, aside, audio, b, base, bdi, bdo, blockquote, body, br,
        button, canvas, caption, cite, code, col, colgroup, data, datalist, dd, del, details, dfn,
        dialog, div, dl, dt, em, embed, fieldset, figcaption, figure, footer, form, h1, h2, h3, h4,
        h5, h6, head, header, hgroup, hr, html, i, iframe, img, input, ins, kbd, label,
    ]
}

/// Returns HTML's tags from `legend` to `wbr`, each paired with its identifier.
#[rattlefmt::skip]
pub fn html_2() -> [(&'static str, HtmlTag); 56]
    ensures { let names =
        listed_names (codes "legend li link main map mark menu meta meter nav noscript object")
        ++ listed_names (codes "ol optgroup option output p picture pre progress q rp rt ruby s")
        ++ listed_names (codes "samp script search section select slot small source span strong")
        ++ listed_names (codes "style sub summary sup table tbody td template textarea tfoot th")
        ++ listed_names (codes "thead time title tr track u ul var video wbr")
        in IsTrue (are_spelled result names) }
{
    identified![
        legend, li, link, main, map, mark, menu, meta, meter, nav, noscript, object, ol, optgroup,
        option, output, p, picture, pre, progress, q, rp, rt, ruby, s, samp, script, search,
        section, select, slot, small, source, span, strong, style, sub, summary, sup, table, tbody,
        td, template, textarea, tfoot, th, thead, time, title, tr, track, u, ul, var, video, wbr,
    ]
}

/// Returns MathML's tags, each paired with its identifier.
#[rattlefmt::skip]
pub fn of_mathml() -> [(&'static str, HtmlTag); 30]
    ensures { let names =
        listed_names (codes "annotation annotation-xml maction math merror mfrac mi")
        ++ listed_names (codes "mmultiscripts mn mo mover mpadded mphantom mprescripts mroot mrow")
        ++ listed_names (codes "ms mspace msqrt mstyle msub msubsup msup mtable mtd mtext mtr")
        ++ listed_names (codes "munder munderover semantics")
        in IsTrue (are_spelled result names) }
{
    identified![
        annotation, annotation_xml, maction, math, merror, mfrac, mi, mmultiscripts, mn, mo, mover,
        mpadded, mphantom, mprescripts, mroot, mrow, ms, mspace, msqrt, mstyle, msub, msubsup, msup,
        mtable, mtd, mtext, mtr, munder, munderover, semantics,
    ]
}
