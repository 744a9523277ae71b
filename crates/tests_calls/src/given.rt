//! The inputs of the calls for C.

/// A page with a `div` in a `p`, which browsers move, a repeated id, a link to a place by its
/// encoded name, and a link to no place.
pub(crate) const PAGE: &str = concat!(
    "<!DOCTYPE html><html><head></head><body><p id=\"here\">one<div id=\"here\">two</div></p>",
    "<a name=\"named\" href=\"#gone%20by\">three</a><a href=\"#n%61med\">four</a></body></html>",
);

/// A tree of two elements.
pub(crate) const TREE: &str =
    r#"["el","div",[["id","x"]],[["text","one"],["el","p",[],[["text","two"]]]]]"#;

/// Items with a link to a location that no element has.
pub(crate) const ITEMS: &str = concat!(
    r#"[["el","p",[["class","c"]],[["text","Two  eggs"],["space"],["start",1,7],"#,
    r#"["el","a",[],[["text","and salt"]]],["end",1]]],["el","h2",[],[["text","three"]]]]"#,
);

/// A document of such items, with a footnote.
pub(crate) const DOCUMENT: &str = concat!(
    r#"{"title":"Tides","authors":["A. Hill"],"lang":"de","items":[["el","p",[],[["start",1,7],"#,
    r#"["el","a",[["class","c"]],[["text","and salt"]]],["end",1]]]],"#,
    r#""footnotes":[["el","p",[],[["text","four"]]]],"head":[["el","style",[],[["text","p {}"]]]]}"#,
);

/// A document whose items have a root of their own, so that its text shows neither its title nor
/// its language.
pub(crate) const OWN_ROOT: &str =
    r#"{"title":"Tides","lang":"de","items":[["el","html",[],[["text","one"]]]]}"#;

/// The length of the caller's buffer, which is enough for each text.
pub(crate) const ROOM: usize = 2048;
