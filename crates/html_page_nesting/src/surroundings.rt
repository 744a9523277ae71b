//! What a node's ancestors mean for it.

ghost use Rattle.std.specs.Prelude.{◌≡◌, ◌≤◌, false};
ghost use Rattle.html_page_nesting.specs.NestingRules.{is_too_deep};

use crate::reading::{Place, Reading};

/// The greatest number of ancestors with which browsers leave an element where it is.
const MOST_ANCESTORS: usize = 512;

/// The kinds of the parent, if it is an element of HTML.
#[derive(Clone, Copy)]
pub struct Parent {
    pub head: bool,
    pub heading: bool,
    /// The parent's end tag is implied.
    pub implied: bool,
    pub optgroup: bool,
    pub option: bool,
    pub rtc: bool,
}

/// The elements of HTML that stand around a node with no boundary between.
#[derive(Clone, Copy)]
pub struct Open {
    pub paragraph: bool,
    pub button: bool,
    pub nobr: bool,
    pub ruby: bool,
    pub select: bool,
    /// A `li`.
    pub list_item: bool,
    /// A `dd` or `dt`.
    pub description: bool,
    /// An `a`.
    pub anchor: bool,
    pub form: bool,
    /// A `select`, with no `template` between.
    pub outer_select: bool,
}

/// What a node's ancestors mean for it.
#[derive(Clone, Copy)]
pub struct Surroundings {
    /// The number of ancestors.
    pub depth: usize,
    pub place: Place,
    pub reading: Reading,
    pub parent: Parent,
    pub open_elements: Open,
}

impl Surroundings {
    /// The surroundings of a root.
    pub(crate) const NONE: Surroundings = Surroundings {
        depth: 0,
        place: Place::Page,
        reading: Reading::AsHtml,
        parent: Parent {
            head: false,
            heading: false,
            implied: false,
            optgroup: false,
            option: false,
            rtc: false,
        },
        open_elements: Open {
            paragraph: false,
            button: false,
            nobr: false,
            ruby: false,
            select: false,
            list_item: false,
            description: false,
            anchor: false,
            form: false,
            outer_select: false,
        },
    };

    /// Returns whether browsers put an element elsewhere that has so many ancestors.
    pub(crate) fn is_too_deep(&self) -> bool
        ensures deep { result ≡ is_too_deep self.now }
        ensures within { result ≡ false → self.now.depth ≤ 512 }
    {
        self.depth > MOST_ANCESTORS
    }
}
