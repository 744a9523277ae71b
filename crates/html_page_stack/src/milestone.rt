//! What some open elements know of those around them, so that no search walks far past them.

ghost use Rattle.std.specs.Prelude.{◌≡◌, ◌<◌, ◌≤◌, ◌^◌, ◌&&◌, ◌||◌, ◌∷◌, List, IfSome, Bool, bit_or, false, if◌then◌else◌, length, not, take, true};
ghost use Rattle.html_page_names.specs.PageNames.{is, of};
ghost use Rattle.html_page_stack.specs.{Contexts.{AreKnown}, ElementViews.{element_of, list_of}};
ghost use Rattle.html_page_stack.specs.Milestones.{Covers, IsOnlyNamed, byte_number, element_bit, milestone, name_number};
ghost use Rattle.html_page_stack.specs.OpenElements.{OpenElement, bounds, has_item, in_scope, is_of, reaches};
ghost use Rattle.html_page_stack.specs.PageViews.{bound_test, goal_test};

use crate::element::PageElement;
use crate::modes::Scope;
use crate::search::{Bound, Goal, Target, bounds, bounds_item};
use html_names_core::HtmlTag;
use html_page_names::{Kind, kinds_of};

/// One element in so many is a milestone.
pub(crate) const SPACING: usize = 64;

/// What a milestone knows of the elements around it.
#[derive(Clone, Copy)]
pub(crate) struct Milestone {
    /// Whether a `select` is in scope.
    has_select: bool,
    /// Whether a `ruby` is in scope.
    has_ruby: bool,
    /// Whether a heading is in scope.
    has_heading: bool,
    /// Whether there is a `li` that its end tag closes.
    has_open_item: bool,
    /// Whether there is a `li` that a new one closes.
    has_list_item: bool,
    /// Whether there is a `dd` or `dt` that a new one closes.
    has_description_part: bool,
    /// The names up to the nearest special element of HTML, each a bit.
    near_names: u64,
    /// The names up to the nearest element that bounds a scope, each a bit.
    scope_names: u64,
    /// The names up to the nearest element that bounds the scope of a table, each a bit.
    table_names: u64,
}

/// Returns the number of a name, by its first and last byte and its length.
fn number(name: &str) -> u64
    ensures value { result ≡ byte_number name.now }
    ensures bound { result < 64 }
{
    let bytes = name.as_bytes();
    let count = bytes.len();
    if count == 0 {
        return 0;
    }
    let first = u64::from(bytes[0]);
    let last = u64::from(bytes[count - 1]);
    (first % 32 + 6 * last + count as u64 % 64) % 64
}

/// Returns the bit of a number.
fn bit(number: u64) -> u64
    requires { number < 64 }
    ensures { result ≡ 2 ^ number }
{
    1 << number
}

/// Returns the bit of a name.
#[tactic(auto, using(crate::proofs::NameNumbers::number_of_bytes))]
fn name_bit(tag: &HtmlTag) -> u64
    ensures { result ≡ 2 ^ name_number tag.now }
{
    bit(number(tag.resolve()))
}

/// Returns the bit of the name of an element, unless it is `html` or `body`.
fn element_bit(element: &PageElement) -> u64
    ensures { result ≡ element_bit (element_of element.now) }
{
    if element.is(Kind::Root) {
        0
    } else {
        name_bit(&element.element.tag)
    }
}

/// Returns whether there is such an element here, or around an element that is no bound.
fn is_found(is_here: bool, is_bound: bool, is_around: bool) -> bool
    ensures { result ≡ (is_here || (not is_bound && is_around)) }
{
    is_here || (!is_bound && is_around)
}

/// Returns the names from an element outwards.
fn with_bit(bit: u64, ends: bool, around: u64) -> u64
    ensures { result ≡ bit_or bit (if ends then 0 else around) }
{
    let outer = if ends { 0 } else { around };
    bit | outer
}

impl Milestone {
    /// What is known outside all elements.
    const OUTSIDE: Milestone = Milestone {
        has_select: false,
        has_ruby: false,
        has_heading: false,
        has_open_item: false,
        has_list_item: false,
        has_description_part: false,
        near_names: 0,
        scope_names: 0,
        table_names: 0,
    };

    /// Returns what is known of an element and of those around it, where this is known of those.
    fn with(self, element: &PageElement) -> Milestone
        ensures { (os : List OpenElement) → self ≡ milestone os →
            result ≡ milestone (element_of element.now ∷ os) }
    {
        let in_scope = bounds(Scope::General, element);
        let in_items = bounds_item(element);
        let bit = element_bit(element);
        let in_list = bounds(Scope::ListItem, element);
        let is_item = element.is(Kind::ListItem);
        let is_part = element.is(Kind::DescriptionPart);
        Milestone {
            has_select: is_found(element.is(Kind::Select), in_scope, self.has_select),
            has_ruby: is_found(element.is(Kind::Ruby), in_scope, self.has_ruby),
            has_heading: is_found(element.is(Kind::Heading), in_scope, self.has_heading),
            has_open_item: is_found(is_item, in_list, self.has_open_item),
            has_list_item: is_found(is_item, in_items, self.has_list_item),
            has_description_part: is_found(is_part, in_items, self.has_description_part),
            near_names: with_bit(bit, element.is(Kind::Special), self.near_names),
            scope_names: with_bit(bit, in_scope, self.scope_names),
            table_names: with_bit(bit, bounds(Scope::Table, element), self.table_names),
        }
    }

    /// Returns whether an element of the kind is in scope, where that is known.
    fn in_scope(self, kind: Kind) -> Option<bool>
        ensures { (os : List OpenElement) → self ≡ milestone os →
            IfSome result (λ is_there. is_there ≡ in_scope Scope.General (of kind) os) }
    {
        match kind {
            Kind::Select => Some(self.has_select),
            Kind::Ruby => Some(self.has_ruby),
            Kind::Heading => Some(self.has_heading),
            _ => None,
        }
    }

    /// Returns whether there is an item of the kind that a new one closes, where that is known.
    fn has_item(self, kind: Kind) -> Option<bool>
        ensures { (os : List OpenElement) → self ≡ milestone os →
            IfSome result (λ is_there. is_there ≡ has_item (of kind) os) }
    {
        match kind {
            Kind::ListItem => Some(self.has_list_item),
            Kind::DescriptionPart => Some(self.has_description_part),
            _ => None,
        }
    }

    /// Returns whether a search reaches an element of HTML of the kind, where that is known.
    fn reaches_kind(self, kind: Kind, bound: Bound) -> Option<bool>
        ensures { (os : List OpenElement) → self ≡ milestone os →
            IfSome result (λ is_there. is_there ≡ reaches (is_of (of kind)) (bound_test bound) os) }
    {
        match bound {
            Bound::Scope(Scope::General) => self.in_scope(kind),
            Bound::Item => self.has_item(kind),
            _ => None,
        }
    }

    /// Returns the names of the elements in scope, and maybe more, where they are known.
    fn names_in(self, scope: Scope) -> Option<u64>
        ensures { (os : List OpenElement) → self ≡ milestone os →
            IfSome result (λ names. Covers (bounds scope) names os) }
    {
        match scope {
            Scope::General | Scope::ListItem => Some(self.scope_names),
            Scope::Table => Some(self.table_names),
            Scope::Button => None,
        }
    }

    /// Returns the names of the elements up to the bound, and maybe more, where they are known.
    fn names_to(self, bound: Bound) -> Option<u64>
        ensures { (os : List OpenElement) → self ≡ milestone os →
            IfSome result (λ names. Covers (bound_test bound) names os) }
    {
        match bound {
            Bound::Special | Bound::Html => Some(self.near_names),
            Bound::Scope(scope) => self.names_in(scope),
            Bound::Item | Bound::Nothing => None,
        }
    }

    /// Returns whether it is known that a search reaches no element with that name, in any
    /// namespace and any case.
    fn lacks(self, tag: &HtmlTag, bound: Bound) -> bool
        ensures { (os : List OpenElement) → (goal : OpenElement → Bool) → self ≡ milestone os →
            IsOnlyNamed goal tag.now → result ≡ true → reaches goal (bound_test bound) os ≡ false }
    {
        if kinds_of(tag.resolve()).has(Kind::Root) {
            return false;
        }
        match self.names_to(bound) {
            None => false,
            Some(names) => names & name_bit(tag) == 0,
        }
    }

    /// Returns `Some(false)` if it is known that a search reaches no element with that name, in any
    /// namespace and any case.
    fn reaches_any(self, tag: &HtmlTag, bound: Bound) -> Option<bool>
        ensures { (os : List OpenElement) → (goal : OpenElement → Bool) → self ≡ milestone os →
            IsOnlyNamed goal tag.now →
            IfSome result (λ is_there. is_there ≡ reaches goal (bound_test bound) os) }
    {
        if self.lacks(tag, bound) {
            Some(false)
        } else {
            None
        }
    }

    /// Returns whether the name is `li`, and it is known that there is none in the scope.
    fn lacks_item(self, tag: &HtmlTag, scope: Scope) -> bool
        ensures { (os : List OpenElement) → self ≡ milestone os → result ≡ true →
            in_scope scope (is tag.now) os ≡ false }
    {
        match scope {
            Scope::ListItem => {
                !self.has_open_item && kinds_of(tag.resolve()).has(Kind::ListItem)
            }
            _ => false,
        }
    }

    /// Returns `Some(false)` if it is known that a search reaches no element of HTML with that name.
    fn reaches_named(self, tag: &HtmlTag, bound: Bound) -> Option<bool>
        ensures { (os : List OpenElement) → self ≡ milestone os →
            IfSome result (λ is_there.
            is_there ≡ reaches (is_of (is tag.now)) (bound_test bound) os) }
    {
        match bound {
            Bound::Scope(scope) if self.lacks_item(tag, scope) => Some(false),
            _ => self.reaches_any(tag, bound),
        }
    }

    /// Returns whether a search reaches the goal, where that is known.
    pub(crate) fn reaches(self, goal: Goal<'_>, bound: Bound) -> Option<bool>
        ensures { (os : List OpenElement) → self ≡ milestone os →
            IfSome result (λ is_there. is_there ≡ reaches (goal_test goal.entry) (bound_test bound) os) }
    {
        match goal {
            Goal::Of(Target::Kind(kind)) => self.reaches_kind(kind, bound),
            Goal::Of(Target::Named(tag)) => self.reaches_named(tag, bound),
            Goal::Of(Target::Nothing) => None,
            Goal::Opened(tag, _) => self.reaches_any(tag, bound),
            Goal::Foreign(tag) => self.reaches_any(tag, bound),
            Goal::HoldsTags => None,
        }
    }
}

/// Returns the index of the milestone before the next, and what it knows, or what is known outside
/// all elements.
fn last_known(elements: &[PageElement]) -> (usize, Milestone)
    requires { AreKnown elements.now }
    ensures bound { result.0 ≤ length elements.now }
    ensures known { result.1 ≡ milestone (list_of (take result.0 elements.now)) }
{
    let count = elements.len();
    if count < SPACING {
        return (0, Milestone::OUTSIDE);
    }
    let place = count - SPACING;
    match elements[place].context.milestone {
        None => (0, Milestone::OUTSIDE),
        Some(milestone) => (place, milestone),
    }
}

/// Returns what is known of elements.
#[inline(never)]
pub(crate) fn known_of(elements: &[PageElement]) -> Milestone
    requires { AreKnown elements.now }
    ensures { result ≡ milestone (list_of elements.now) }
{
    let (start, known) = last_known(elements);
    let mut index = start;
    let mut milestone = known;
    while index < elements.len() {
        milestone = milestone.with(&elements[index]);
        index += 1;
    }
    milestone
}
