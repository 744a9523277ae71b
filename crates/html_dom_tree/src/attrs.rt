//! The attributes of an element, and how they are found, set and merged by name.

ghost use Rattle.std.specs.Prelude.{◌≡◌, ◌↔◌, ◌++◌, ◌∷◌, [], IsTrue, OnOk, OnErr, IfErr, IfOk, map, option_map, is_some};
ghost use Rattle.html_dom_tree.specs.{Attributes.{first, has_name, place, union, with_set}, Views.{text_view, pair_view, attrs_view}};

use crate::text::same_text;
use html_names_core::room::push_compact;
use html_names_core::{HtmlAttr, Refused};
use std::alloc::{AllocError, AllocFailed, Global};
use std::hash::{Hash, Hasher};

/// The attributes of an element, in the order in which they are written. A name may be repeated.
/// Two lists are equal if they have the same names and values in the same order.
///
/// In contracts it is the list of names and values.
#[derive(Debug, Drop)]
pub struct HtmlAttrs(pub Vec<(HtmlAttr, String)>);

impl HtmlAttrs {
    ghost use Rattle.std.specs.{Borrow.{Lends, LendsSo, sem}, Prelude.{OnSome, ◌<◌, vec_len, slice_index_or}};
    ghost use Rattle.html_dom_tree.specs.{Attributes.{with_value}, Lending.{text_row, with_text_at}, contracts.attrs.HtmlAttrs.{the_row}};

    /// Creates an empty list.
    pub fn new(alloc: Global) -> HtmlAttrs
        ensures { attrs_view result ≡ [] }
    {
        HtmlAttrs(Vec::new(alloc))
    }

    /// Appends a pair; an empty list takes room for one. If an allocation fails, the list is
    /// unchanged and the error holds the pair.
    pub fn push(&mut self, attr: HtmlAttr, value: String) -> Result<(), Refused<(HtmlAttr, String)>>
        ensures ok { OnOk result
            (attrs_view self.new ≡ attrs_view self.old ++ (attr, text_view value) ∷ []) }
        ensures kept { OnErr result (attrs_view self.new ≡ attrs_view self.old) }
        ensures back { IfErr result (λ refused. refused.back ≡ (attr, value)) }
    {
        push_compact(&mut self.0, (attr, value))
    }

    /// Prepends a pair. If an allocation fails, the list is unchanged and the error holds the pair.
    pub fn push_front(
        &mut self,
        attr: HtmlAttr,
        value: String,
    ) -> Result<(), Refused<(HtmlAttr, String)>>
        ensures ok { OnOk result
            (attrs_view self.new ≡ (attr, text_view value) ∷ attrs_view self.old) }
        ensures kept { OnErr result (attrs_view self.new ≡ attrs_view self.old) }
        ensures back { IfErr result (λ refused. refused.back ≡ (attr, value)) }
    {
        match self.0.insert(0, (attr, value)) {
            Ok(()) => Ok(()),
            Err(AllocFailed { value }) => Err(Refused { back: value }),
        }
    }

    /// Sets the value of the first pair with that name, or appends a pair if there is none. Leaves
    /// further pairs with that name as they are. If an allocation fails, the list is unchanged and
    /// the error holds the pair; replacing a value does not allocate.
    ///
    /// ```
    /// use html_dom::HtmlAttrs;
    /// use html_names::attr;
    ///
    /// let alloc = rt.alloc();
    /// let mut attrs = HtmlAttrs::new(alloc);
    /// attrs.set(attr::id, String::from_str(alloc, "salt")?)?;
    /// attrs.set(attr::id, String::from_str(alloc, "vinegar")?)?;
    /// assert_eq!(rt; attrs.0.len(), 1);
    /// let id = attrs.get(&attr::id).expect(&rt, "an id");
    /// assert_eq!(rt; id.as_str(), "vinegar");
    /// ```
    pub fn set(&mut self, attr: HtmlAttr, value: String) -> Result<(), Refused<(HtmlAttr, String)>>
        ensures ok { OnOk result
            (attrs_view self.new ≡ with_set (attrs_view self.old) (attr, text_view value)) }
        ensures kept { OnErr result (attrs_view self.new ≡ attrs_view self.old) }
        ensures back { IfErr result (λ refused. refused.back ≡ (attr, value)) }
    {
        match self.get_mut(&attr) {
            Some(held) => {
                *held = value;
                Ok(())
            }
            None => self.push(attr, value),
        }
    }

    /// Returns the value of the first pair with that name, if there is one.
    pub fn get(&self, attr: &HtmlAttr) -> Option<&String>
        ensures { option_map (λ value. text_view value.now) result
            ≡ first (attrs_view self.now) attr.now }
    {
        for pair in &self.0 {
            if pair.0 == *attr {
                return Some(&pair.1);
            }
        }
        None
    }

    /// Returns a mutable reference to the value of the first pair with that name, if there is one.
    /// The pair keeps its name, and the other pairs stay.
    pub fn get_mut(&mut self, attr: &HtmlAttr) -> Option<&mut String>
        ensures* writes_back { sem 𝓛 (LendsSo the_row text_row self.entry result
            (λ attrs value. OnSome result
            (attrs_view attrs ≡ with_value (attrs_view self.old) attr.now (text_view value)))
            (λ attrs. attrs_view attrs ≡ attrs_view self.old)) }
        ensures value { option_map (λ value. text_view value.now) result
            ≡ first (attrs_view self.old) attr.now }
    {
        let place = self.place(attr);
        if place < self.0.len() {
            return Some(self.value_mut(place));
        }
        None
    }

    fn value_mut(&mut self, place: usize) -> &mut String
        requires { place < vec_len self.old.0 }
        ensures* writes_back { sem 𝓛 (Lends the_row text_row self.entry result
            (with_text_at self.old place)) }
        ensures value { result.now ≡ (slice_index_or self.old.0.items place ([], result.now)).1 }
    {
        &mut self.0[place].1
    }

    /// Returns the index of the first pair with that name, or the length if there is none.
    fn place(&self, attr: &HtmlAttr) -> usize
        ensures { result ≡ place (attrs_view self.now) attr.now }
    {
        let mut place = 0;
        for pair in &self.0 {
            if pair.0 == *attr {
                break;
            }
            place += 1;
        }
        place
    }

    fn contains(&self, attr: &HtmlAttr) -> bool
        ensures { result ≡ has_name (attrs_view self.now) attr.now }
    {
        self.get(attr).is_some()
    }

    /// Returns these pairs, then the first pair of each name that only `outer` has. If an allocation
    /// fails, the error holds both lists. Takes time proportional to the product of both lengths.
    pub fn fold(mut self, outer: HtmlAttrs) -> Result<HtmlAttrs, Refused<(HtmlAttrs, HtmlAttrs)>>
        ensures union { IfOk result (λ attrs.
            attrs_view attrs ≡ union (attrs_view self) (attrs_view outer)) }
        ensures back { IfErr result (λ refused. (attrs_view refused.back.0 ≡ attrs_view self)
            × (attrs_view refused.back.1 ≡ attrs_view outer)) }
    {
        if self.0.reserve(outer.0.len()).is_err() {
            return Err(Refused {
                back: (self, outer),
            });
        }
        for (attr, value) in outer.0 {
            if self.contains(&attr) {
                continue;
            }
            if self.0.push((attr, value)).is_err() {
                unreachable!();
            }
        }
        Ok(self)
    }

    /// Returns a copy. Fails only if an allocation fails.
    pub fn try_clone(&self) -> Result<HtmlAttrs, AllocError>
        ensures { IfOk result (λ copy. attrs_view copy ≡ attrs_view self.now) }
    {
        let mut pairs = Vec::new(*self.0.allocator());
        for (attr, value) in &self.0 {
            pairs.push((attr.try_clone()?, value.clone()?))?;
        }
        Ok(HtmlAttrs(pairs))
    }
}

fn same_pair(a: &(HtmlAttr, String), b: &(HtmlAttr, String)) -> bool
    ensures { IsTrue result ↔ (pair_view a.now ≡ pair_view b.now) }
{
    a.0 == b.0 && same_text(&a.1, &b.1)
}

#[tactic(auto, using(html_names_core::proofs::Equals::same_count))]
fn same_pairs(a: &[(HtmlAttr, String)], b: &[(HtmlAttr, String)]) -> bool
    ensures { IsTrue result ↔ (map pair_view a.now ≡ map pair_view b.now) }
{
    if a.len() != b.len() {
        return false;
    }
    for (i, pair) in a.iter().enumerate() {
        if !same_pair(pair, &b[i]) {
            return false;
        }
    }
    true
}

pub(crate) fn same_attrs(a: &HtmlAttrs, b: &HtmlAttrs) -> bool
    ensures { IsTrue result ↔ (attrs_view a.now ≡ attrs_view b.now) }
{
    same_pairs(&a.0, &b.0)
}

impl PartialEq for HtmlAttrs {
    ghost use Rattle.std.specs.Cmp.{partial_equiv_from_equiv};
    ghost use Rattle.html_dom_tree.specs.NodeEqual.{same, same_equiv, pairs_discrete};

    ghost eq = { same attrs_view pairs_discrete };

    ghost laws = { partial_equiv_from_equiv (same_equiv attrs_view pairs_discrete) };

    fn eq(&self, other: &HtmlAttrs) -> bool {
        same_attrs(self, other)
    }
}

impl Eq for HtmlAttrs {
    ghost use Rattle.html_dom_tree.specs.NodeEqual.{same_equiv, pairs_discrete};

    ghost laws = { same_equiv attrs_view pairs_discrete };
}

impl Hash for HtmlAttrs {
    ghost use Rattle.html_dom_tree.specs.Hashes.{pairs_writes, equal_fed};

    ghost hash_input = { λ attrs. pairs_writes (attrs_view attrs) };

    ghost respects_eq = { equal_fed };

    fn hash<H: Hasher>(&self, state: &mut H) {
        self.0.hash(state);
    }
}
