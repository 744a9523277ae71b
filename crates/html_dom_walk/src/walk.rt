//! The walk over a tree, and what it comes to.

ghost use Rattle.std.specs.Prelude.{◌≡◌, ◌≤◌, ◌∷◌, [], true, false, IfNone, IfOk, IfSome, OnOk, OnErr, drop, length, min};
ghost use Rattle.html_dom_tree.specs.Views.{nodes_view};
ghost use Rattle.html_dom_walk.specs.Events.{ends, events_of, from_end};
ghost use Rattle.html_dom_walk.specs.Walks.{above_view, back, Comes, events_left, next_in, parent_in, path_of, visits_left};

use html_dom_tree::{HtmlElement, HtmlFrame, HtmlNode, Span, Tag};
use std::alloc::{AllocError, Global};

/// What a walk comes to.
#[derive(Clone, Copy)]
pub enum Visit<'a> {
    /// The start or end of a located element.
    Tag(&'a Tag),
    /// A text and its place in the source.
    Text(&'a String, Span),
    /// A frame.
    Frame(&'a HtmlFrame),
    /// The start of an element.
    Enter(&'a HtmlElement),
    /// The end of the innermost element that was entered.
    Leave,
}

/// The path of the node that was visited last, and whether that is one of the siblings that are
/// visited now, or else their parent.
#[derive(Drop)]
struct Place {
    path: Vec<usize>,
    begun: bool,
}

impl Place {
    /// Returns the index of the sibling that comes next. The greatest index is that of no node, so
    /// nothing comes after it.
    fn next(&self) -> usize
        ensures { result ≡ min (next_in self.now.begun (back self.now)) usize.MAX }
    {
        match self.path.last() {
            Some(last) if self.begun => last.saturating_add(1),
            _ => 0,
        }
    }

    /// Goes to the sibling with that index.
    fn go_to(&mut self, index: usize) -> Result<(), AllocError>
        ensures begun { OnOk result (self.new.begun ≡ true) }
        ensures path { OnOk result
            (back self.new ≡ index ∷ parent_in self.old.begun (back self.old)) }
        ensures stays { OnErr result (self.new.begun ≡ self.old.begun) }
        ensures kept { OnErr result (self.new.path.items ≡ self.old.path.items) }
    {
        if self.begun && !self.path.is_empty() {
            let last = self.path.len() - 1;
            self.path[last] = index;
            return Ok(());
        }
        self.path.push(index)?;
        self.begun = true;
        Ok(())
    }

    /// Goes to the parent of the siblings.
    fn leave(&mut self)
        ensures begun { self.new.begun ≡ true }
        ensures path { back self.new ≡ parent_in self.old.begun (back self.old) }
    {
        if self.begun {
            let _ = self.path.pop();
        }
        self.begun = true;
    }
}

/// The siblings of each open element, the innermost last.
#[derive(Drop)]
struct Above<'a> {
    items: Vec<&'a [HtmlNode]>,
}

impl<'a> Above<'a> {
    fn push(&mut self, siblings: &'a [HtmlNode]) -> Result<(), AllocError>
        ensures pushed { OnOk result
            (above_view self.new ≡ siblings.now ∷ above_view self.old) }
        ensures kept { OnErr result (above_view self.new ≡ above_view self.old) }
    {
        self.items.push(siblings)?;
        Ok(())
    }

    fn pop(&mut self) -> Option<&'a [HtmlNode]>
        ensures some { IfSome result (λ siblings.
            above_view self.old ≡ siblings.now ∷ above_view self.new) }
        ensures none { IfNone result ((above_view self.old ≡ []) × (above_view self.new ≡ [])) }
    {
        self.items.pop()
    }

    fn len(&self) -> usize
        ensures { result ≡ length (above_view self.now) }
    {
        self.items.len()
    }
}

/// A walk over nodes and everything below them, in document order, as a loop. It takes no stack of
/// the program, however deep the tree is, and memory only for its path.
///
/// ```
/// use typst_html::{HtmlElement, HtmlNode, Visit, Walk, tag};
///
/// let alloc = rt.alloc();
/// let item = HtmlElement::new(alloc, tag::li).with_text(alloc, "Salt")?;
/// let list = HtmlElement::new(alloc, tag::ul).with_child(HtmlNode::from(item))?;
/// let nodes = vec![in alloc; HtmlNode::from(list)]?;
/// let mut walk = Walk::over(alloc, &nodes);
/// assert!(rt; matches!(walk.next()?, Some(Visit::Enter(_))));
/// assert!(rt; matches!(walk.next()?, Some(Visit::Enter(_))));
/// assert!(rt; matches!(walk.next()?, Some(Visit::Text(_, _))));
/// assert!(rt; walk.path() == [0, 0, 0].as_slice());
/// assert_eq!(rt; walk.depth(), 2);
/// assert!(rt; matches!(walk.next()?, Some(Visit::Leave)));
/// assert!(rt; matches!(walk.next()?, Some(Visit::Leave)));
/// assert!(rt; walk.next()?.is_none());
/// ```
///
/// The measure of a loop is what is left: for a loop `while let Some(visit) = walk.next()?` of a
/// function `f`, its `Invariants.antt` has
///
/// ```text
/// use Rattle.html_dom_walk.specs.Walks.{visits_left}
///
/// abbrev pub decreases-loop-walk : goal.decreases-loop-walk
/// decreases-loop-walk l = visits_left l.walk
/// ```
///
/// and what it gathers is led back to a recursion over the tree by the [laws](crate::laws).
#[derive(Drop)]
pub struct Walk<'a> {
    siblings: &'a [HtmlNode],
    above: Above<'a>,
    place: Place,
}

impl<'a> Walk<'a> {
    /// Starts a walk over these nodes.
    pub fn over(alloc: Global, nodes: &'a [HtmlNode]) -> Walk<'a>
        ensures events { events_left result ≡ events_of [] 0 (nodes_view nodes.now) [] }
        ensures path { path_of result ≡ [] }
    {
        Walk {
            siblings: nodes,
            above: Above {
                items: Vec::new(alloc),
            },
            place: Place {
                path: Vec::new(alloc),
                begun: false,
            },
        }
    }

    /// Returns what comes next, or `None` at the end. Fails only if an allocation fails, and then
    /// stays where it is.
    pub fn next(&mut self) -> Result<Option<Visit<'a>>, AllocError>
        ensures comes { IfOk result (λ visit.
            Comes (events_left self.old) visit (path_of self.new) (events_left self.new)) }
        ensures stays { OnErr result (events_left self.new ≡ events_left self.old) }
        ensures path { OnErr result (path_of self.new ≡ path_of self.old) }
    {
        let index = self.place.next();
        let Some(node) = self.siblings.get(index) else {
            return Ok(self.leave());
        };
        match node {
            HtmlNode::Tag(tag) => {
                self.place.go_to(index)?;
                Ok(Some(Visit::Tag(tag)))
            }
            HtmlNode::Text(text, span) => {
                self.place.go_to(index)?;
                Ok(Some(Visit::Text(text, *span)))
            }
            HtmlNode::Frame(frame) => {
                self.place.go_to(index)?;
                Ok(Some(Visit::Frame(frame)))
            }
            HtmlNode::Element(element) => {
                self.enter(element, index)?;
                Ok(Some(Visit::Enter(element)))
            }
        }
    }

    /// Goes to the element with that index, and to what is below it.
    fn enter(&mut self, element: &'a HtmlElement, index: usize) -> Result<(), AllocError>
        ensures siblings { OnOk result (self.new.siblings.now ≡ element.now.children.items) }
        ensures begun { OnOk result (self.new.place.begun ≡ false) }
        ensures path { OnOk result (back self.new.place
            ≡ index ∷ parent_in self.old.place.begun (back self.old.place)) }
        ensures above { OnOk result
            (above_view self.new.above ≡ self.old.siblings.now ∷ above_view self.old.above) }
        ensures stays { OnErr result (events_left self.new ≡ events_left self.old) }
        ensures kept { OnErr result (path_of self.new ≡ path_of self.old) }
    {
        self.above.push(self.siblings)?;
        if let Err(AllocError) = self.place.go_to(index) {
            let _ = self.above.pop();
            return Err(AllocError);
        }
        self.siblings = &element.children;
        self.place.begun = false;
        Ok(())
    }

    fn leave(&mut self) -> Option<Visit<'a>>
        requires { let p = self.old.place in
            drop (next_in p.begun (back p)) self.old.siblings.now ≡ [] }
        ensures { Comes (events_left self.old) result (path_of self.new) (events_left self.new) }
    {
        match self.above.pop() {
            Some(siblings) => {
                self.siblings = siblings;
                self.place.leave();
                Some(Visit::Leave)
            }
            None => None,
        }
    }

    /// Leaves out the rest of what is below the innermost element that is entered and not left:
    /// all that is below it, right after it is entered. If there is no such element, leaves out all
    /// that is left.
    pub fn skip(&mut self)
        ensures left { events_left self.new ≡ from_end 0 (events_left self.old) }
        ensures path { path_of self.new ≡ path_of self.old }
        ensures fewer { visits_left self.new ≤ visits_left self.old }
    {
        self.siblings = &[];
    }

    /// Returns the path of the node that was visited last: the index of each child on the way to it
    /// from the nodes that are walked. It is empty at the start.
    pub fn path(&self) -> &[usize]
        ensures { result.now ≡ path_of self.now }
    {
        &self.place.path
    }

    /// Returns how many elements are entered and not left.
    pub fn depth(&self) -> usize
        ensures { result ≡ ends (events_left self.now) }
    {
        self.above.len()
    }
}
