//! What is recorded of a tree: its start tags, and the links in its frames.

ghost use Rattle.std.specs.Prelude.{◌≡◌, [], IfOk, OnOk, option_map};
ghost use Rattle.html_dom_tree.specs.{FrameViews.{point_view, tag_view, frame_view, frame_item_view}, Views.{nodes_view}};
ghost use Rattle.html_dom_walk.specs.Walks.{event_of};
ghost use Rattle.html_dom_document.specs.DomWalks.{event_links, event_places, path_view, siblings_past, siblings_view};
ghost use Rattle.html_dom_document.specs.Places.{document_places, frame_links, frame_places, item_links, item_places, link_targets, nodes_links, tag_places};
ghost use Rattle.html_dom_document.specs.Records.{Records, location_view, locations_view, places_view};

use crate::placed_tag::PlacedTag;
use crate::position::HtmlPosition;
use crate::siblings::{NodePath, Siblings};
use html_dom_tree::{Frame, FrameItem, HtmlNode, Location, Point, Tag};
use html_dom_walk::{Visit, Walk};
use std::alloc::{AllocError, Global};

/// The start tags and links of frames found so far, in document order.
#[derive(Drop)]
pub(crate) struct Recorder {
    pub(crate) places: Vec<PlacedTag>,
    pub(crate) links: Vec<Location>,
}

impl Recorder {
    fn add_tag(
        &mut self,
        tag: &Tag,
        at: NodePath<'_>,
        point: Option<Point>,
    ) -> Result<(), AllocError>
        ensures { Records result self.old self.new (tag_places (tag_view tag.now) (record {
          path = path_view at.entry;
          point = option_map point_view point;
        })) [] }
    {
        let Tag::Start { location, dest, .. } = tag else {
            return Ok(());
        };
        let path = at.to_vec()?;
        self.places.push(PlacedTag {
            location: *location,
            dest: *dest,
            position: HtmlPosition { path, point },
        })?;
        Ok(())
    }

    fn add_link(&mut self, link: Option<Location>) -> Result<(), AllocError>
        ensures { Records result self.old self.new []
            (link_targets (option_map location_view link)) }
    {
        if let Some(dest) = link {
            self.links.push(dest)?;
        }
        Ok(())
    }

    #[cycle(add_frame)]
    #[tactic(auto, unfolding(crate::specs::Places::item_places, crate::specs::Places::item_links))]
    fn add_frame(&mut self, frame: &Frame, at: NodePath<'_>) -> Result<(), AllocError>
        ensures { Records result self.old self.new
            (frame_places (path_view at.entry) (frame_view frame.now))
            (frame_links (frame_view frame.now)) }
    {
        for (point, item) in &frame.items {
            self.add_item(*point, item, at)?;
        }
        Ok(())
    }

    #[cycle(add_frame)]
    #[tactic(auto, unfolding(crate::specs::Places::item_places, crate::specs::Places::item_links))]
    fn add_item(
        &mut self,
        point: Point,
        item: &FrameItem,
        at: NodePath<'_>,
    ) -> Result<(), AllocError>
        ensures { Records result self.old self.new (item_places
            (path_view at.entry) (point_view point) (frame_item_view item.now))
            (item_links (frame_item_view item.now)) }
    {
        match item {
            FrameItem::Tag(tag) => self.add_tag(tag, at, Some(point)),
            FrameItem::Group(frame) => self.add_frame(frame, at),
            FrameItem::Link(link) => self.add_link(*link),
            FrameItem::Other => Ok(()),
        }
    }

    /// Records what the walk comes to, and goes past it.
    fn add_visited<'a>(
        &mut self,
        visit: Visit<'a>,
        siblings: &mut Siblings<'a>,
    ) -> Result<(), AllocError>
        ensures recorded { Records result self.old self.new
            (event_places (siblings_view siblings.old) (event_of visit.entry))
            (event_links (event_of visit.entry)) }
        ensures passed { OnOk result (siblings_view siblings.new
            ≡ siblings_past (siblings_view siblings.old) (event_of visit.entry)) }
    {
        match visit {
            Visit::Enter(element) => return siblings.enter(element),
            Visit::Leave => siblings.leave(),
            Visit::Tag(tag) => {
                let index = siblings.pass();
                self.add_tag(tag, siblings.path(index), None)?;
            }
            Visit::Frame(frame) => {
                let index = siblings.pass();
                self.add_frame(&frame.inner, siblings.path(index))?;
            }
            Visit::Text(_, _) => {
                let _ = siblings.pass();
            }
        }
        Ok(())
    }

    /// Records the nodes of a document.
    pub(crate) fn of(alloc: Global, nodes: &[HtmlNode]) -> Result<Recorder, AllocError>
        ensures places { IfOk result (λ recorder. places_view recorder.places.items
            ≡ document_places (nodes_view nodes.now)) }
        ensures links { IfOk result (λ recorder. locations_view recorder.links.items
            ≡ nodes_links (nodes_view nodes.now)) }
    {
        let mut recorder = Recorder {
            places: Vec::new(alloc),
            links: Vec::new(alloc),
        };
        let mut siblings = Siblings::of(alloc, nodes);
        let mut walk = Walk::over(alloc, nodes);
        while let Some(visit) = walk.next()? {
            recorder.add_visited(visit, &mut siblings)?;
        }
        Ok(recorder)
    }
}
