//! Lists of nodes that move elsewhere, or are freed, one after the other.

ghost use Rattle.std.specs.Prelude.{◌≡◌, reverse};

use crate::node::HtmlNode;

/// The number of removed nodes after which the room of a list is reduced. A shorter list keeps its
/// room until all its nodes are moved.
pub const STEP: usize = 4096;

/// Reverses nodes, so that `pop` takes the first. Its locals, two nodes, stay out of the frame of a
/// recursive walk, of which each level has one.
#[inline(never)]
pub fn reverse_nodes(nodes: &mut Vec<HtmlNode>)
    ensures { nodes.new.items ≡ reverse nodes.old.items }
{
    nodes.reverse();
}

/// Frees the memory that a list does not need, if its length is a multiple of 4,096. If this is
/// called after each `pop`, a list has room for fewer than 4,096 removed nodes, so that nodes that
/// move to another list do not take memory twice.
#[inline(always)]
pub fn give_back(nodes: &mut Vec<HtmlNode>)
    ensures { nodes.new.items ≡ nodes.old.items }
{
    if nodes.len() % STEP == 0 {
        shrink(nodes);
    }
}

#[inline(never)]
fn shrink(nodes: &mut Vec<HtmlNode>)
    ensures { nodes.new.items ≡ nodes.old.items }
{
    nodes.shrink_to_fit();
}
