//! The nodes: every place that was added since the last sweep, in order of adding.
//!
//! A node leads to an older one of its block, so that this is found once it is dropped; and to the one before it in its
//! section, so that a section is dropped without a search.
ghost use Rattle.std.specs.Prelude.{◌≡◌, ◌≤◌, ℕ, length};
ghost use Rattle.journal_overlay.specs.Nodes.{behind, AreLinked, IsBack, IsHere, kept_of};

use crate::place::Added;

/// A place that was added.
#[derive(Clone, Copy)]
pub(crate) struct Node {
    pub(crate) added: Added,
    /// Its section was not dropped since.
    pub(crate) is_kept: bool,
    /// A node of the same block before this one, kept or not. None between them is kept.
    pub(crate) older: Option<u32>,
    /// The kept node of the same section before this one.
    pub(crate) fellow: Option<u32>,
}

/// The newest kept node of a block, from a node of it on backwards.
pub(crate) fn newest_kept(nodes: &[Node], from: Option<u32>) -> Option<u32>
    requires linked { AreLinked nodes.now }
    requires there { behind from ≤ length nodes.now }

    ensures { (block k : ℕ) → IsBack block from k nodes.now
        → IsBack block result k nodes.now × IsHere (kept_of block) result nodes.now }
{
    let mut at = from;
    while let Some(k) = at {
        if nodes[k as usize].is_kept {
            break;
        }
        at = nodes[k as usize].older;
    }
    at
}
