//! Every place that was added since the last sweep, and the tables that tell the newest of each block and section.
ghost use Rattle.std.specs.Prelude.{◌≡◌, ◌+◌, ◌^◌, ◌<◌, ◌≤◌, ◌++◌, ◌∷◌, [], length, filter, not, set, true, Some, None, IsSome, IfOk, vec_capacity};
ghost use Rattle.journal_overlay.specs.Slots.{last_at};
ghost use Rattle.journal_overlay.specs.Index.{IsWhole, IsWholeBut, OthersStay, section_at};
ghost use Rattle.journal_overlay.specs.Kept.{is_in, newest_of};
ghost use Rattle.journal_overlay.specs.Nodes.{behind, dropped, kept_places, last_of, node_at};

use crate::node::{Node, newest_kept};
use crate::place::Added;
use crate::table::{Last, Table};
use image_model::EntryPlace;
use std::alloc::{AllocError, Global};

/// The places in order of adding, dropped ones among them, with the last kept node of each block and section.
#[derive(Drop)]
pub(crate) struct PlaceLog {
    pub(crate) nodes: Vec<Node>,
    pub(crate) blocks: Table,
    pub(crate) sections: Table,
    /// How many nodes there may be.
    pub(crate) room: usize,
    /// How many are kept.
    pub(crate) kept: usize,
}

impl PlaceLog {
    /// A log that may have this many nodes, with tables of more homes than there may be keys.
    pub(crate) fn with_room(alloc: Global, room: usize) -> Result<PlaceLog, AllocError>
        requires { room < 2 ^ 32 }

        ensures whole { IfOk result (λ log. IsWhole log) }
        ensures nodes { IfOk result (λ log. log.nodes.items ≡ []) }
        ensures room { IfOk result (λ log. log.room ≡ room) }
    {
        let nodes = Vec::with_capacity(alloc, room)?;
        let blocks = Table::new(alloc, room + room / 3 + 1, room)?;
        let sections = Table::new(alloc, room + room / 3 + 1, room)?;
        Ok(PlaceLog {
            nodes,
            blocks,
            sections,
            room,
            kept: 0,
        })
    }

    /// The newest place of a block, if there is one.
    pub(crate) fn newest(&self, block: u64) -> Option<EntryPlace>
        requires { IsWhole self.now }

        ensures { result ≡ newest_of block (kept_places self.now.nodes.items) }
    {
        self.blocks.place(block)
    }
}

/// Adds a place behind all others.
pub(crate) fn append(log: &mut PlaceLog, added: Added)
    requires whole { IsWhole log.old }
    requires room { length log.old.nodes.items < log.old.room }

    ensures whole { IsWhole log.new }
    ensures added { kept_places log.new.nodes.items ≡ kept_places log.old.nodes.items ++ added ∷ [] }
    ensures kept { log.new.kept ≡ log.old.kept + 1 }
    ensures room { log.new.room ≡ log.old.room }
    ensures nodes { length log.new.nodes.items ≡ length log.old.nodes.items + 1 }
{
    let at = log.nodes.len() as u32;
    let section = added.place.section;
    let node = Node {
        added,
        is_kept: true,
        older: log.blocks.last(added.block),
        fellow: log.sections.last(section),
    };
    log.nodes.push_reserved(node);
    let last = Last {
        at,
        place: added.place,
    };
    log.blocks.set_last(added.block, Some(last));
    log.sections.set_last(section, Some(last));
    log.kept += 1;
}

/// Drops all nodes of a section.
pub(crate) fn drop_section(log: &mut PlaceLog, section: u64)
    requires { IsWhole log.old }

    ensures whole { IsWhole log.new }
    ensures kept { kept_places log.new.nodes.items
        ≡ filter (λ a. not (is_in section a)) (kept_places log.old.nodes.items) }
    ensures room { log.new.room ≡ log.old.room }
    ensures fewer { log.new.kept ≤ log.old.kept }
{
    let last = log.sections.last(section);
    if last.is_none() {
        return;
    }
    let mut next = last;
    while let Some(at) = next {
        next = drop_node(log, at);
    }
    tell_none(log, section);
}

/// Makes the table tell that a section has no kept node.
fn tell_none(log: &mut PlaceLog, section: u64)
    requires whole { IsWholeBut section None log.old }
    requires told { IsSome (last_at log.old.sections.homes log.old.sections.slots.items section) }

    ensures whole { IsWhole log.new }
    ensures nodes { log.new.nodes ≡ log.old.nodes }
    ensures room { log.new.room ≡ log.old.room }
    ensures kept { log.new.kept ≡ log.old.kept }
{
    log.sections.set_last(section, None);
}

/// Forgets the nodes that are not kept. `moved` has room for those that are.
pub(crate) fn sweep(log: &mut PlaceLog, moved: &mut Vec<Added>)
    requires whole { IsWhole log.old }
    requires room { log.old.kept ≤ vec_capacity moved.old }

    ensures whole { IsWhole log.new }
    ensures kept { kept_places log.new.nodes.items ≡ kept_places log.old.nodes.items }
    ensures room { log.new.room ≡ log.old.room }
    ensures count { log.new.kept ≡ log.old.kept }
    ensures nodes { length log.new.nodes.items ≡ log.old.kept }
    ensures moved { vec_capacity moved.new ≡ vec_capacity moved.old }
{
    moved.clear();
    for node in log.nodes.iter() {
        if node.is_kept {
            moved.push_reserved(node.added);
        }
    }
    clear(log);
    for added in moved.iter() {
        append(log, *added);
    }
}

/// Forgets all nodes.
fn clear(log: &mut PlaceLog)
    requires { IsWhole log.old }

    ensures whole { IsWhole log.new }
    ensures nodes { log.new.nodes.items ≡ [] }
    ensures kept { log.new.kept ≡ 0 }
    ensures room { log.new.room ≡ log.old.room }
{
    log.nodes.clear();
    log.blocks.clear();
    log.sections.clear();
    log.kept = 0;
}

/// Drops a node, the last kept one of its section, and tells the kept one before it there.
fn drop_node(log: &mut PlaceLog, at: u32) -> Option<u32>
    requires { IsWholeBut (section_at at log.old) (Some at) log.old }

    ensures whole { IsWholeBut (section_at at log.old) result log.new }
    ensures others { OthersStay (section_at at log.old) log.old log.new }
    ensures kept { log.new.kept < log.old.kept }
    ensures earlier { behind result ≤ at }
{
    let node = mark_dropped(&mut log.nodes, at);
    log.kept -= 1;
    if log.blocks.last(node.added.block) == Some(at) {
        let newest = newest_kept(&log.nodes, node.older);
        let told = last_at(&log.nodes, newest);
        log.blocks.set_last(node.added.block, told);
    }
    node.fellow
}

/// What the table is told of a key that stands last at this node, if there is one.
fn last_at(nodes: &[Node], at: Option<u32>) -> Option<Last>
    requires { behind at ≤ length nodes.now }

    ensures { result ≡ last_of nodes.now at }
{
    let at = at?;
    let place = nodes[at as usize].added.place;
    Some(Last { at, place })
}

/// Makes a node one that is not kept, and tells it as it was.
fn mark_dropped(nodes: &mut Vec<Node>, at: u32) -> Node
    requires { at < length nodes.old.items }

    ensures node { result ≡ node_at nodes.old.items at }
    ensures dropped { nodes.new.items ≡ set nodes.old.items at (dropped (node_at nodes.old.items at)) }
    ensures capacity { vec_capacity nodes.new ≡ vec_capacity nodes.old }
{
    let at = at as usize;
    let node = nodes[at];
    nodes[at] = Node {
        is_kept: false,
        ..node
    };
    node
}
