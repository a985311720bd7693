// A plan as it is stored.
ghost use Rattle.std.specs.Prelude.{◌≤◌, vec_capacity};
ghost use Rattle.plan.specs.Drawn.{Ranged, Small, Sound};

use crate::node::{Arc, Ends, Node};

// The most that a plan holds.
pub const NODES: usize = 256;

pub const REGIONS: usize = 64;

pub const ARCS: usize = 1024;

// Nodes, arcs and regions lie by their numbers, as the calls name them. There is room for all that a plan may hold from the
// start on, so that no call wants memory.
#[derive(Drop)]
pub struct Plan {
    pub(crate) nodes: Vec<Node>,
    pub(crate) arcs: Vec<Arc>,
    // the ends of each region, if they are named
    pub(crate) ends: Vec<Option<Ends>>,
    ghost room: { (256 ≤ vec_capacity nodes) × (1024 ≤ vec_capacity arcs) × (64 ≤ vec_capacity ends) },
    ghost small: { Small (record { nodes = nodes.items; arcs = arcs.items; ends = ends.items }) },
    ghost sound: { ∥ Sound (record { nodes = nodes.items; arcs = arcs.items; ends = ends.items }) ∥₁ },
    ghost ranged: { Ranged (record { nodes = nodes.items; arcs = arcs.items; ends = ends.items }) },
}
