// Placement by a map of a node's bytes: its segments mark theirs, and the base is the least start of enough clear bits.
ghost use Rattle.spans.specs.Spans.{marks};
ghost use Rattle.store.specs.Placement.{PlacedIn};
ghost use Rattle.store.specs.inner.Passes as passes;

use crate::soundness::claim_all;
use crate::{MAP_WORDS, Store};
use sizes::{CLUSTERS, NODE_MEMORY, NODES};

// The smallest base at which `size` bytes fit on a node whose map this is.
pub fn base_in(map: &[u64; MAP_WORDS], size: usize) -> Option<usize>
    ensures { passes.Based (marks map.now) size result }
{
    if size < 1 {
        return None;
    }
    if NODE_MEMORY < size {
        return None;
    }
    spans::room(&map[..], size)
}

// The smallest base at which `size` bytes fit on the node, where the store is sound: its segments lie inside, so the map has
// all their bytes. The loop is here, since a store that is handed on is copied whole.
pub fn new_base(store: Store, node: usize, size: usize) -> Option<usize>
    ensures { PlacedIn store node size result }
{
    if NODES <= node {
        return None;
    }
    let (nodes, _) = store.clusters.as_chunks::<CLUSTERS>();
    let mut map = [0u64; MAP_WORDS];
    for cluster in &nodes[node] {
        claim_all(cluster, &mut map);
    }
    base_in(&map, size)
}
