// Soundness by a map of a node's bytes: each segment marks its own, and meets none that is marked. One pass over the
// segments does what the definition's pairs would take some ten times as long for.
ghost use Rattle.std.specs.Prelude.{◌≡◌, length};
ghost use Rattle.loops.specs.Below.{every};
ghost use Rattle.sizes.specs.Sizes.{segments};
ghost use Rattle.spans.specs.Spans.{marks};
ghost use Rattle.store.specs.Records.{table_of, place_of};
ghost use Rattle.store.specs.Sound as sound-spec;
ghost use Rattle.store.specs.inner.Passes as passes;

use crate::{Cluster, Segment, Span, Store, is_width};
use sizes::{CLUSTERS, MEMORY, Password};

// Words of the map of a node: a bit for each byte of its memory.
pub const MAP_WORDS: usize = 64;

// Marks the bytes of a segment in its node's map: false if it is out of range or shares a byte with one marked before, or
// if it is absent and frozen. What does not lie inside the map does not lie inside the node's memory. The end is worked
// out in usize, where the sum of two u16 does not wrap.
fn claim(segment: Segment, map: &mut [u64; MAP_WORDS]) -> bool
    ensures { passes.Claimed segment (marks map.old) result (marks map.new) }
{
    let place = segment.place;
    let frozen = segment.frozen;
    match place {
        None => !frozen,
        Some(span) => {
            let from = span.base as usize;
            let size = span.length as usize;
            let to = from + size;
            spans::mark(map, from, to)
        }
    }
}

// Claims each segment of a cluster in turn.
pub fn claim_all(cluster: &Cluster, map: &mut [u64; MAP_WORDS]) -> bool
    ensures { passes.ClaimedAll cluster.now (marks map.old) result (marks map.new) }
{
    let mut ok = true;
    for segment in &cluster.segments {
        ok = claim(*segment, map) & ok;
    }
    ok
}

fn zero(password: Password) -> bool
    ensures { result ≡ sound-spec.zero_bytes password }
{
    let mut ok = true;
    for byte in &password {
        ok = (*byte == 0) & ok;
    }
    ok
}

fn empty(cluster: &Cluster) -> bool
    ensures { result ≡ every segments (λ i. sound-spec.is_absent (place_of (table_of cluster.now) i)) }
{
    let mut ok = true;
    for segment in &cluster.segments {
        ok = segment.place.is_none() & ok;
    }
    ok
}

// Whether segment i of a cluster of that width may have this place: below the width any, else only that of an absent one.
fn allowed(place: Option<Span>, i: usize, width: usize) -> bool
    ensures { result ≡ sound-spec.allowed place i width }
{
    (i < width) | place.is_none()
}

// Whether no segment at or above the width is present.
fn below(cluster: &Cluster) -> bool
    ensures { result ≡ sound-spec.below cluster.now }
{
    let width = cluster.width as usize;
    let mut ok = true;
    for (i, segment) in cluster.segments.iter().enumerate() {
        ok = allowed(segment.place, i, width) & ok;
    }
    ok
}

// An active cluster has one of the three widths, an inactive one 0.
fn sound_width(active: bool, width: usize) -> bool
    ensures { result ≡ sound-spec.sound_width active width }
{
    if active { is_width(width) } else { width == 0 }
}

// The width is sound, and no segment at or above it is present.
fn sized(cluster: &Cluster) -> bool
    ensures { result ≡ sound-spec.sized cluster.now }
{
    sound_width(cluster.active, cluster.width as usize) & below(cluster)
}

// An inactive cluster has zero passwords and only absent segments; and the width is as it has to be.
fn settled(cluster: &Cluster) -> bool
    ensures { result ≡ sound-spec.settled cluster.now }
{
    (cluster.active | ((zero(cluster.read) & zero(cluster.write)) & empty(cluster)))
        & sized(cluster)
}

// Whether the records are sound with a slice of `size` bytes: the clusters of each node are settled, and its map takes
// all their segments. The loops are nested here, since a store that is handed on is copied whole.
pub fn sound(store: Store, size: usize) -> bool
    ensures { result ≡ sound-spec.sound store size }
{
    let (nodes, _) = store.clusters.as_chunks::<CLUSTERS>();
    let mut ok = true;
    for clusters in nodes {
        let mut map = [0u64; MAP_WORDS];
        let mut taken = true;
        for cluster in clusters {
            taken = (settled(cluster) & claim_all(cluster, &mut map)) & taken;
        }
        ok = taken & ok;
    }
    (size == MEMORY) & ok
}
