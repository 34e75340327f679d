// A cluster's record: as it begins, and each of its parts read and replaced.
ghost use Rattle.std.specs.Prelude.{◌≡◌, ◌<◌, length};
ghost use Rattle.loops.specs.First.{first_bytes};
ghost use Rattle.sizes.specs.Sizes as sizes;
ghost use Rattle.store.specs.Records as spec;
ghost use Rattle.store.specs.Sound.{is_width};

use crate::{Cluster, Segment, Span, Store};
use sizes::{CLUSTERS, NODES, PASSWORD_BYTES, Password, RECORDS, SEGMENTS};

// The two modes.
// Stays: a mode is any number that a caller gives, and `primary` promises what each number gives.
pub const READ_MODE: usize = 1;

pub const WRITE_MODE: usize = 2;

// A cluster's record as the starting store has it, and as a deleted cluster leaves it.
pub fn inactive_cluster() -> Cluster
    ensures { result ≡ spec.inactive }
{
    let segment = Segment {
        place: None,
        frozen: false,
    };
    Cluster {
        active: false,
        width: 0,
        read: [0; PASSWORD_BYTES],
        write: [0; PASSWORD_BYTES],
        segments: [segment; SEGMENTS],
    }
}

// The starting store: all clusters inactive.
pub fn starting() -> Store
    ensures { result ≡ spec.starting_store }
{
    let cluster = inactive_cluster();
    Store {
        clusters: [cluster; RECORDS],
    }
}

// The record of a new cluster.
pub fn started(width: u8, read: Password, write: Password) -> Cluster
    ensures { result ≡ spec.started width read write }
{
    Cluster {
        active: true,
        width,
        read,
        write,
        ..inactive_cluster()
    }
}

// Whether a number is one of the three widths that a cluster can have.
pub fn is_width(width: usize) -> bool
    ensures { result ≡ is_width width }
{
    matches!(width, 4 | 8 | 16)
}

// Stays: the clause of `record_at` gives 0 where there is no such place, and the callers judge the place later.
// The number of a cluster's record, or 0 where there is no such place, so that the record can be looked up before the
// place is judged.
pub fn record_at(node: usize, local: usize) -> usize
    ensures { (result ≡ spec.record_at node local) × (result < sizes.records) }
{
    if NODES <= node {
        return 0;
    }
    if CLUSTERS <= local {
        return 0;
    }
    node * CLUSTERS + local
}

// Base and length of a place; zero where it is absent.
pub fn base_of(place: Option<Span>) -> u16
    ensures { result ≡ spec.base_of place }
{
    place.map_or(0, |span| span.base)
}

pub fn length_of(place: Option<Span>) -> u16
    ensures { result ≡ spec.length_of place }
{
    place.map_or(0, |span| span.length)
}

// The place of a segment of a cluster; there is none above the last.
pub fn place_of(cluster: Cluster, segment: usize) -> Option<Span>
    ensures { result ≡ spec.place_of (spec.table_of cluster) segment }
{
    cluster.segments.get(segment).and_then(|found| found.place)
}

// Whether a segment of a cluster is frozen; above the last none is.
pub fn frozen_of(cluster: Cluster, segment: usize) -> bool
    ensures { result ≡ spec.frozen_of (spec.table_of cluster) segment }
{
    cluster
        .segments
        .get(segment)
        .is_some_and(|found| found.frozen)
}

// Whether no segment of a cluster is frozen.
pub fn none_frozen(cluster: Cluster) -> bool
    ensures { result ≡ spec.none_frozen (spec.table_of cluster) }
{
    cluster.segments.iter().all(|segment| !segment.frozen)
}

// The record with the place of a segment replaced; the segment is not frozen then.
pub fn with_place(cluster: Cluster, segment: usize, place: Option<Span>) -> Cluster
    ensures { result ≡ spec.with_place cluster segment place }
{
    let mut changed = cluster;
    if segment < SEGMENTS {
        changed.segments[segment] = Segment {
            place,
            frozen: false,
        };
    }
    changed
}

// The record with a segment frozen where it lies.
pub fn with_mark(cluster: Cluster, segment: usize) -> Cluster
    ensures { result ≡ spec.with_mark cluster segment }
{
    let mut changed = cluster;
    if segment < SEGMENTS {
        changed.segments[segment].frozen = true;
    }
    changed
}

// The primary password of a cluster for a mode.
pub fn primary(cluster: Cluster, mode: usize) -> Password
    ensures { result ≡ spec.primary_of cluster mode }
{
    if mode == READ_MODE {
        cluster.read
    } else {
        cluster.write
    }
}

// The record with the primary password of a mode replaced.
pub fn with_password(cluster: Cluster, mode: usize, password: Password) -> Cluster
    ensures { result ≡ spec.with_password cluster mode password }
{
    let mut changed = cluster;
    if mode == READ_MODE {
        changed.read = password;
    } else {
        changed.write = password;
    }
    changed
}

// The first sixteen bytes of a part, by value; zeros where it has fewer.
pub fn password_in(part: &[u8]) -> Password
    ensures { result ≡ first_bytes sizes.password_bytes part.now }
{
    part.first_chunk().copied().unwrap_or([0; PASSWORD_BYTES])
}
