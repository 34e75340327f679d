// The store of document 01: the clusters' records, whether they are sound, and where a new segment goes.
#![tactic(auto)]

mod placement; // placement.rt: the base of a new segment
mod records; // records.rt: the parts of a record, read and replaced
mod soundness; // soundness.rt: the test of the records and of the slice's length

pub use placement::{base_in, new_base};
pub use records::{
    READ_MODE, WRITE_MODE, base_of, frozen_of, inactive_cluster, is_width, length_of, none_frozen,
    password_in, place_of, primary, record_at, started, starting, with_mark, with_password,
    with_place,
};
use sizes::{Password, RECORDS, SEGMENTS};
pub use soundness::{MAP_WORDS, sound};

// Where a present segment lies: a base within its node's memory, and a length.
#[derive(Clone, Copy)]
pub struct Span {
    pub base: u16,
    pub length: u16,
}

// Where a segment lies, `None` where it is absent, and its mark: frozen or not. In a sound store an absent one is not.
#[derive(Clone, Copy)]
pub struct Segment {
    pub place: Option<Span>,
    pub frozen: bool,
}

// A cluster's record: whether it is active, its width (4, 8 or 16 segments, 0 while it is inactive), its two primary
// passwords, its segments. In a sound store those at or above the width are absent.
// Stays: `active` and `width` are no `Option` and no enum, since `settled` and `is_width` judge what a record holds, and an image
// holds any bytes.
#[derive(Clone, Copy)]
pub struct Cluster {
    pub active: bool,
    pub width: u8,
    pub read: Password,
    pub write: Password,
    pub segments: [Segment; SEGMENTS],
}

// The records of all clusters, node 0 first: local number l of node v is record v * CLUSTERS + l.
#[derive(Clone, Copy)]
pub struct Store {
    pub clusters: [Cluster; RECORDS],
}
