// The sizes that document 01 gives, named once for all code; `specs/` has the same for the definitions.
#![tactic(auto)]

// Nodes of the store, clusters of a node, segments that a cluster's record has room for; the records are the clusters of
// all nodes.
pub const NODES: usize = 4;

pub const CLUSTERS: usize = 8;

pub const SEGMENTS: usize = 16;

pub const RECORDS: usize = 32;

// Bytes of one node's memory, of the slice that holds the four, and of a password.
pub const NODE_MEMORY: usize = 4096;

pub const MEMORY: usize = 16384;

pub const PASSWORD_BYTES: usize = 16;

// A password.
pub type Password = [u8; PASSWORD_BYTES];
