// The core of each call: what it does to the record of the one cluster that it is about. A core is given what was opened
// (whether the store is sound, the handle, that record) and the call's other arguments, and tells the answer and the record
// as it is left; so it serves a store of records and its image alike. A contract speaks of every store that holds what was
// opened (`OpenedFrom`).
// No core touches a byte outside its memory, even where it is told of a soundness that is not so.
#![tactic(auto)]

mod bytes; // bytes.rt: reading, writing and looking
mod change; // change.rt: the calls that change the record and no byte
mod create; // create.rt: the call that makes a cluster, and weakening, which needs no record
mod make; // make.rt: the call that makes a segment
mod open; // open.rt: validation, reduction and joining, which change nothing

pub use bytes::{look, read, write};
pub use change::{delete_cluster, delete_segment, freeze, new_password};
pub use create::{new_cluster, weaken};
pub use make::{new_segment, segment_refusal};
pub use open::{join, reduce, validate};
