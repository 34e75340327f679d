// The image of a store: its records as 3,648 bytes, for callers who keep the store themselves.
#![tactic(auto)]

ghost use Rattle.std.specs.Prelude.{◌≡◌, true};
ghost use Rattle.store.specs.Records.{put_record};
ghost use Rattle.image.specs.Images as images;

use store::Cluster;

mod reading; // reading.rt: from bytes
mod soundness; // soundness.rt: the test of the store, and the base of a new segment, on bytes
mod writing; // writing.rt: to bytes

pub use reading::record_in;
pub use soundness::{sound_and_base, sound_in};

// Bytes of the image, of a cluster's record, and of a segment, in that order.
pub const IMAGE: usize = 3648;

const RECORD: usize = 114;

const SEGMENT: usize = 5;

// Where the width stands in a record, and where the passwords and the segments begin; the active byte is its first.
const WIDTH_AT: usize = 1;

const READ_AT: usize = 2;

const WRITE_AT: usize = 18;

const SEGMENTS_AT: usize = 34;

// Where the mark stands in a segment, after base and length.
const MARK_AT: usize = 4;

// Replaces one record; past the last there is none. The image of a store becomes that of the store with the record replaced.
pub fn put_record_in(cluster: Cluster, at: usize, image: &mut [u8; IMAGE])
    ensures bytes { image.new ≡ images.with_record image.old at cluster }
    ensures image { images.good image.old ≡ true
        → image.new ≡ images.image_of (put_record (images.store_in image.old) at cluster) }
{
    writing::put_record_in(cluster, at, image);
}
