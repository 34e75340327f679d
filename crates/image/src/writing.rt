// To bytes: segments and a record, each over a part of the image.
ghost use Rattle.std.specs.Prelude.{◌≡◌, true, ◌*◌, length};
ghost use Rattle.sizes.specs.Sizes.{segments};
ghost use Rattle.store.specs.Records.{put_record};
ghost use Rattle.image.specs.Images as images;

use crate::{READ_AT, RECORD, SEGMENT, SEGMENTS_AT, WIDTH_AT, WRITE_AT};
use sizes::{RECORDS, SEGMENTS};
use store::{Cluster, Segment};

// The five bytes of a segment: base and length, two bytes each, high byte first, zeros for an absent segment; and the mark.
fn segment_out(segment: Segment) -> [u8; SEGMENT]
    ensures { result ≡ images.segment_out segment }
{
    let [base_high, base_low] = store::base_of(segment.place).to_be_bytes();
    let [length_high, length_low] = store::length_of(segment.place).to_be_bytes();
    [
        base_high,
        base_low,
        length_high,
        length_low,
        segment.frozen as u8,
    ]
}

// Stays: over a slice. What the slice ends as after `as_chunks_mut` no proof is told, and `first_chunk_mut` may find none.
fn put_segments(table: [Segment; SEGMENTS], out: &mut [u8])
    requires { length out.old ≡ segments * images.segment_bytes }
    ensures { out.new ≡ images.segments_out table }
{
    for (i, segment) in table.iter().enumerate() {
        let from = i * SEGMENT;
        let to = from + SEGMENT;
        out[from..to].copy_from_slice(&segment_out(*segment));
    }
}

// Stays: over a slice, as `put_segments` is.
fn put_record(cluster: Cluster, out: &mut [u8])
    requires { length out.old ≡ images.record_bytes }
    ensures { out.new ≡ images.record_out cluster }
{
    out[READ_AT..WRITE_AT].copy_from_slice(&cluster.read);
    out[WRITE_AT..SEGMENTS_AT].copy_from_slice(&cluster.write);
    put_segments(cluster.segments, &mut out[SEGMENTS_AT..RECORD]);
    out[0] = cluster.active as u8;
    out[WIDTH_AT] = cluster.width;
}

// One record of an image, over what stands there; past the last record nothing is written.
pub fn put_record_in(cluster: Cluster, at: usize, out: &mut [u8])
    requires { length out.old ≡ images.image_bytes }
    ensures bytes { out.new ≡ images.with_record out.old at cluster }
    ensures image { images.good out.old ≡ true
        → out.new ≡ images.image_of (put_record (images.store_in out.old) at cluster) }
{
    if RECORDS <= at {
        return;
    }
    let from = at * RECORD;
    let to = from + RECORD;
    put_record(cluster, &mut out[from..to]);
}
