// From bytes: a segment and its place, the segments of a record, one record of an image.
ghost use Rattle.std.specs.Prelude.{◌≡◌, true};
ghost use Rattle.store.specs.Records.{cluster_at, record_at};
ghost use Rattle.image.specs.Images as images;
ghost use Rattle.image.specs.Parts.{part};

use crate::{IMAGE, MARK_AT, READ_AT, RECORD, SEGMENT, SEGMENTS_AT, WIDTH_AT, WRITE_AT};
use bits::word;
use sizes::SEGMENTS;
use store::{Cluster, Segment, Span};

// The place in the five bytes of a segment.
fn place_in(b: &[u8; SEGMENT]) -> Option<Span>
    ensures { result ≡ images.place_in b.now }
{
    let base = word(b[0], b[1]);
    let length = word(b[2], b[3]);
    if length == 0 {
        return None;
    }
    Some(Span { base, length })
}

fn segment_in(b: &[u8; SEGMENT]) -> Segment
    ensures { result ≡ images.segment_in b.now }
{
    let place = place_in(b);
    Segment {
        place,
        frozen: b[MARK_AT] == 1,
    }
}

// The segments of a record.
fn segments_in(b: &[u8; RECORD]) -> [Segment; SEGMENTS]
    ensures { result ≡ images.segments_in (part b.now images.segments_at images.record_bytes) }
{
    let absent = Segment {
        place: None,
        frozen: false,
    };
    let mut r = [absent; SEGMENTS];
    let (held, _) = b[SEGMENTS_AT..RECORD].as_chunks();
    for (i, segment) in held.iter().enumerate() {
        r[i] = segment_in(segment);
    }
    r
}

fn cluster_in(b: &[u8; RECORD]) -> Cluster
    ensures { result ≡ images.cluster_in b.now }
{
    let read = store::password_in(&b[READ_AT..WRITE_AT]);
    let write = store::password_in(&b[WRITE_AT..SEGMENTS_AT]);
    let segments = segments_in(b);
    Cluster {
        active: b[0] == 1,
        width: b[WIDTH_AT],
        read,
        write,
        segments,
    }
}

// The record of a cluster of the store that the bytes hold; record 0 where there is no such place. If the bytes are those
// of a store, they are its image.
pub fn record_in(image: &[u8; IMAGE], node: usize, local: usize) -> Cluster
    ensures cluster { result ≡ cluster_at (images.store_in image.now) (record_at node local) }
    ensures whole { images.good image.now ≡ true
        → images.image_of (images.store_in image.now) ≡ image.now }
{
    let at = store::record_at(node, local);
    let (records, _) = image.as_chunks();
    cluster_in(&records[at])
}
