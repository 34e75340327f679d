// Soundness straight on the bytes: no record is decoded. An inactive record is all zeros; the segments of an active one that
// stand below its width are marked in the map of its node, and all bytes after them are zeros.
ghost use Rattle.std.specs.Prelude.{◌≡◌, ◌≤◌, is_some};
ghost use Rattle.std.specs.Option.{option_flatten};
ghost use Rattle.sizes.specs.Sizes.{segments};
ghost use Rattle.spans.specs.Spans.{marks};
ghost use Rattle.store.specs.Placement.{placed_by};
ghost use Rattle.image.specs.Images as images;
ghost use Rattle.image.specs.Parts.{part};
ghost use Rattle.image.specs.Verdicts as verdicts;
ghost use Rattle.image.specs.inner.Claims as claims;

use crate::{IMAGE, MARK_AT, RECORD, SEGMENT, SEGMENTS_AT, WIDTH_AT};
use bits::word;
use sizes::{CLUSTERS, NODES};
use store::MAP_WORDS;

// Whether every byte is zero.
// Stays: beside the store's own of a password: one for both would need a law from bytes of any number to sixteen.
fn zero(b: &[u8]) -> bool
    ensures { result ≡ claims.zeros b.now }
{
    let mut ok = true;
    for byte in b {
        ok = (*byte == 0) & ok;
    }
    ok
}

// Marks the bytes of the segment that five bytes hold: false if they hold none, or if it is out of range or meets one marked
// before, or is absent and frozen.
fn claim_segment(b: &[u8; SEGMENT], map: &mut [u64; MAP_WORDS]) -> bool
    ensures { claims.SegmentClaimed b.now (marks map.old) result (marks map.new) }
{
    let start = word(b[0], b[1]);
    let size = word(b[2], b[3]);
    let mark = b[MARK_AT];
    let base = start as usize;
    let length = size as usize;
    if length == 0 {
        return (base == 0) & (mark == 0);
    }
    let to = base + length;
    (mark <= 1) & spans::mark(map, base, to)
}

// Claims so many of a record's segments in turn.
fn claim_segments(b: &[u8; RECORD], count: usize, map: &mut [u64; MAP_WORDS]) -> bool
    requires { count ≤ segments }
    ensures { claims.SegmentsClaimed (part b.now images.segments_at images.record_bytes) count (marks map.old) result (marks map.new) }
{
    let mut ok = true;
    let (held, _) = b[SEGMENTS_AT..RECORD].as_chunks();
    for segment in &held[..count] {
        ok = claim_segment(segment, map) & ok;
    }
    ok
}

// Claims the segments of an active record of that width; all bytes after them have to be zeros.
fn claim_active(b: &[u8; RECORD], width: usize, map: &mut [u64; MAP_WORDS]) -> bool
    requires { width ≤ segments }
    ensures { claims.ActiveClaimed b.now width (marks map.old) result (marks map.new) }
{
    let above = SEGMENTS_AT + width * SEGMENT;
    zero(&b[above..RECORD]) & claim_segments(b, width, map)
}

// Whether the bytes are those of a sound store's record, as far as they and the map of the node tell.
fn claim_record(b: &[u8; RECORD], map: &mut [u64; MAP_WORDS]) -> bool
    ensures { claims.RecordClaimed b.now (marks map.old) result (marks map.new) }
{
    let active = b[0];
    if active == 0 {
        return zero(&b[WIDTH_AT..RECORD]);
    }
    if active != 1 {
        return false;
    }
    let width = b[WIDTH_AT] as usize;
    if !store::is_width(width) {
        return false;
    }
    claim_active(b, width, map)
}

// The base that the map of a node tells, where it is the node asked about; else what was found before.
fn base_on(map: &[u64; MAP_WORDS], here: bool, size: usize, found: Option<usize>) -> Option<usize>
    ensures { claims.BaseOn (marks map.now) here size found result }
{
    if !here {
        return found;
    }
    store::base_in(map, size)
}

// The smallest base at which `size` bytes fit on a node, where there is one: it is found on the map by which the node was judged.
// `None` where the bytes hold no store that is sound with the whole memory.
pub fn sound_and_base(image: &[u8; IMAGE], wanted: usize, size: usize) -> Option<Option<usize>>
    ensures sound { is_some result ≡ verdicts.sound_in image.now }
    ensures base { placed_by (option_flatten result) ≡ verdicts.placement_in image.now wanted size }
{
    let (records, _) = image.as_chunks::<RECORD>();
    let (nodes, _) = records.as_chunks::<CLUSTERS>();
    let mut sound = true;
    let mut found = None;
    for (node, records) in nodes.iter().enumerate() {
        let mut map = [0u64; MAP_WORDS];
        let mut taken = true;
        for record in records {
            taken = claim_record(record, &mut map) & taken;
        }
        sound = taken & sound;
        found = base_on(&map, node == wanted, size, found);
    }
    sound.then_some(found)
}

// Whether the bytes hold a store that is sound with the whole memory: the same with no node asked about.
pub fn sound_in(image: &[u8; IMAGE]) -> bool
    ensures { result ≡ verdicts.sound_in image.now }
{
    sound_and_base(image, NODES, 0).is_some()
}
