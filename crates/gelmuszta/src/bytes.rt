// Calls 3, 5 and 6, and the look: they clear, read, write or show the bytes of a segment.
ghost use Rattle.std.specs.Prelude.{◌≡◌, []};
ghost use Rattle.calls.specs.Calls as calls;
ghost use Rattle.std.proofs.Math.ListN as lists;
ghost use Rattle.calls.specs.Steps.{plain, look_reply};
ghost use Rattle.calls.specs.Answers.{replied};
ghost use Rattle.codec.specs.Held.{bytes_held};
ghost use Rattle.gelmuszta.specs.inner.Found.{Shows};
ghost use Rattle.gelmuszta.specs.Exported.{leaving, telling, exported, OnEveryMemory, part_from, exported_part};
ghost use Rattle.sizes.specs.Sizes as sizes;

use crate::{look_up, open, put_back};
use calls::{Answer, Given, Part};
use codec::HELD;
use image::IMAGE;
use numbers::Number;
use sizes::MEMORY;

// Call 3: the segment is present at the smallest base at which it fits, and its bytes are zero.
#[unsafe(no_mangle)]
pub extern "C" fn gelmuszta_new_segment(
    image: &mut [u8; IMAGE],
    memory: &mut [u8; MEMORY],
    current: usize,
    segment: usize,
    size: usize,
    handle: &[u8; HELD],
) -> u8
    ensures { leaving (plain result []) image.new memory.new
        ≡ exported (calls.making_segment current segment size (bytes_held handle.now)) image.old memory.old }
{
    let answer = new_segment(image, memory, current, segment, size, handle);
    numbers::told(&answer)
}

// That it is done, or its refusal. Soundness and the base are judged in one pass over the image.
fn new_segment(
    image: &mut [u8; IMAGE],
    memory: &mut [u8; MEMORY],
    current: usize,
    segment: usize,
    size: usize,
    held: &[u8; HELD],
) -> Answer
    ensures { leaving (replied result []) image.new memory.new
        ≡ exported (calls.making_segment current segment size (bytes_held held.now)) image.old memory.old }
{
    let handle = codec::taken(held);
    let judged = image::sound_and_base(image, handle.node(), size);
    let opened = open(image, handle, judged.is_some())?;
    cluster::segment_refusal(&opened, current, segment, size)?;
    let changed = cluster::new_segment(judged.flatten(), &opened, memory, segment, size)?;
    Ok(put_back(image, opened.handle, &changed))
}

// Call 5: the first bytes of the buffer become those of the segment, and its length is told.
#[unsafe(no_mangle)]
pub extern "C" fn gelmuszta_read(
    image: &[u8; IMAGE],
    memory: &[u8; MEMORY],
    segment: usize,
    handle: &[u8; HELD],
    buffer: &mut [u8],
    length: &mut usize,
) -> u8
    ensures { leaving (telling result length.new buffer.new) image.now memory.now
        ≡ exported (calls.reading segment (bytes_held handle.now) buffer.old) image.now memory.now }
{
    let answer = read(image, memory, segment, handle, buffer);
    *length = answer.unwrap_or(Given::Nothing).length();
    numbers::told(&answer)
}

// The length that it gives, or its refusal.
fn read(
    image: &[u8; IMAGE],
    memory: &[u8; MEMORY],
    segment: usize,
    held: &[u8; HELD],
    buffer: &mut [u8],
) -> Answer
    ensures { leaving (replied result buffer.new) image.now memory.now
        ≡ exported (calls.reading segment (bytes_held held.now) buffer.old) image.now memory.now }
{
    let opened = look_up(image, held)?;
    cluster::read(&opened, memory, buffer, segment)
}

// Call 6: the segment becomes the first bytes of the data.
#[unsafe(no_mangle)]
pub extern "C" fn gelmuszta_write(
    image: &[u8; IMAGE],
    memory: &mut [u8; MEMORY],
    segment: usize,
    handle: &[u8; HELD],
    written: &[u8],
) -> u8
    ensures { leaving (plain result written.now) image.now memory.new
        ≡ exported (calls.writing segment (bytes_held handle.now) written.now) image.now memory.old }
{
    let answer = write(image, memory, segment, handle, written);
    numbers::told(&answer)
}

// That it is done, or its refusal.
fn write(
    image: &[u8; IMAGE],
    memory: &mut [u8; MEMORY],
    segment: usize,
    held: &[u8; HELD],
    written: &[u8],
) -> Answer
    ensures { leaving (replied result written.now) image.now memory.new
        ≡ exported (calls.writing segment (bytes_held held.now) written.now) image.now memory.old }
{
    let opened = look_up(image, held)?;
    cluster::write(&opened, memory, segment, written)
}

// A look: where the part of the memory that is the segment begins and how long it is, both 0 where it is refused. No byte of
// the memory is read.
#[unsafe(no_mangle)]
pub extern "C" fn gelmuszta_look(
    image: &[u8; IMAGE],
    current: usize,
    segment: usize,
    handle: &[u8; HELD],
    from: &mut usize,
    length: &mut usize,
) -> u8
    ensures reply { OnEveryMemory (calls.looking current segment (bytes_held handle.now)) image.now
        (λ m. leaving (look_reply result (lists.take length.new (lists.drop from.new m))) image.now m) }
    ensures place { part_from from.new length.new
        ≡ exported_part (calls.looking current segment (bytes_held handle.now)) image.now sizes.memory }
{
    match look(image, current, segment, handle) {
        Ok(part) => {
            *from = part.from;
            *length = part.to - part.from;
            0
        }
        Err(number) => {
            *from = 0;
            *length = 0;
            number.code()
        }
    }
}

// The part that it tells, or its refusal.
fn look(
    image: &[u8; IMAGE],
    current: usize,
    segment: usize,
    held: &[u8; HELD],
) -> Result<Part, Number>
    ensures { Shows result image.now (calls.looking current segment (bytes_held held.now)) }
{
    let opened = look_up(image, held)?;
    cluster::look(&opened, current, segment)
}
