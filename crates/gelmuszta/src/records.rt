// Calls 1, 2, 4, 9 and 10: they change the record of a cluster and no byte of the memory.
ghost use Rattle.std.specs.Prelude.{◌≡◌, []};
ghost use Rattle.calls.specs.Calls as calls;
ghost use Rattle.calls.specs.Steps.{plain};
ghost use Rattle.calls.specs.Answers.{replied};
ghost use Rattle.codec.specs.Held.{bytes_held};
ghost use Rattle.gelmuszta.specs.Exported.{giving, giving_both, Gives};

use crate::{change, hand};
use calls::{Answer, Given};
use codec::HELD;
use image::IMAGE;
use numbers::Number;
use sizes::Password;

// Call 1: a cluster of the current node becomes active with a width; its read and its write primary handle.
#[unsafe(no_mangle)]
pub extern "C" fn gelmuszta_new_cluster(
    image: &mut [u8; IMAGE],
    current: usize,
    local: usize,
    width: usize,
    read: &Password,
    write: &Password,
    first: &mut [u8; HELD],
    second: &mut [u8; HELD],
) -> u8
    ensures { Gives (calls.making_cluster current local width read.now write.now) image.old
        (giving_both result first.new second.new) image.new }
{
    let answer = new_cluster(image, current, local, width, *read, *write);
    let given = answer.unwrap_or(Given::Nothing);
    *first = codec::held(given.first());
    *second = codec::held(given.second());
    numbers::told(&answer)
}

// The two handles that it gives, or its refusal.
fn new_cluster(
    image: &mut [u8; IMAGE],
    current: usize,
    local: usize,
    width: usize,
    read: Password,
    write: Password,
) -> Answer
    ensures { Gives (calls.making_cluster current local width read write) image.old (replied result []) image.new }
{
    let cluster = image::record_in(image, current, local);
    if !image::sound_in(image) {
        return Err(Number::Unsound);
    }
    let changed = cluster::new_cluster(true, cluster, current, local, width, read, write)?;
    image::put_record_in(changed.cluster, store::record_at(current, local), image);
    Ok(changed.given)
}

// Call 2: the cluster's record becomes that of the starting store, unless a segment of it is frozen.
#[unsafe(no_mangle)]
pub extern "C" fn gelmuszta_delete_cluster(
    image: &mut [u8; IMAGE],
    current: usize,
    handle: &[u8; HELD],
) -> u8
    ensures { Gives (calls.deleting_cluster current (bytes_held handle.now)) image.old (plain result []) image.new }
{
    let answer = change(
        image,
        handle,
        |opened| cluster::delete_cluster(opened, current),
    );
    numbers::told(&answer)
}

// Call 4: the segment is absent, unless it is frozen; memory bytes stay.
#[unsafe(no_mangle)]
pub extern "C" fn gelmuszta_delete_segment(
    image: &mut [u8; IMAGE],
    current: usize,
    segment: usize,
    handle: &[u8; HELD],
) -> u8
    ensures { Gives (calls.deleting_segment current segment (bytes_held handle.now)) image.old (plain result []) image.new }
{
    let answer = change(
        image,
        handle,
        |opened| cluster::delete_segment(opened, current, segment),
    );
    numbers::told(&answer)
}

// Call 9: the primary password of the mode named becomes the new one; the new primary handle.
#[unsafe(no_mangle)]
pub extern "C" fn gelmuszta_new_password(
    image: &mut [u8; IMAGE],
    mode: usize,
    handle: &[u8; HELD],
    password: &Password,
    given: &mut [u8; HELD],
) -> u8
    ensures { Gives (calls.renewing mode (bytes_held handle.now) password.now) image.old
        (giving result given.new) image.new }
{
    let answer = change(
        image,
        handle,
        |opened| cluster::new_password(opened, mode, *password),
    );
    hand(&answer, given)
}

// Call 10: the segment is frozen where it lies; one that is frozen already stays so.
#[unsafe(no_mangle)]
pub extern "C" fn gelmuszta_freeze(
    image: &mut [u8; IMAGE],
    current: usize,
    segment: usize,
    handle: &[u8; HELD],
) -> u8
    ensures { Gives (calls.freezing current segment (bytes_held handle.now)) image.old (plain result []) image.new }
{
    let answer = change(
        image,
        handle,
        |opened| cluster::freeze(opened, current, segment),
    );
    numbers::told(&answer)
}
