// Conversion, weakening, reduction and joining: new passwords and handles from old ones. And a handle from bytes.
ghost use Rattle.std.specs.Prelude.{◌≡◌, []};
ghost use Rattle.handle.specs.Conversion.{conversion};
ghost use Rattle.calls.specs.Calls as calls;
ghost use Rattle.calls.specs.Answers.{replied};
ghost use Rattle.codec.specs.Held.{bytes_held, held_from, length_number};
ghost use Rattle.gelmuszta.specs.Exported.{giving, counting, Gives, Always};

use crate::{hand, look_up};
use aes::Tables;
use calls::{Answer, Given};
use codec::HELD;
use image::IMAGE;
use numbers::Number;
use sizes::Password;

// The password that a parameter turns a password into.
#[unsafe(no_mangle)]
pub extern "C" fn gelmuszta_convert(password: &Password, parameter: u16, converted: &mut Password)
    ensures { converted.new ≡ conversion password.now parameter }
{
    *converted = handle::convert_with(&Tables::new(), *password, parameter);
}

// A handle from bytes that came from elsewhere: 25 where no handle has so many, and no handle is held then.
#[unsafe(no_mangle)]
pub extern "C" fn gelmuszta_handle_of(bytes: &[u8], handle: &mut [u8; HELD]) -> u8
    ensures number { result ≡ length_number bytes.now }
    ensures held { handle.new ≡ held_from bytes.now }
{
    *handle = codec::held_from(bytes);
    numbers::told(&codec::length_number(bytes))
}

// Call 7: the handle weakened by a mask, and how many segments it references. It sees no store.
#[unsafe(no_mangle)]
pub extern "C" fn gelmuszta_weaken(
    handle: &[u8; HELD],
    mask: u16,
    given: &mut [u8; HELD],
    count: &mut u8,
) -> u8
    ensures { Always (calls.weakening_by mask (bytes_held handle.now))
        (counting result given.new count.new) }
{
    let answer = cluster::weaken(codec::taken(handle), mask);
    let weaker = answer.unwrap_or(Given::Nothing);
    *given = codec::held(weaker.first());
    *count = weaker.count();
    numbers::told(&answer)
}

// Call 8: the handle reduced in the mode named.
#[unsafe(no_mangle)]
pub extern "C" fn gelmuszta_reduce(
    image: &[u8; IMAGE],
    mode: usize,
    handle: &[u8; HELD],
    given: &mut [u8; HELD],
) -> u8
    ensures { Gives (calls.reducing mode (bytes_held handle.now)) image.now
        (giving result given.new) image.now }
{
    let answer = reduce(image, mode, handle);
    hand(&answer, given)
}

// The handle that it gives, or its refusal.
fn reduce(image: &[u8; IMAGE], mode: usize, held: &[u8; HELD]) -> Answer
    ensures { Gives (calls.reducing mode (bytes_held held.now)) image.now (replied result []) image.now }
{
    let opened = look_up(image, held)?;
    cluster::reduce(&opened, mode)
}

// Call 11: two handles of one cluster joined in the mode named.
#[unsafe(no_mangle)]
pub extern "C" fn gelmuszta_join(
    image: &[u8; IMAGE],
    mode: usize,
    handle: &[u8; HELD],
    other: &[u8; HELD],
    given: &mut [u8; HELD],
) -> u8
    ensures { Gives (calls.joining mode (bytes_held handle.now) (bytes_held other.now)) image.now
        (giving result given.new) image.now }
{
    let answer = join(image, mode, handle, other);
    hand(&answer, given)
}

// The handle that it gives, or its refusal: 25 of either handle comes before the 1 of the store.
fn join(image: &[u8; IMAGE], mode: usize, held: &[u8; HELD], other: &[u8; HELD]) -> Answer
    ensures { Gives (calls.joining mode (bytes_held held.now) (bytes_held other.now)) image.now
        (replied result []) image.now }
{
    let second = codec::taken(other);
    if second.has_width(0) {
        return Err(Number::Length);
    }
    let opened = look_up(image, held)?;
    cluster::join(&opened, second, mode)
}
