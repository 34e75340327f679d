// The guard for callers in C or Rust: the calls of documents 01 and 02, and the look, over bytes alone. The store is
// its image of 3,648 bytes; the memory, of 16,384 bytes, is lent to the calls that read or write its bytes, and the others do
// what they do whatever it holds. A handle is held in 28 bytes, 27 and its length; a password has sixteen. Each function
// returns the number of the table, and gives no handle and zero counts, lengths and places with a refusal. A handle of none of
// the three lengths is refused with 25, an image that holds no store with 1. A call judges soundness on the image's bytes,
// reads the record of its cluster, has the core (`cluster`) do the call on it, and writes it back.
#![tactic(auto)]

ghost use Rattle.std.specs.Prelude.{◌≡◌, true};
ghost use Rattle.numbers.specs.Codes.{told};
ghost use Rattle.handle.specs.Handles.{decoded};
ghost use Rattle.codec.specs.Held.{bytes_held, handed};
ghost use Rattle.calls.specs.Answers.{gives, first, no_handle};
ghost use Rattle.refusals.specs.Given.{put};
ghost use Rattle.image.specs.Images.{good, store_in, image_of};
ghost use Rattle.image.specs.Verdicts.{sound_in};
ghost use Rattle.gelmuszta.specs.Version as versions;
ghost use Rattle.gelmuszta.specs.inner.Found as found;

use calls::{Answer, Changed, Given};
use codec::HELD;
use handle::Handle;
use image::IMAGE;
use numbers::Number;
use refusals::Opened;

mod bytes; // bytes.rt: calls 3, 5 and 6, which use the memory's bytes, and the look, which tells where they lie
mod handles; // handles.rt: conversion, calls 7, 8 and 11
mod records; // records.rt: calls 1, 2, 4, 9 and 10, which change a record
mod registers; // registers.rt: the two questions about a register of handles given out
mod stores; // stores.rt: the starting store, soundness
mod validation; // validation.rt: validation of one handle and of many

pub use bytes::{gelmuszta_look, gelmuszta_new_segment, gelmuszta_read, gelmuszta_write};
pub use handles::{
    gelmuszta_convert, gelmuszta_handle_of, gelmuszta_join, gelmuszta_reduce, gelmuszta_weaken,
};
pub use records::{
    gelmuszta_delete_cluster, gelmuszta_delete_segment, gelmuszta_freeze, gelmuszta_new_cluster,
    gelmuszta_new_password,
};
pub use registers::{gelmuszta_openers, gelmuszta_register};
pub use stores::{gelmuszta_sound, gelmuszta_start};
pub use validation::{gelmuszta_validate, gelmuszta_validate_all};

// The version of the library: ten thousand times the first number, a hundred times the second, and the third.
const VERSION: u32 = 900;

#[unsafe(no_mangle)]
pub extern "C" fn gelmuszta_version() -> u32
    ensures { result ≡ versions.version }
{
    VERSION
}

// What a handle opens in an image that holds a sound store.
fn look_up(image: &[u8; IMAGE], held: &[u8; HELD]) -> Result<Opened, Number>
    ensures { found.Looks result image.now (decoded (bytes_held held.now)) }
{
    open(image, codec::taken(held), image::sound_in(image))
}

// The same of a handle that is decoded, where it is known whether the store is sound: 25 where there is no handle, then 1 where
// there is no sound store. Never in line: what it makes on the way then lies on the stack of no caller while soundness is judged.
#[inline(never)]
fn open(image: &[u8; IMAGE], handle: Handle, sound: bool) -> Result<Opened, Number>
    requires { sound ≡ sound_in image.now }
    ensures { found.Looks result image.now handle }
{
    let cluster = image::record_in(image, handle.node(), handle.local as usize);
    if handle.has_width(0) {
        return Err(Number::Length);
    }
    if !sound {
        return Err(Number::Unsound);
    }
    Ok(Opened {
        sound,
        handle,
        cluster,
    })
}

// Writes the record that a call leaves of a handle's cluster, and tells what the call gives.
fn put_back(image: &mut [u8; IMAGE], handle: Handle, changed: &Changed) -> Given
    ensures given { result ≡ changed.now.given }
    ensures image { good image.old ≡ true
        → image.new ≡ image_of (put handle changed.now.cluster (store_in image.old)) }
{
    let at = store::record_at(handle.node(), handle.local as usize);
    image::put_record_in(changed.cluster, at, image);
    changed.given
}

// Does a call on what a handle opens and writes the record that it leaves: `call` is its core. A refusal writes nothing.
// Stays: beside that of `guard`, over records by value: a trait for records and for bytes would be longer than the two.
fn change<F: FnOnce(&Opened) -> Result<Changed, Number>>(
    image: &mut [u8; IMAGE],
    held: &[u8; HELD],
    call: F,
) -> Answer
    requires { F.IsAlwaysCallable call }
    ensures { found.Changes (F.post call) (bytes_held held.now) result image.old image.new }
{
    let opened = look_up(image, held)?;
    let changed = call(&opened)?;
    Ok(put_back(image, opened.handle, &changed))
}

// The number that is told of an answer, and the handle that the call gives, as a caller holds it: none with a refusal.
fn hand(answer: &Answer, given: &mut [u8; HELD]) -> u8
    ensures number { result ≡ told answer.now }
    ensures handle { handed given.new ≡ gives first no_handle answer.now }
{
    *given = codec::held(answer.unwrap_or(Given::Nothing).first());
    numbers::told(answer)
}
