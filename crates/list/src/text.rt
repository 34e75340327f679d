// The chain of a list, the line of each record, and the text of the whole run.
ghost use Rattle.std.specs.Prelude.{◌≡◌, ◌≤◌, ◌↔◌, IsSome, length, eqb, not};
ghost use Rattle.std.specs.List.{list_all};
ghost use Rattle.chain.specs.Way.{walked};
ghost use Rattle.lines.specs.Buffers as buffers;
ghost use Rattle.list.specs.Records as records;
ghost use Rattle.list.specs.Runs as runs;
ghost use Rattle.list.specs.Texts as texts;
ghost use Rattle.list.specs.inner.Loops as loops;

use crate::fields::{CODE, RECORD, record_in};
use crate::perform::perform;
use calls::Code;
use lines::{BRIEF, LONGEST};
use numbers::Number;
use sizes::MEMORY;
use store::Store;

// The most bytes that a list has.
pub const MOST_BYTES: usize = 16320;

// The bytes of the buffer that reads get.
pub const BUFFER: usize = 4096;

// The bytes of the longest text: a line for each of 255 records, and the last.
pub const MOST_TEXT: usize = 2092283;

// The bytes that are enough for the text of a list with no read: a brief line for each of 255 records, and the longest line once,
// since a line is put only where the longest one fits.
pub const BRIEF_TEXT: usize = MOST_BYTES / RECORD * BRIEF + LONGEST;

// How many records the chain of a list has, from record 1. An empty list has none.
pub fn check(list: &[u8]) -> Result<usize, Number>
    ensures { walked result ≡ texts.checked list.now }
{
    let size = list.len();
    if size % RECORD != 0 {
        return Err(Number::ListLength);
    }
    if MOST_BYTES < size {
        return Err(Number::ListLength);
    }
    if size == 0 {
        return Ok(0);
    }
    chain::way(list, RECORD, 1)
}

// What is left by a record: the next record, and how many bytes its line has.
#[derive(Clone, Copy)]
struct Ran {
    next: usize,
    written: usize,
}

// Does the call of record k, and puts its line at the start of `out`.
fn one(
    list: &[u8],
    k: usize,
    store: &mut Store,
    memory: &mut [u8],
    buffer: &mut [u8],
    out: &mut [u8],
) -> Ran
    requires { loops.Reach list.now k buffer.old out.old }
    ensures lined { loops.Lined list.now k
        (runs.bench store.old memory.old buffer.old)
        (runs.bench store.new memory.new buffer.new)
        out.old out.new result.written result.next }
    ensures written_le_longest { result.written ≤ buffers.longest }
    ensures written_le_brief { (records.code_of (records.record_in list.now k) ≡ 5 → ⊥)
        → result.written ≤ buffers.brief }
{
    let called = record_in(list, k);
    let answer = perform(store, memory, buffer, called);
    let n = answer.map_or(0, |given| given.length());
    let written = lines::call_line(out, k as u8, called.code(), answer, &buffer[..n]).unwrap();
    Ran {
        next: called.next(),
        written,
    }
}

// Does the calls of a chain of `total` records on a memory and a buffer that are new, and puts their lines into `out`.
fn run_calls(
    list: &[u8],
    total: usize,
    memory: &mut [u8],
    buffer: &mut [u8],
    out: &mut [u8],
) -> usize
    requires { loops.Ready list.now total memory.old buffer.old out.old }
    ensures begins { buffers.Begins out.old out.new result (texts.record_lines list.now (texts.chain list.now total) runs.starting) }
    ensures ends { loops.Ends list.now total result }
{
    let mut store = store::starting();
    let mut at = 1;
    let mut end = 0;
    'calls: for _ in 0..total {
        let ran = one(list, at, &mut store, memory, buffer, &mut out[end..]);
        at = ran.next;
        end += ran.written;
    }
    end
}

// Whether no record of a list is a read.
fn quiet(list: &[u8]) -> bool
    ensures { result ≡ texts.quiet list.now }
{
    none_read(list.as_chunks::<RECORD>().0)
}

// Whether none of some records is a read.
fn none_read(some: &[[u8; RECORD]]) -> bool
    ensures { result ≡ list_all (λ r. not (eqb (records.code_of r) 5)) some.now }
{
    some.iter().all(|record| record[CODE] != Code::Read as u8)
}

// How many bytes are enough for the text of a list.
fn room_for(list: &[u8]) -> usize
    ensures { result ≡ texts.room_for list.now }
{
    if quiet(list) { BRIEF_TEXT } else { MOST_TEXT }
}

// Puts the text of the run of a list at the start of `out` and tells how many bytes it has; nothing where `out` has less than
// the list's room, and then no call is done.
pub fn run(list: &[u8], out: &mut [u8]) -> Option<usize>
    ensures begins { buffers.Begins out.old out.new (buffers.filled result) (texts.output_within (length out.old) list.now) }
    ensures there { IsSome result ↔ (texts.room_for list.now ≤ length out.old) }
{
    if out.len() < room_for(list) {
        return None;
    }
    let total = match check(list) {
        Ok(total) => total,
        Err(number) => return lines::refused_line(out, number.code()),
    };
    let mut memory = [0; MEMORY];
    let mut buffer = [0; BUFFER];
    let end = run_calls(list, total, &mut memory, &mut buffer, out);
    let last = lines::end_line(&mut out[end..], total as u8).unwrap();
    Some(end + last)
}
