// Reads a list of calls from standard input, runs it from the starting store, and writes its text to standard output
// (document 01, "The list of calls"). Where a read or a write fails, standard error says so; after a failed read nothing
// has been written, and after a failed write the last line is missing.
#![tactic(auto)]

ghost use Rattle.std.specs.Prelude.{◌≡◌, ◌<◌, IfOk, OnOk, IfSome, length, take};
ghost use Rattle.std.specs.Io.KnownBytes.{Appends};
ghost use Rattle.std.specs.Counts.{IsPrefixLen};
ghost use Rattle.list.specs.Records.{most_bytes};
ghost use Rattle.list.specs.Texts.{output};

use list::{BRIEF_TEXT, MOST_TEXT};
use std::io;
use std::io::{Read, Write};

// The bytes that are read at most: one record more than a list has, so that a longer input is seen to be none.
const SPACE: usize = 16384;

// Reads an input to its end, or until the space is full, and tells how many bytes it has. The space is larger than any list,
// so that an input which is cut there is refused as the whole of it would be. Where the bytes of the input are known, as those
// of standard input are not, the space then has them, as many as it holds.
fn read_list<R: Read>(from: &mut R, space: &mut [u8]) -> io::Result<usize>
    requires { most_bytes < length space.old }
    ensures count { IfOk result (λ n. IsPrefixLen n space.new) }
    ensures bytes { IfOk result (λ n. IfSome (R.remaining from.old)
        (λ xs. take n space.new ≡ take (length space.new) xs)) }
{
    let mut have = 0;
    while have < space.len() {
        let more = from.read(&mut space[have..])?;
        if more == 0 {
            return Ok(have);
        }
        have += more;
    }
    Ok(have)
}

// Writes the text of a list. No contract can say what the system does with it; the `requires` says what it is handed. A
// writer of which it is known what it holds holds the text at its end where nothing failed.
fn write_text<W: Write>(to: &mut W, list: &[u8], text: &[u8]) -> io::Result<()>
    requires { text.now ≡ output list.now }
    ensures { OnOk result (Appends (W.contents to.old) (W.contents to.new) (output list.now)) }
{
    to.write_all(text)
}

// A room of so many bytes.
fn blank<const N: usize>() -> [u8; N]
    ensures { length result ≡ N }
{
    [0; N]
}

// Runs a list in the large room and writes its text. It is never inlined: a function touches the pages of all its room as it
// begins, and those of the large one take longer than most lists.
#[inline(never)]
fn run_large<W: Write>(to: &mut W, list: &[u8]) -> io::Result<()>
    ensures { OnOk result (Appends (W.contents to.old) (W.contents to.new) (output list.now)) }
{
    let mut out = blank::<MOST_TEXT>();
    let size = list::run(list, &mut out).unwrap();
    write_text(to, list, &out[..size])
}

// Runs a list and writes its text, in the small room. Where that may be too little no call is done there, and the list is run in
// the large one.
fn run<W: Write>(to: &mut W, list: &[u8]) -> io::Result<()>
    ensures { OnOk result (Appends (W.contents to.old) (W.contents to.new) (output list.now)) }
{
    let mut out = blank::<BRIEF_TEXT>();
    match list::run(list, &mut out) {
        Some(size) => write_text(to, list, &out[..size]),
        None => run_large(to, list),
    }
}

fn main(rt: HostRuntime) {
    let mut space = [0u8; SPACE];
    let Ok(size) = read_list(&mut rt.stdin(), &mut space) else {
        let _ = eprintln!(rt; "benchrun: the list could not be read");
        return;
    };
    if run(&mut rt.stdout(), &space[..size]).is_err() {
        let _ = eprintln!(rt; "benchrun: the text could not be written whole");
    }
}
