// The lines that `benchrun` writes (document 01, "The list of calls"), each put at the start of a lent buffer.
#![tactic(auto)]

ghost use Rattle.std.specs.Prelude.{◌+◌, ◌*◌, ◌≤◌, ◌<◌, ◌≡◌, ◌↔◌, IsSome, Ok, [], ◌∷◌, ◌++◌, length};
ghost use Rattle.handle.specs.Widths.{most_bytes};
ghost use Rattle.handle.specs.Handles.{bytes_in};
ghost use Rattle.lines.specs.Text as text;
ghost use Rattle.lines.specs.Text.{decimal, hexadecimal};
ghost use Rattle.lines.specs.Lines.{spaced, plain, gives, end_word, refused_word};
ghost use Rattle.lines.specs.Buffers.{byte_digits, longest_head, longest, brief, longest_with};
ghost use Rattle.lines.specs.Buffers.{call_line_within, stopped_within, word_line_within, filled, Begins, Room, Adds, HasRoom};

use calls::{Answer, Code, Given};
use handle::{HANDLE_BYTES, HandleBytes};
use sizes::NODE_MEMORY;

// The most decimal digits of a byte.
const BYTE_DIGITS: usize = 3;

// The most bytes of a call's line: three numbers with a space after each, the longest segment, the line feed.
pub const LONGEST: usize = 3 * (BYTE_DIGITS + 1) + 2 * NODE_MEMORY + 1;

// The most bytes of the line of any call but a read: three numbers and two of the longest handles, a space or the line feed
// after each.
pub const BRIEF: usize = 3 * (BYTE_DIGITS + 1) + 2 * (2 * HANDLE_BYTES + 1);

// The most bytes after the word of a line: a space, a number, the line feed.
const AFTER_WORD: usize = 1 + BYTE_DIGITS + 1;

// Stays: digits by hand. `write!` would need an `impl fmt::Write` for `Line` with what it says of the bytes, which is longer.
fn digit(d: u8) -> u8
    requires { d < 16 }
    ensures { result ≡ text.digit d }
{
    if d < 10 { b'0' + d } else { b'a' + (d - 10) }
}

// A line that is being put: the buffer, and how many of its first bytes the line has so far.
#[derive(Drop)]
struct Line<'a> {
    out: &'a mut [u8],
    at: usize,
}

impl Line<'_> {
    // Bytes as they are.
    fn put(&mut self, bytes: &[u8])
        requires { Room self.old (length bytes.now) }
        ensures { Adds self.old self.new bytes.now }
    {
        let end = self.at + bytes.len();
        self.out[self.at..end].copy_from_slice(bytes);
        self.at = end;
    }

    // Stays: as `digit` does.
    fn put_decimal(&mut self, n: u8)
        requires { Room self.old byte_digits }
        ensures adds { Adds self.old self.new (decimal n) }
        ensures upper_bound { self.new.at ≤ self.old.at + byte_digits }
    {
        if n < 10 {
            self.put(&[b'0' + n]);
        } else if n < 100 {
            self.put(&[b'0' + n / 10, b'0' + n % 10]);
        } else {
            self.put(&[b'0' + n / 100, b'0' + n / 10 % 10, b'0' + n % 10]);
        }
    }

    // Stays: as `digit` does.
    fn put_hexadecimal(&mut self, bytes: &[u8])
        requires { Room self.old (2 * length bytes.now) }
        ensures adds { Adds self.old self.new (hexadecimal bytes.now) }
        ensures value { self.new.at ≡ self.old.at + 2 * length bytes.now }
    {
        for b in bytes {
            self.put(&[digit(*b / 16), digit(*b % 16)]);
        }
    }

    // A space, and a number.
    fn put_number(&mut self, n: u8)
        requires { Room self.old (1 + byte_digits) }
        ensures adds { Adds self.old self.new (spaced (decimal n ∷ [])) }
        ensures upper_bound { self.new.at ≤ self.old.at + (1 + byte_digits) }
    {
        self.put(b" ");
        self.put_decimal(n);
    }

    // A space, and bytes.
    fn put_bytes(&mut self, bytes: &[u8])
        requires { Room self.old (1 + 2 * length bytes.now) }
        ensures adds { Adds self.old self.new (spaced (hexadecimal bytes.now ∷ [])) }
        ensures value { self.new.at ≡ self.old.at + (1 + 2 * length bytes.now) }
    {
        self.put(b" ");
        self.put_hexadecimal(bytes);
    }

    // A space, and the bytes of a handle, as many as its length tells; all of them where that is more.
    fn put_handle(&mut self, handle: HandleBytes)
        requires { Room self.old (1 + 2 * most_bytes) }
        ensures adds { Adds self.old self.new (spaced (hexadecimal (bytes_in handle) ∷ [])) }
        ensures upper_bound { self.new.at ≤ self.old.at + (1 + 2 * most_bytes) }
    {
        let size = HANDLE_BYTES.min(usize::from(handle.length));
        self.put_bytes(&handle.bytes[..size]);
    }

    // The three numbers that a call's line begins with.
    fn put_head(&mut self, record: u8, code: u8, number: u8)
        requires { Room self.old longest_head }
        ensures adds { Adds self.old self.new (decimal «record» ++ spaced (decimal code ∷ decimal number ∷ [])) }
        ensures upper_bound { self.new.at ≤ self.old.at + longest_head }
    {
        self.put_decimal(record);
        self.put_number(code);
        self.put_number(number);
    }

    // What stands after the number: what a call done gives.
    fn put_told(&mut self, code: u8, given: Given, segment: &[u8])
        requires at_le_longest_head { self.old.at ≤ longest_head }
        requires has_room { HasRoom (length self.old.out.now) (length segment.now) }
        ensures adds { Adds self.old self.new (spaced (gives code (plain (Ok given)) segment.now)) }
        ensures upper_bound { self.new.at < longest }
        ensures upper_bound_2 { (code ≡ 5 → ⊥) → self.new.at < brief }
    {
        let Ok(called) = Code::try_from(code) else {
            return;
        };
        match called {
            Code::NewCluster => {
                self.put_handle(given.first());
                self.put_handle(given.second());
            }
            Code::Reduce | Code::NewPassword | Code::Join => self.put_handle(given.first()),
            Code::Read => self.put_bytes(segment),
            Code::Weaken => {
                self.put_handle(given.first());
                self.put_number(given.count());
            }
            _ => {}
        }
    }
}

// The line of a record's call: its code, what it was answered and, of a read, the segment's bytes. What is told is the
// line's length. Where the buffer is shorter than the longest line, or there are more bytes than a segment has, there is none
// and the buffer stays as it was.
pub fn call_line(
    out: &mut [u8],
    record: u8,
    code: u8,
    answer: Answer,
    segment: &[u8],
) -> Option<usize>
    ensures begins { Begins out.old out.new (filled result)
        (call_line_within (length out.old) «record» code (plain answer) segment.now) }
    ensures there { IsSome result ↔ HasRoom (length out.old) (length segment.now) }
    ensures upper_bound { filled result ≤ longest }
    ensures upper_bound_2 { (code ≡ 5 → ⊥) → filled result ≤ brief }
{
    if out.len() < LONGEST || NODE_MEMORY < segment.len() {
        return None;
    }
    let given = match answer {
        Ok(given) => given,
        Err(number) => return refused_call_line(out, record, code, number.code()),
    };
    let mut line = Line { out, at: 0 };
    line.put_head(record, code, 0);
    line.put_told(code, given, segment);
    line.put(b"\n");
    Some(line.at)
}

// The line of a record's call that is refused with a number, whichever byte that is: its code and the number, and nothing
// after it. Where the buffer is shorter than the longest line, there is none and it stays as it was.
pub fn refused_call_line(out: &mut [u8], record: u8, code: u8, number: u8) -> Option<usize>
    ensures begins { Begins out.old out.new (filled result)
        (stopped_within (length out.old) «record» code number) }
    ensures there { IsSome result ↔ (longest ≤ length out.old) }
    ensures upper_bound { filled result ≤ brief }
{
    if out.len() < LONGEST {
        return None;
    }
    let mut line = Line { out, at: 0 };
    line.put_head(record, code, number);
    line.put(b"\n");
    Some(line.at)
}

// The line of a word and a number. Where the buffer is shorter than the longest such line, there is none and it stays as it
// was.
fn word_line(out: &mut [u8], word: &[u8], n: u8) -> Option<usize>
    ensures begins { Begins out.old out.new (filled result)
        (word_line_within (length out.old) word.now n) }
    ensures there { IsSome result ↔ (longest_with word.now ≤ length out.old) }
    ensures upper_bound { filled result ≤ longest_with word.now }
{
    if out.len() < word.len() + AFTER_WORD {
        return None;
    }
    let mut line = Line { out, at: 0 };
    line.put(word);
    line.put_number(n);
    line.put(b"\n");
    Some(line.at)
}

// The last line: how many records the chain has.
pub fn end_line(out: &mut [u8], n: u8) -> Option<usize>
    ensures begins { Begins out.old out.new (filled result)
        (word_line_within (length out.old) end_word n) }
    ensures there { IsSome result ↔ (longest_with end_word ≤ length out.old) }
    ensures upper_bound { filled result ≤ longest_with end_word }
{
    word_line(out, b"end", n)
}

// The single line of a refused list: its number.
pub fn refused_line(out: &mut [u8], n: u8) -> Option<usize>
    ensures begins { Begins out.old out.new (filled result)
        (word_line_within (length out.old) refused_word n) }
    ensures there { IsSome result ↔ (longest_with refused_word ≤ length out.old) }
    ensures upper_bound { filled result ≤ longest_with refused_word }
{
    word_line(out, b"list", n)
}
