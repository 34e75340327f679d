// A map of bits in words of 64: the bits of a span are set word by word, those of its first and its last word by masks; bits are
// looked for word by word, the first in a word by the zeros below it.
#![tactic(auto)]

ghost use Rattle.std.specs.Prelude.{◌≡◌, suc, ◌-◌, ◌*◌, ◌%◌, ◌^◌, ◌≤◌, ◌<◌, eqb, length, IfSome, IfNone};
ghost use Rattle.std.specs.Int.Bits.{bit_and, bit_or};
ghost use Rattle.bits.specs.Sets.{full};
ghost use Rattle.spans.specs.Spans as spans;

// Bits of a word.
pub const WORD: usize = 64;

// The bit of its word that bit i of a map is.
fn bit(i: usize) -> u64
    ensures { (result ≡ 2 ^ (i % spans.word_bits)) × ((1 ≤ result) × (result ≤ 2 ^ 63)) }
{
    1 << (i % WORD)
}

// The bits of a word from that of bit `first` on.
fn from_on(first: usize) -> u64
    ensures { result ≡ spans.all - full (first % spans.word_bits) }
{
    !(bit(first) - 1)
}

// The bits of a word up to that of bit `last`, and that one too.
fn up_to(last: usize) -> u64
    ensures { result ≡ full (suc (last % spans.word_bits)) }
{
    let b = bit(last);
    (b - 1) + b
}

// Sets the bits of a mask in a word, and tells whether none of them was set.
fn touch(word: &mut u64, mask: u64) -> bool
    ensures { (result ≡ eqb (bit_and word.old mask) 0) × (word.new ≡ bit_or word.old mask) }
{
    let fresh = (*word & mask) == 0;
    *word |= mask;
    fresh
}

// Sets every bit of the words from `first` up to `last`, and tells whether none was set. No early exit: a loop without one
// is quicker here.
fn whole(map: &mut [u64], first: usize, last: usize) -> bool
    requires { (first ≤ last) × (last ≤ length map.old) }
    ensures { spans.Stamped (first * spans.word_bits) (last * spans.word_bits) map.old result map.new }
{
    let mut fresh = true;
    for word in &mut map[first..last] {
        fresh &= touch(word, u64::MAX);
    }
    fresh
}

// Sets the bits from `from` up to `to`, and tells whether none of them was set; a span that is empty or does not lie
// inside the map is refused, and the map left as it was.
pub fn mark(map: &mut [u64], from: usize, to: usize) -> bool
    ensures { spans.Marked from to map.old result map.new }
{
    if to <= from {
        return false;
    }
    let end = to - 1;
    let first = from / WORD;
    let last = end / WORD;
    if map.len() <= last {
        return false;
    }
    let low = from_on(from);
    let high = up_to(end);
    if first == last {
        return touch(&mut map[first], low & high);
    }
    let a = touch(&mut map[first], low);
    let inner = whole(map, first + 1, last);
    let z = touch(&mut map[last], high);
    z & (inner & a)
}

// Which bits are looked for.
#[derive(Clone, Copy)]
enum Sought {
    Set,
    Clear,
}

impl Sought {
    // The bits of a word that are sought.
    fn of(self, word: u64) -> u64
        ensures { spans.Picked self word result }
    {
        match self {
            Sought::Set => word,
            Sought::Clear => !word,
        }
    }
}

// The first bit from `from` on and before `to` that is sought, if there is one.
fn next(map: &[u64], from: usize, to: usize, sought: Sought) -> Option<usize>
    requires { to ≤ length map.now * spans.word_bits }
    ensures found { IfSome result (spans.First sought map.now from to) }
    ensures none { IfNone result (spans.Without sought map.now from to) }
{
    let mut mask = from_on(from);
    for at in from / WORD..to.div_ceil(WORD) {
        let w = sought.of(map[at]) & mask;
        if w != 0 {
            let place = at * WORD + w.trailing_zeros() as usize;
            return (place < to).then_some(place);
        }
        mask = u64::MAX;
    }
    None
}

// The least start of `size` clear bits in a row, if there is one. A run that is too short ends at a bit that is set, and no
// start up to that bit has room.
pub fn room(map: &[u64], size: usize) -> Option<usize>
    requires some { (1 ≤ size) × (size ≤ length map.now * spans.word_bits) }
    requires short { length map.now * spans.word_bits < 2 ^ 32 }
    ensures inside { IfSome result (λ r. r < length map.now * spans.word_bits) }
    ensures least { spans.Room size map.now (spans.or_end map.now result) }
{
    let starts = map.len() * WORD - size + 1;
    let mut base = 0;
    while let Some(start) = next(map, base, starts, Sought::Clear) {
        let Some(end) = next(map, start, start + size, Sought::Set) else {
            return Some(start);
        };
        base = end;
    }
    None
}
