// The entries of a register worked out: up the way from an entry to what is known, and down again, each step from the entry
// that it was weakened from.
ghost use Rattle.std.specs.Prelude.{◌≡◌, ◌/◌, ◌≤◌, [], ◌∷◌, length, replicate, None};
ghost use Rattle.handle.specs.Conversion.{product};
ghost use Rattle.register.specs.Registers as spec;
ghost use Rattle.register.specs.inner.Work as work;

use crate::{ENTRY, Fault, ROOM, Seen};
use aes::Tables;
use handle::Handle;
use numbers::Number;

// The subselectors of a handle: so many cuts it can take.
const CUTS: u16 = 4;

// Where a climb ends: so many entries met, and above them one that is known, with what is seen of its handle.
#[derive(Clone, Copy)]
struct Climbed {
    met: usize,
    above: usize,
    seen: Seen,
}

// What is seen of a handle.
fn seen_of(handle: Handle) -> Seen
    requires { work.Standing handle }
    ensures { work.Sees handle result }
{
    let flat = match handle.first_flat() {
        Some(place) => place as u16,
        None => CUTS,
    };
    Seen {
        set: handle.common(),
        flat,
    }
}

// An entry's two bytes: the entry that it was weakened from, and the mask used.
fn pair(entries: &[u8], entry: usize) -> [u8; ENTRY]
    requires { work.IsEntry entries.now entry }
    ensures { result ≡ spec.parent_of entries.now entry ∷ spec.mask_of entries.now entry ∷ [] }
{
    let (pairs, _) = entries.as_chunks::<ENTRY>();
    pairs[entry - 1]
}

// Up the way from an entry until one that is known, keeping the entries met; or the number of the way.
fn climb(
    entries: &[u8],
    known: &[Option<Seen>; ROOM],
    path: &mut [u8; ROOM],
    from: usize,
) -> Result<Climbed, Number>
    requires { work.Small entries.now known.now path.old from }
    ensures { work.Climbs entries.now known.now path.new from result }
{
    let n = entries.len() / ENTRY;
    let mut at = from;
    for met in 0..=n {
        if let Some(seen) = known[at] {
            return Ok(Climbed {
                met,
                above: at,
                seen,
            });
        }
        if n < at {
            return Err(Number::Link);
        }
        path[met] = at as u8;
        let [from, _] = pair(entries, at);
        at = usize::from(from);
    }
    Err(Number::Loop)
}

// What a mask leaves of what was seen of a handle, or nothing where it cuts nothing; or the number of the weakening.
fn narrow(seen: Seen, mask: u16) -> Result<Option<Seen>, Number>
    ensures { work.Narrows seen mask result }
{
    let kept = seen.set & mask;
    if kept == 0 {
        return Err(Number::Empty);
    }
    if seen.set & !mask == 0 {
        return Ok(None);
    }
    if CUTS <= seen.flat {
        return Err(Number::Spent);
    }
    Ok(Some(Seen {
        set: kept,
        flat: seen.flat + 1,
    }))
}

// The handle that a weakening leaves: a weaker one where it cuts, else the same.
fn weaker(tables: &Tables, cut: bool, parent: Handle, mask: u16) -> Handle
    ensures { work.Weaker product cut parent mask result }
{
    if !cut {
        return parent;
    }
    parent
        .weaken_with(tables, mask)
        .map_or(parent, |weaker| weaker.handle)
}

// An entry from the one above it, that it was weakened from: what is seen of its handle, and in its place the handle, where handles
// are wanted; or the number of the weakening.
// Stays: `wanted` is no closure and no `Option` of the array: the one would hold what the next step reads, the other be taken
// apart and lent again at each step.
fn step(
    tables: &Tables,
    wanted: bool,
    seen: Seen,
    handles: &mut [Handle; ROOM],
    above: usize,
    entry: usize,
    mask: u16,
) -> Result<Seen, Number>
    requires above_bound { above ≤ 255 }
    requires entry_bound { entry ≤ 255 }
    ensures { work.Steps product wanted seen handles.old above entry mask handles.new result }
{
    let cut = narrow(seen, mask)?;
    if wanted {
        handles[entry] = weaker(tables, cut.is_some(), handles[above], mask);
    }
    Ok(cut.unwrap_or(seen))
}

// Works the entries out in order, each once and from the one that it was weakened from; or the lowest entry that fails. By the
// entries' numbers, with the handle supplied at 0: what is seen of their handles, and these, where they are wanted.
// Stays: two arrays. One of entries that have both took 5.9 us for 255 entries where no handle is wanted, and two took 2.7.
pub fn work_out(
    tables: &Tables,
    wanted: bool,
    handle: Handle,
    entries: &[u8],
    seen: &mut [Option<Seen>; ROOM],
    handles: &mut [Handle; ROOM],
) -> Result<(), Fault>
    requires entries_len_bound { length entries.now / 2 ≤ 255 }
    requires none { seen.old ≡ replicate 256 None }
    requires standing { work.Standing handle }
    ensures { work.Works product handle entries.now wanted seen.new handles.new result }
{
    let n = entries.len() / ENTRY;
    seen[0] = Some(seen_of(handle));
    handles[0] = handle;
    let mut path = [0u8; ROOM];
    for k in 1..n + 1 {
        let climbed = climb(entries, seen, &mut path, k).map_err(|number| Fault {
            number,
            entry: k,
        })?;
        let mut above = climbed.above;
        let mut sight = climbed.seen;
        // Stays: down by places, of which the loop's invariant speaks; the iterator's name for what it has left is no plainer.
        for i in (0..climbed.met).rev() {
            let j = path[i] as usize;
            let [_, mask] = pair(entries, j);
            sight = step(tables, wanted, sight, handles, above, j, u16::from(mask)).map_err(
                |number| Fault { number, entry: k },
            )?;
            seen[j] = Some(sight);
            above = j;
        }
    }
    Ok(())
}
