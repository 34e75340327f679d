// Validation of one handle, and of many against one store: it is judged sound, and the cipher's tables are taken, once.
ghost use Rattle.std.specs.Prelude.{◌≡◌, [], ◌*◌, ◌≤◌, length};
ghost use Rattle.calls.specs.Calls as calls;
ghost use Rattle.calls.specs.Steps.{plain};
ghost use Rattle.numbers.specs.Codes.{told};
ghost use Rattle.codec.specs.Held.{bytes_held};
ghost use Rattle.gelmuszta.specs.Exported.{Gives};
ghost use Rattle.gelmuszta.specs.Validation as spec;

use crate::look_up;
use aes::Tables;
use codec::HELD;
use handle::{Handle, Width};
use image::IMAGE;
use numbers::Number;
use refusals::Opened;

// Validation asked for by itself: the number that reduction would give.
#[unsafe(no_mangle)]
pub extern "C" fn gelmuszta_validate(image: &[u8; IMAGE], mode: usize, handle: &[u8; HELD]) -> u8
    ensures { Gives (calls.validating mode (bytes_held handle.now)) image.now (plain result []) image.now }
{
    numbers::told(&validate(image, mode, handle))
}

// That the handle is valid, or its refusal.
fn validate(image: &[u8; IMAGE], mode: usize, held: &[u8; HELD]) -> Result<(), Number>
    ensures { Gives (calls.validating mode (bytes_held held.now)) image.now (plain (told result) []) image.now }
{
    let opened = look_up(image, held)?;
    cluster::validate(&Tables::new(), &opened, mode)
}

// Judges as many handles as there are places for numbers.
fn judge(
    tables: &Tables,
    sound: bool,
    image: &[u8; IMAGE],
    mode: usize,
    each: usize,
    handles: &[u8],
    numbers: &mut [u8],
)
    requires { length numbers.old * each ≤ length handles.now }
    ensures { spec.Judged sound image.now mode each handles.now numbers.old numbers.new }
{
    for (turn, number) in numbers.iter_mut().enumerate() {
        let from = turn * each;
        let to = from + each;
        let handle = Handle::decode(&handles[from..to]);
        let cluster = image::record_in(image, handle.node(), handle.local as usize);
        let opened = Opened {
            sound,
            handle,
            cluster,
        };
        *number = numbers::told(&cluster::validate(tables, &opened, mode));
    }
}

// The numbers that validation gives to handles of one width, one after the other: as many as `handles` has whole and
// `numbers` has places for. How many these are is returned; the places behind stay as they were. Where the width is none of
// the three, no handle is judged.
#[unsafe(no_mangle)]
pub extern "C" fn gelmuszta_validate_all(
    image: &[u8; IMAGE],
    mode: usize,
    width: usize,
    handles: &[u8],
    numbers: &mut [u8],
) -> usize
    ensures told { result ≡ spec.as_many (spec.each width) handles.now numbers.old }
    ensures numbers { spec.NumbersAre image.now mode (spec.each width) handles.now numbers.old numbers.new }
{
    let tables = Tables::new();
    let sound = image::sound_in(image);
    let kind = Width::from_bits(width);
    let each = kind.length();
    let whole = handles.len().checked_div(each).unwrap_or(0);
    let count = whole.min(numbers.len());
    judge(
        &tables,
        sound,
        image,
        mode,
        each,
        handles,
        &mut numbers[0..count],
    );
    count
}
