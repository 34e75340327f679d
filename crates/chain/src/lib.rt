// The way from a record to zero (document 01, "The list of calls"): records of one width lie one after the other,
// numbered from 1, and the first byte of each is the number of its next.
#![tactic(auto)]

ghost use Rattle.std.specs.Prelude.{◌≡◌};
ghost use Rattle.chain.specs.Way.{walked};
ghost use Rattle.chain.specs.Bytes.{way_in};

use numbers::Number;

// How many records the way from the record `from` meets. One that has met as many records as there are and goes on comes to
// one of them again, so that the count tells a loop, and no map of the records met is kept.
pub fn way(bytes: &[u8], width: usize, from: usize) -> Result<usize, Number>
    ensures { walked result ≡ way_in bytes.now width from }
{
    let n = bytes.len().checked_div(width).unwrap_or(0);
    let mut at = from;
    for met in 0..=n {
        if at == 0 {
            return Ok(met);
        }
        if n < at {
            return Err(Number::Link);
        }
        at = usize::from(bytes[(at - 1) * width]);
    }
    Err(Number::Loop)
}
