// A signed count of tenths of a degree, written and read as text: -4 is `-0.4`.
#![tactic(auto)]

ghost use Rattle.tenths.specs.Text.{Writes, Reads, Inverse};

use reading::{after_minus, below_zero, from_zero, read_size};
use refusals::refusal::Refusal;
pub use writing::LONGEST;
use writing::put_number;

pub mod label;
mod reading;
mod writing;

// Writes the text of `number` at the front of `out`, leaves the rest, and answers its length. Fewer than 12 bytes are
// refused, whatever the number, and stay as they are.
pub fn write(number: i32, out: &mut [u8]) -> Result<usize, Refusal>
    ensures { Writes number out.old out.new result }
{
    if out.len() < LONGEST {
        return Err(Refusal::Short);
    }
    let mut text = [0; LONGEST];
    let start = put_number(number, &mut text);
    let used = LONGEST - start;
    out[0..used].copy_from_slice(&text[start..LONGEST]);
    Ok(used)
}

// The number whose text this is, just as it would be written; any other text is refused.
pub fn read(text: &[u8]) -> Result<i32, Refusal>
    ensures reads { Reads text.now result }
    ensures inverse { Inverse }
{
    let number = match after_minus(text) {
        Some(rest) => read_size(rest).and_then(below_zero),
        None => read_size(text).and_then(from_zero),
    };
    number.ok_or(Refusal::NotTenths)
}
