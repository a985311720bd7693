// The text of a number, put at the end of as many bytes as the longest has, since its digits are put before a place.
ghost use Rattle.std.specs.Prelude.{◌≡◌, ◌^◌, ◌<◌, ◌≤◌, drop};
ghost use Rattle.tenths.specs.Text.{size_text, text_of};

use itoa::write_digits;

// The bytes of the longest text, `-214748364.8`.
pub const LONGEST: usize = 12;

// Puts a size at the end, and answers where it starts.
fn put_size(size: u32, text: &mut [u8; LONGEST]) -> usize
    requires { size ≤ 2 ^ 31 }
    ensures { (1 ≤ result) × (result < 10) × (drop result text.new ≡ size_text size) }
{
    text[LONGEST - 1] = b'0' + (size % 10) as u8;
    text[LONGEST - 2] = b'.';
    write_digits(u64::from(size / 10), text, LONGEST - 2)
}

// Puts a number at the end, and answers where it starts.
pub(crate) fn put_number(number: i32, text: &mut [u8; LONGEST]) -> usize
    ensures { (result < 12) × (drop result text.new ≡ text_of number) }
{
    let negative = number < 0;
    let start = put_size(number.unsigned_abs(), text);
    if negative {
        text[start - 1] = b'-';
        start - 1
    } else {
        start
    }
}
