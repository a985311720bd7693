// The parts of a number's text: a sign, digits, a dot and a last digit.
ghost use Rattle.std.specs.Prelude.{◌≡◌, ◌≢◌, ◌+◌, ◌<◌, ◌≤◌, [], ◌∷◌, ◌++◌, IfSome, MatchOption, decimal, slice_index};
ghost use Rattle.tenths.specs.Scan.{Stands, largest_whole, largest_size, Spelt, Named, front};
ghost use Rattle.tenths.specs.Text.{size_text};

// The largest whole part: that of the smallest and of the largest number.
const WHOLE_MAX: u32 = 214748364;

// What a byte can stand for.
#[derive(Clone, Copy)]
enum Mark {
    Minus,
    Dot,
    Digit(u8),
    Other,
}

// Tells by its character what a byte stands for.
fn mark_of(byte: u8) -> Mark
    ensures { Stands byte result }
{
    match char::from(byte) {
        '-' => Mark::Minus,
        '.' => Mark::Dot,
        '0'..='9' => Mark::Digit(byte - b'0'),
        _ => Mark::Other,
    }
}

// The text behind a minus in front, if there is one.
pub(crate) fn after_minus(text: &[u8]) -> Option<&[u8]>
    ensures { MatchOption result (slice_index text.now 0 ≢ 45) (λ rest. text.now ≡ 45 ∷ rest.now) }
{
    let (first, rest) = text.split_first()?;
    match mark_of(*first) {
        Mark::Minus => Some(rest),
        _ => None,
    }
}

// A whole part, `None` before its first digit, with one digit more.
fn with_digit(whole: Option<u32>, digit: u8) -> Option<u32>
    requires { (digit < 10) × (IfSome whole (λ n. n ≤ largest_whole)) }
    ensures { Spelt decimal largest_whole (front whole ++ (48 + digit) ∷ []) result }
{
    let units = u32::from(digit);
    let Some(tens) = whole else {
        return Some(units);
    };
    // no digit follows a 0 in front
    let padded = tens == 0;
    let next = tens * 10 + units;
    if padded || next > WHOLE_MAX {
        None
    } else {
        Some(next)
    }
}

// The whole part that digits write, with no 0 in front unless it is 0.
fn read_whole(digits: &[u8]) -> Option<u32>
    ensures { Spelt decimal largest_whole digits.now result }
{
    let mut whole = None;
    for byte in digits {
        let Mark::Digit(digit) = mark_of(*byte) else {
            return None;
        };
        whole = Some(with_digit(whole, digit)?);
    }
    whole
}

// The size that a text with no sign writes.
pub(crate) fn read_size(text: &[u8]) -> Option<u32>
    ensures { Spelt size_text largest_size text.now result }
{
    let [digits @ .., dot, last] = text else {
        return None;
    };
    let Mark::Dot = mark_of(*dot) else {
        return None;
    };
    let Mark::Digit(tenths) = mark_of(*last) else {
        return None;
    };
    let whole = read_whole(digits)?;
    Some(whole * 10 + u32::from(tenths))
}

// The number of a size with a minus before it.
pub(crate) fn below_zero(size: u32) -> Option<i32>
    ensures { Named (45 ∷ size_text size) result }
{
    // `-0.0` is the text of no number
    let zero = size == 0;
    if zero {
        return None;
    }
    i32::try_from(-i64::from(size)).ok()
}

// The number of a size with no minus.
pub(crate) fn from_zero(size: u32) -> Option<i32>
    ensures { Named (size_text size) result }
{
    i32::try_from(size).ok()
}
