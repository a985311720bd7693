// Tenths as text, both ways.
use refusals::refusal::Refusal;
use std::process::Abort;
use std::test::Fail;

// Writes a number, compares the bytes, and reads them again.
fn both_ways(rt: &impl Abort, number: i32, text: &[u8]) -> Result<(), Fail> {
    let mut out = [b'x'; 13];
    let length = tenths::write(number, &mut out)?;
    assert_eq!(rt; length, text.len());
    assert_eq!(rt; out.get(..length), Some(text));
    assert_eq!(rt; out[12], b'x');
    assert_eq!(rt; tenths::read(text), Ok(number));
    Ok(())
}

#[test]
fn texts_of_numbers(rt: HostRuntime) -> Result<(), Fail> {
    both_ways(&rt, -4, b"-0.4")?;
    both_ways(&rt, 0, b"0.0")?;
    both_ways(&rt, 7, b"0.7")?;
    both_ways(&rt, -10, b"-1.0")?;
    both_ways(&rt, 125, b"12.5")?;
    both_ways(&rt, -2147483648, b"-214748364.8")?;
    both_ways(&rt, 2147483647, b"214748364.7")
}

#[test]
fn twelve_bytes_are_needed(rt: HostRuntime) {
    let mut eleven = [b'x'; 11];
    assert_eq!(rt; tenths::write(0, &mut eleven), Err(Refusal::Short));
    assert!(rt; eleven == [b'x'; 11]);
    let mut twelve = [b'x'; 12];
    assert_eq!(rt; tenths::write(0, &mut twelve), Ok(3));
    assert!(rt; twelve == *b"0.0xxxxxxxxx");
}

#[test]
fn other_texts_are_refused(rt: HostRuntime) {
    let texts: [&[u8]; 16] = [
        b"-0.0",
        b"05.0",
        b"1",
        b"1.",
        b".5",
        b"",
        b"+1.0",
        b"1.00",
        b"214748364.8",
        b"-214748364.9",
        b"1,0",
        b"--1.0",
        b"1.0 ",
        b"\xff.0",
        b"99999999999999999999.0",
        b"-",
    ];
    for text in texts {
        assert_eq!(rt; tenths::read(text), Err(Refusal::NotTenths));
    }
}
