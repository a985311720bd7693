// The variables are 0 to 15, and the probes 0 to 7.
pub const VARIABLES: u32 = 16;

pub const PROBES: u32 = 8;

// What a step does. v, a and b are variables, p is a probe.
#[derive(Clone, Copy)]
pub enum Statement {
    // nothing
    Idle,
    // lets time pass: every probe has to be read anew
    Wait,
    // v becomes a number of tenths
    Set(u32, i32),
    // v becomes a
    Copy(u32, u32),
    // a is sent
    Send(u32),
    // v becomes what p shows
    Probe(u32, u32),
    // v becomes a + b
    Add(u32, u32, u32),
    // v becomes a - b
    Sub(u32, u32, u32),
    // v becomes the smaller of a and b
    Min(u32, u32, u32),
    // v becomes the larger of a and b
    Max(u32, u32, u32),
}
