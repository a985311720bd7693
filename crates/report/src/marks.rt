// What is found of the nodes of a plan, as a report tells it.
ghost use Rattle.std.specs.Prelude.{◌≡◌, ◌≤◌, length};

// A byte for each node in each of the two lists, and a slot for the number that it sends. They are three slices side by
// side, since `redundant` and `dead` each write bytes into a buffer that they are lent.
#[derive(Clone, Copy)]
pub(crate) struct Marks<'a> {
    pub(crate) redundant: &'a [u8],
    pub(crate) dead: &'a [u8],
    pub(crate) sent: &'a [Option<i32>],
    ghost dead_along: { length redundant.now ≡ length dead.now },
    ghost sent_along: { length redundant.now ≤ length sent.now },
}
