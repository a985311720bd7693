// What is known of the logger beside its plan. It is a record of its own, given beside the plan where it is asked for, since
// the calls that draw neither need it nor alter it.
ghost use Rattle.std.specs.Prelude.{◌≡◌};

// The kept set: bit v is 1 where variable v is read after the plan's end.
#[derive(Clone, Copy)]
pub struct Conditions {
    pub kept: u16,
}

impl Conditions {
    // Nothing is kept.
    pub fn new() -> Conditions
        ensures { result.kept ≡ 0 }
    {
        Conditions { kept: 0 }
    }

    // Replaces the kept set.
    pub fn keep(&mut self, mask: u16)
        ensures { self.new.kept ≡ mask }
    {
        self.kept = mask;
    }
}
