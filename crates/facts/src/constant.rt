// What is known of the value of a variable.
ghost use Rattle.std.specs.Prelude.{◌≡◌};
ghost use Rattle.facts.specs.Numbers.{number_of, Fits32};

#[derive(Clone, Copy, PartialEq, Eq, Debug)]
pub enum Constant {
    // nothing yet
    Unknown,
    // it is this number of tenths
    Number(i32),
    // it is no one number
    Unfixed,
}

impl Constant {
    // The number that is known, if one is.
    pub fn number(self) -> Option<i32>
        ensures value { result ≡ number_of self }
        ensures fits { Fits32 result }
    {
        match self {
            Constant::Number(number) => Some(number),
            Constant::Unknown | Constant::Unfixed => None,
        }
    }
}

// Whether what is known before a step is known behind it.
#[derive(Clone, Copy, PartialEq, Eq)]
pub enum Door {
    Open,
    Shut,
}
