// Why the runs of a plan are not listed. What it is made from by `?` is written out, since a `From` that a library derives
// has no contract, and here a contract says which case it gives.
ghost use Rattle.std.specs.Prelude.{◌≡◌};
ghost use Rattle.reference.specs.declared.unlisted.Unlisted.TheVariants.{Refused, NoMemory};

use refusals::refusal::Refusal;
use std::alloc::AllocError;

#[derive(Clone, Copy)]
pub enum Unlisted {
    // the plan is not whole
    Refused(Refusal),
    // it has too many nodes or regions
    TooLarge,
    // it has too many runs
    TooMany,
    // there is no memory
    NoMemory,
}

impl From<Refusal> for Unlisted {
    ghost from_gives = { λ e r. r ≡ Refused e };

    fn from(refusal: Refusal) -> Unlisted {
        Unlisted::Refused(refusal)
    }
}

impl From<AllocError> for Unlisted {
    ghost from_gives = { λ _ r. r ≡ NoMemory };

    fn from(_error: AllocError) -> Unlisted {
        Unlisted::NoMemory
    }
}
