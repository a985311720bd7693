// The number and the place by which a refusal is known.
ghost use Rattle.std.specs.Prelude.{◌≡◌};
ghost use Rattle.refusals.specs.Table.{number_of, place_of};

use crate::refusal::Refusal;

impl Refusal {
    // Its number in the table. The enum is what code goes by; the number is what a refusal is known by outside, and what it prints.
    pub fn number(self) -> u8
        ensures { result ≡ number_of self }
    {
        match self {
            Refusal::Missing => 1,
            Refusal::Operand => 2,
            Refusal::Branches => 3,
            Refusal::Outside => 4,
            Refusal::Repeated => 5,
            Refusal::NotStep => 6,
            Refusal::Full => 7,
            Refusal::NoEnds(_) => 8,
            Refusal::Unreached(_) => 9,
            Refusal::Stranded(_) => 10,
            Refusal::TooManyExpressions(_) => 11,
            Refusal::Short => 12,
            Refusal::NotTenths => 13,
        }
    }

    // The region or node that it speaks of, else 0. It is told beside the number.
    pub fn place(self) -> usize
        ensures { result ≡ place_of self }
    {
        match self {
            Refusal::NoEnds(region) => region,
            Refusal::Unreached(node)
            | Refusal::Stranded(node)
            | Refusal::TooManyExpressions(node) => node,
            _ => 0,
        }
    }
}
