// What is done with words of bits.
ghost use Rattle.std.specs.Prelude.{◌≡◌, not};
ghost use Rattle.bitset.specs.Bits.{bit, is_set, bits_from, every, none, both, any, turned, without};

use crate::bits::Bits;

impl Bits {
    // Every bit is 1.
    pub fn every() -> Bits
        ensures { result ≡ every }
    {
        Bits { word: u64::MAX }
    }

    // Every bit is 0.
    pub fn none() -> Bits
        ensures { result ≡ none }
    {
        Bits { word: 0 }
    }

    // Every bit is 1 but those of a mask.
    pub fn except(mask: u16) -> Bits
        ensures { result ≡ bits_from (λ i. not (bit i mask)) }
    {
        Bits {
            word: u64::MAX - u64::from(mask),
        }
    }

    // Whether the bit at a place is 1; past the 64 places none is.
    pub fn bit(self, place: usize) -> bool
        ensures { result ≡ is_set place self }
    {
        place < 64 && (self.word >> place) & 1 == 1
    }

    // The bits that are 1 in both.
    pub fn both(self, other: Bits) -> Bits
        ensures { result ≡ both self other }
    {
        Bits {
            word: self.word & other.word,
        }
    }

    // The bits that are 1 in one of the two.
    pub fn any(self, other: Bits) -> Bits
        ensures { result ≡ any self other }
    {
        Bits {
            word: self.word | other.word,
        }
    }

    // Every bit turned over.
    pub fn turned(self) -> Bits
        ensures { result ≡ turned self }
    {
        Bits { word: !self.word }
    }

    // The word with the bit at a place made 0.
    pub fn without(self, place: usize) -> Bits
        ensures { result ≡ without place self }
    {
        if place >= 64 {
            return self;
        }
        Bits {
            word: self.word & !(1 << place),
        }
    }
}
