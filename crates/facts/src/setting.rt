// The effect that gives some bits a value.
ghost use Rattle.std.specs.Prelude.{◌≡◌, ℕ, ◌<◌, Bool};
ghost use Rattle.facts.specs.Masks.{setting, TestedAs};

use bitset::bits::Bits;
use kinds::effect::Effect;

// Bits below `places` become 0 where `zeroed` holds, and else 1 where `raised` holds; all others stay as they are.
pub(crate) fn setting<Z: Fn(usize) -> bool, R: Fn(usize) -> bool>(
    places: usize,
    zeroed: Z,
    raised: R,
) -> Effect<Bits, Bits>
    requires zeroed { (i : ℕ) → i < places → Z.pre zeroed i }
    requires raised { (i : ℕ) → i < places → R.pre raised i }
    ensures { (z r : ℕ → Bool) → TestedAs (Z.post zeroed) places z → TestedAs (R.post raised) places r → result ≡ setting z r }
{
    let mut gate = Bits::every();
    let mut forced = Bits::every();
    // By number, since the tests are of places.
    for place in 0..places {
        if zeroed(place) {
            gate = gate.without(place);
            forced = forced.without(place);
        } else if raised(place) {
            gate = gate.without(place);
        }
    }
    Effect { gate, forced }
}
