// A kind of fact: values that meet, gates that values pass, and what each step does.
ghost use Rattle.std.specs.Prelude.{◌≡◌, Decides};
ghost use Rattle.kinds.specs.Kinds.{Algebra, Laws};

use crate::effect::Effect;
use plan::statement::Statement;

pub trait Kind {
    type Value: Copy;

    type Gate: Copy;

    // what the functions below compute
    ghost algebra: { Self → Algebra Self.Value Self.Gate };

    fn meet(&self, x: Self::Value, y: Self::Value) -> Self::Value
        ensures { result ≡ (algebra self.now).meet x y };

    fn top(&self) -> Self::Value
        ensures { result ≡ (algebra self.now).top };

    // Whether two values are equal. Not by a bound `Eq`, which says of `==` only that it is an equivalence: a comparison must
    // tell every two values apart.
    fn same(&self, x: Self::Value, y: Self::Value) -> bool
        ensures { Decides result (x ≡ y) };

    // The gate that lets every value pass.
    fn open(&self) -> Self::Gate
        ensures { result ≡ (algebra self.now).open_gate };

    // The gate that lets none pass.
    fn shut(&self) -> Self::Gate
        ensures { result ≡ (algebra self.now).shut_gate };

    // One gate after the other.
    fn series(&self, g: Self::Gate, h: Self::Gate) -> Self::Gate
        ensures { result ≡ (algebra self.now).series g h };

    // The one gate or the other.
    fn either(&self, g: Self::Gate, h: Self::Gate) -> Self::Gate
        ensures { result ≡ (algebra self.now).either g h };

    // Whether two gates are equal, likewise.
    fn same_gate(&self, g: Self::Gate, h: Self::Gate) -> bool
        ensures { Decides result (g ≡ h) };

    // What a gate leaves of a value.
    fn through(&self, g: Self::Gate, x: Self::Value) -> Self::Value
        ensures { result ≡ (algebra self.now).through g x };

    // What a step does, given by its number and statement.
    fn effect(&self, node: usize, statement: Statement) -> Effect<Self::Gate, Self::Value>
        ensures { result ≡ (algebra self.now).effect node statement };

    ghost lawful: { (k : Self) → Laws (algebra k) };
}
