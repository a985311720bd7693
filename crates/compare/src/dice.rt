// Numbers that look drawn, the same in every run of the program.
ghost use Rattle.std.specs.Prelude.{◌<◌};

use plan::statement::Statement;

#[derive(Drop)]
pub(crate) struct Dice {
    state: u64,
}

impl Dice {
    pub(crate) fn new(seed: u64) -> Dice {
        Dice { state: seed }
    }

    // The next number below a bound.
    pub(crate) fn below(&mut self, bound: u64) -> u64
        requires { 0 < bound }
        ensures { result < bound }
    {
        self.state = self
            .state
            .wrapping_mul(6364136223846793005)
            .wrapping_add(1442695040888963407);
        (self.state >> 33) % bound
    }

    // Whether one throw in so many hits.
    pub(crate) fn one_in(&mut self, many: u64) -> bool
        requires { 0 < many }
    {
        self.below(many) == 0
    }

    // One of three variables.
    fn variable(&mut self) -> u32 {
        self.below(3) as u32
    }

    // One of two operands, or one of two probes.
    fn operand(&mut self) -> u32 {
        self.below(2) as u32
    }

    // A statement of any of the ten kinds, over few variables and numbers.
    pub(crate) fn statement(&mut self) -> Statement {
        let v = self.variable();
        let a = self.operand();
        match self.below(16) {
            0 => Statement::Idle,
            1 => Statement::Wait,
            2..=4 => Statement::Set(v, -4),
            5 => Statement::Set(v, 215),
            6 => Statement::Copy(v, a),
            7 => Statement::Send(a),
            8..=10 => Statement::Probe(v, a),
            11 | 12 => Statement::Add(2, a, 1),
            13 => Statement::Sub(2, a, 1),
            14 => Statement::Min(v, a, 1),
            _ => Statement::Max(2, 1, a),
        }
    }
}
