//! The numbers of the squares in a set.
ghost use Rattle.std.specs.Prelude.{◌≡◌};
ghost use Rattle.squares.specs.DraughtsSets.{ascending};

use crate::draughts::set::DSet;
use std::marker::Model;

/// A list of at most 50 square numbers.
#[derive(Drop)]
pub struct Numbers {
    numbers: [u8; 50],
    len: usize,
}

impl Model for Numbers {
    ghost use Rattle.std.specs.Prelude.{◌≡◌, ℕ, ◌≤◌, List, length, take};

    ghost Value = { List ℕ };

    ghost view = { λ r. take r.len r.numbers };

    ghost invariant = { λ r. (r.len ≤ 50) × (length r.numbers ≡ 50) };
}

impl Numbers {
    /// The squares of a set, in ascending order.
    pub fn from_set(set: DSet) -> Numbers
        ensures { result ≡ ascending set }
    {
        let mut rest = set;
        let mut numbers = [0; 50];
        let mut len = 0;
        while let Some(square) = rest.pop() {
            numbers[len] = square.number();
            len += 1;
        }
        Numbers { numbers, len }
    }

    /// The numbers, in ascending order.
    pub fn as_slice(&self) -> &[u8]
        ensures { result.now ≡ self.now }
    {
        &self.numbers[..self.len]
    }
}
