//! A piece in the middle of a capture.
ghost use Rattle.std.specs.Prelude.{◌≡◌};
ghost use Rattle.std.specs.FinSet as set;

use squares::{DPiece, DSet, Dsq};

/// A piece in the middle of a capture: its starting square, its present square and the pieces captured so far.
#[derive(Clone, Copy)]
pub struct Mover {
    pub piece: DPiece,
    pub origin: Dsq,
    pub at: Dsq,
    pub taken: DSet,
}

impl Mover {
    /// A piece before its first jump.
    pub fn new(piece: DPiece, origin: Dsq) -> Mover
        ensures { result
            ≡ record { piece = piece; origin = origin; at = origin; taken = set.empty } }
    {
        Mover {
            piece,
            origin,
            at: origin,
            taken: DSet::new(),
        }
    }

    /// A copy of the piece after one more jump.
    pub fn after_jump(&self, over: Dsq, to: Dsq) -> Mover
        ensures { result ≡ record self.now { at = to; taken = set.insert self.now.taken over } }
    {
        Mover {
            piece: self.piece,
            origin: self.origin,
            at: to,
            taken: self.taken.with(over),
        }
    }

    /// Makes one more jump.
    pub fn jump(&mut self, over: Dsq, to: Dsq)
        ensures { self.new ≡ record self.old { at = to; taken = set.insert self.old.taken over } }
    {
        self.at = to;
        self.taken = self.taken.with(over);
    }

    /// Undoes a jump: the piece is back on `from`, and `over` is not captured.
    pub fn take_back(&mut self, over: Dsq, from: Dsq)
        ensures { self.new ≡ record self.old { at = from; taken = set.remove self.old.taken over } }
    {
        self.at = from;
        self.taken = self.taken.without(over);
    }
}
