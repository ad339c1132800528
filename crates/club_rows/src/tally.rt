//! Repetition counts of the positions of a line, by their notation.

ghost use Rattle.std.specs.Prelude.{◌≡◌, ◌≤◌, ◌<◌, ◌+◌, ◌++◌, ◌∷◌, [], List, Some, None, IfOk, cond, length};
ghost use Rattle.std.specs.Prelude.{string_bytes};
ghost use Rattle.club_rules.specs.Line.{position_after, times_stood, FirstStands, IsLegalLine};
ghost use Rattle.club_rows.specs.internal.Tally.{IsTallyOf, PositionText, same_text, seen_at, stood_then};
ghost use Rattle.club_rows.specs.internal.Tally.{stood_seldom};

use club_rules::{Memory, Rules};
use std::alloc::Global;
use std::collections::HashMap;

/// The repetition count of a position and the ply after which it first occurred.
#[derive(Clone, Copy, Debug, PartialEq, Eq)]
pub struct Occurrences {
    pub times: usize,
    pub first_ply: usize,
}

/// The repetition count of each position of a line, in a hash map: one lookup for each position.
#[derive(Drop)]
pub struct PositionCounts {
    seen: HashMap<String, Occurrences>,
}

impl PositionCounts {
    /// An empty count.
    pub fn new(alloc: Global) -> PositionCounts
        ensures { (text : PositionText) → seen_at result text ≡ None }
    {
        PositionCounts {
            seen: HashMap::new(alloc),
        }
    }

    // The count of a position if it occurs once more, after that ply.
    fn with(&self, text: &String, ply: usize) -> Occurrences
        ensures { stood_seldom (seen_at self.now text.now) → result ≡ stood_then (seen_at self.now text.now) ply }
    {
        match self.seen.get(text).copied() {
            Some(stood) => Occurrences {
                times: stood.times.saturating_add(1),
                first_ply: stood.first_ply,
            },
            None => Occurrences {
                times: 1,
                first_ply: ply,
            },
        }
    }

    /// Counts a position that occurs after a ply, and returns its new count.
    ///
    /// # Errors
    ///
    /// `Memory` if out of memory.
    pub fn add(&mut self, text: String, ply: usize) -> Result<Occurrences, Memory>
        ensures stood { IfOk result (λ stood. stood_seldom (seen_at self.old text) →
            stood ≡ stood_then (seen_at self.old text) ply) }
        ensures adds { IfOk result (λ stood. (other : PositionText) →
            seen_at self.new other ≡ cond (same_text text other) (Some stood) (seen_at self.old other)) }
    {
        let stood = self.with(&text, ply);
        self.seen.insert(text, stood)?;
        Ok(stood)
    }

    /// The repetition count and first ply of a position if the next move (as ply `ply`) leads to it.
    ///
    /// # Guarantees
    ///
    /// Equal to the rules' `times_stood` for a legal line of at most 600 plies.
    pub fn occurrences_after<R: Rules>(&self, position: &String, ply: usize) -> Occurrences
        ensures { (line : List R.Move) (made : R.Move) → IsTallyOf R.rules line self.now → length line ≤ 600 →
            IsLegalLine R.rules R.rules.start (line ++ made ∷ []) → ply ≡ length line + 1 →
            string_bytes position.now ≡ R.rules.write_position
            (position_after R.rules R.rules.start (line ++ made ∷ [])) →
            (result.times ≡ times_stood R.rules R.rules.start (line ++ made ∷ []))
            × FirstStands R.rules R.rules.start (line ++ made ∷ []) result.first_ply }
    {
        self.with(position, ply)
    }
}
