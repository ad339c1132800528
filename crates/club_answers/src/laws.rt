//! Properties of answers: each is the `ensures` clause of a function with an empty body.

ghost use Rattle.std.specs.Prelude.{◌≡◌, ℕ, List, Option, Some};
ghost use Rattle.club_rows.specs.Club.{ClubGame, ClubState};
ghost use Rattle.club_answers.specs.CrossTable.{AreTableRows};
ghost use Rattle.club_answers.specs.EventStandings.{IsStandingsText};
ghost use Rattle.club_answers.specs.internal.Overdue.{IsCounted, IsSweptThen};

/// The games listed as overdue at a timestamp are those that a sweep at that timestamp ends.
pub fn overdue_games_are_swept()
    ensures counted { (s : ClubState) (moment id : ℕ) (game : ClubGame) → IsCounted s moment id game }
    ensures swept { (s : ClubState) (moment id : ℕ) (game : ClubGame) → IsSweptThen s moment id game }
{}

/// The cross table of an event is unique.
pub fn cross_tables_are_one()
    ensures { (s : ClubState) (name : List ℕ) (found : Option (List (List ℕ))) (lines : List (List ℕ)) →
        AreTableRows s name found → AreTableRows s name (Some lines) → found ≡ Some lines }
{}

/// The standings of an event are unique.
pub fn standings_are_one()
    ensures { (s : ClubState) (name text others : List ℕ) → IsStandingsText s name text →
        IsStandingsText s name others → text ≡ others }
{}
