//! A property of sweeps, stated by the contract of a function with an empty body.

ghost use Rattle.std.specs.Prelude.{ℕ};
ghost use Rattle.club_rows.specs.Club.{ClubState};
ghost use Rattle.club_changes.specs.internal.Swept.{LeavesOthers};

/// Law: a sweep changes no rows of members, events, challenges, moves, positions, keys, rulings and closings.
pub fn sweep_leaves_others()
    ensures { (s : ClubState) (moment : ℕ) → LeavesOthers s moment }
{}
