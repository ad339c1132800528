//! Properties of a stored club: each is the `ensures` clause of a function with an empty body.

ghost use Rattle.store_tables.specs.Tables.{IsServed};
ghost use Rattle.store.specs.Runs.{KeepsClub};
ghost use Rattle.store.specs.Histories.{BeginsAtOpening};

/// Every request whose command the club takes leaves a legal club legal, so requests can be executed one after another.
pub fn requests_keep_clubs()
    ensures { KeepsClub }
{}

/// The empty history of a club that was created in schema 2 or in schema 3 leads to what its creation leaves.
pub fn histories_begin_at_opening()
    ensures { (version : _) → IsServed version → BeginsAtOpening version }
{}
