//! Takes the row of a query that returns at most one.

ghost use Rattle.std.specs.Prelude.{◌≡◌, ◌<◌};
ghost use Rattle.std.specs.Prelude.{slice_get};

/// The first row, if there is one.
pub fn first<T: Drop>(rows: Vec<T>) -> Option<T>
    ensures { result ≡ slice_get rows.items 0 }
{
    rows.into_iter().next()
}
