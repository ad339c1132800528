//! Properties of the written records.

ghost use Rattle.std.specs.Prelude.{ℕ, ◌++◌, List, Option};
ghost use Rattle.club_core.specs.Game.{Entry};
ghost use Rattle.club_exports.specs.Title.{Title, timed};
ghost use Rattle.club_exports.specs.internal.Written.{BeginsRecord};
ghost use Rattle.club_exports.specs.internal.Exported.{IsWritten};

use crate::export::Export;
use crate::exports::WriteRecord;

/// Lemma: the output so far is a prefix of the record of every game that continues it.
pub fn written_entries_begin_games<R: WriteRecord>()
    ensures { (title : Title R.End) (entries more : List (Entry R.Move)) (before now : Option (List ℕ))
        (export : Export R R.Record R.Position R.Move R.End R.Track) →
        IsWritten R.rules R.HasWritten title entries before now export →
        BeginsRecord R.IsText title (timed title.start (entries ++ more)) before now }
{
    R::begins_games();
}
