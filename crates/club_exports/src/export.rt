//! Writing a game move by move, from the texts of its moves.

ghost use Rattle.std.specs.Prelude.{◌≡◌, ◌<◌, ℕ, [], ◌∷◌, ◌++◌, List, Option, Some, Ok, IfOk, IfSome, OnOk};
ghost use Rattle.std.specs.Prelude.{length, map, true};
ghost use Rattle.club_core.specs.Game.{Entry};
ghost use Rattle.club_requests.specs.Limits.{most_plies};
ghost use Rattle.club_exports.specs.Title.{Title, timed};
ghost use Rattle.club_exports.specs.internal.Title.{title_of};
ghost use Rattle.club_exports.specs.internal.Written.{FitsMoves, BeginsRecord, AddsRecord};
ghost use Rattle.club_exports.specs.internal.Exported.{IsWritten, IsUnderWay, IsNextText};

use crate::exports::WriteRecord;
use crate::heading::RecordHeader;
use clocks::Moment;
use club_requests::values::MOST_PLIES;
use record_writer::WriteFault;
use std::alloc::Global;
use std::io::Write;

/// A record in progress, with the position after the moves written so far.
#[derive(Drop)]
pub struct Export<R: WriteRecord> {
    draft: R::Record,
    position: R::Position,
    since: Moment,
    plies: u32,
}

// Reads the text of a move. `None` if it is not a legal move.
fn legal_move<R: WriteRecord>(
    alloc: Global,
    position: &R::Position,
    text: &str,
) -> Result<Option<R::Move>, WriteFault>
    ensures legal { IfOk result (λ made. IfSome made (λ m. R.rules.check position.now m ≡ Ok tt)) }
    ensures read { IfOk result (λ made. (m : R.Move) → R.rules.check position.now m ≡ Ok tt →
        text.now ≡ R.rules.write_move position.now m → made ≡ Some m) }
{
    let made = match R::read_move(alloc, position, text)? {
        Ok(made) => made,
        Err(_) => return Ok(None),
    };
    match R::check(position, &made) {
        Ok(()) => Ok(Some(made)),
        Err(_) => Ok(None),
    }
}

impl<R: WriteRecord> Export<R> {
    /// Writes the part of the record before the moves.
    ///
    /// # Errors
    ///
    /// - `Memory` if out of memory.
    /// - `Writer` if the writer fails.
    pub fn start<W: Write>(
        alloc: Global,
        heading: &RecordHeader<R::End>,
        writer: &mut W,
    ) -> Result<Export<R>, WriteFault>
        ensures written { IfOk result (λ export. IsWritten R.rules R.HasWritten (title_of heading.now) []
            (W.contents writer.old) (W.contents writer.new) export) }
        ensures begun { (plies : List (R.Move × ℕ)) →
            BeginsRecord R.IsText (title_of heading.now) plies (W.contents writer.old) (W.contents writer.new) }
    {
        let draft = R::begin_record(alloc, heading, writer)?;
        Ok(Export {
            draft,
            position: R::start(),
            since: heading.start,
            plies: 0,
        })
    }

    /// Writes the next move, given as its text in the current position and its timestamp.
    ///
    /// Returns false, and writes nothing, if the text is not a legal move or `MOST_PLIES` moves are written.
    ///
    /// # Errors
    ///
    /// - `Memory` if out of memory.
    /// - `Writer` if the writer fails.
    ///
    /// # Guarantees
    ///
    /// `begun`: even after an error the output is a prefix of the record of any game that continues with this move.
    pub fn push<W: Write>(
        &mut self,
        alloc: Global,
        writer: &mut W,
        text: &str,
        moment: Moment,
    ) -> Result<bool, WriteFault>
        requires { IsUnderWay R.rules R.HasWritten (W.contents writer.old) self.old }
        ensures in_progress { OnOk result (IsUnderWay R.rules R.HasWritten (W.contents writer.new) self.new) }
        ensures written { IfOk result (λ legal. (title : Title R.End) (entries : List (Entry R.Move))
            (before : Option (List ℕ)) (made : R.Move) →
            IsWritten R.rules R.HasWritten title entries before (W.contents writer.old) self.old →
            IsNextText R.rules entries text.now made → length entries < most_plies →
            (legal ≡ true) × IsWritten R.rules R.HasWritten title
            (entries ++ record { made = made; moment = moment } ∷ []) before (W.contents writer.new) self.new) }
        ensures begun { (title : Title R.End) (entries more : List (Entry R.Move)) (before : Option (List ℕ))
            (made : R.Move) →
            IsWritten R.rules R.HasWritten title entries before (W.contents writer.old) self.old →
            IsNextText R.rules entries text.now made →
            BeginsRecord R.IsText title (timed title.start (entries ++ record { made = made; moment = moment } ∷ more))
            before (W.contents writer.new) }
    {
        R::begins_games();
        if self.plies >= MOST_PLIES {
            return Ok(false);
        }
        let made = match legal_move::<R>(alloc, &self.position, text)? {
            Some(made) => made,
            None => return Ok(false),
        };
        let seconds = moment.seconds().saturating_sub(self.since.seconds());
        R::push_move(&mut self.draft, writer, &made, seconds)?;
        self.position = R::play(&self.position, &made);
        self.since = moment;
        self.plies += 1;
        Ok(true)
    }

    /// Writes the end of the record. Returns false, and writes nothing, if the end is a declaration that the final
    /// position does not allow.
    ///
    /// # Errors
    ///
    /// - `Memory` if out of memory.
    /// - `Writer` if the writer fails.
    ///
    /// # Guarantees
    ///
    /// `written`: the output is extended by exactly the record of the game.
    pub fn finish<W: Write>(self, writer: &mut W) -> Result<bool, WriteFault>
        ensures written { IfOk result (λ done. (title : Title R.End) (entries : List (Entry R.Move))
            (before : Option (List ℕ)) →
            IsWritten R.rules R.HasWritten title entries before (W.contents writer.old) self →
            FitsMoves R.rules title (map (λ e. e.made) entries) →
            (done ≡ true) × AddsRecord R.IsText title (timed title.start entries) before (W.contents writer.new)) }
        ensures begun { (title : Title R.End) (entries : List (Entry R.Move)) (before : Option (List ℕ)) →
            IsWritten R.rules R.HasWritten title entries before (W.contents writer.old) self →
            BeginsRecord R.IsText title (timed title.start entries) before (W.contents writer.new) }
    {
        let Export {
            draft,
            position: _,
            since: _,
            plies: _,
        } = self;
        R::finish_record(draft, writer)
    }
}
