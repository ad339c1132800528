//! The trait of a game whose records can be written.

ghost use Rattle.std.specs.Prelude.{◌≡◌, ℕ, ◌∷◌, [], ◌++◌, List, Option, IfOk, OnOk, true};
ghost use Rattle.club_exports.specs.Title.{Title};
ghost use Rattle.club_exports.specs.internal.Title.{title_of};
ghost use Rattle.club_exports.specs.Written.{made_in};
ghost use Rattle.club_exports.specs.internal.Written.{FitsMoves, BeginsRecord, AddsRecord, MayFollowLegal};
ghost use Rattle.club_exports.specs.internal.Written.{BeginsGames};

use crate::heading::RecordHeader;
use club_rules::Rules;
use record_writer::WriteFault;
use std::alloc::Global;
use std::io::Write;

/// A game whose records are written move by move.
///
/// If a call fails, the output is a prefix of the record.
pub trait WriteRecord: Rules {
    /// A record in progress.
    type Record: Drop;

    /// The text is the record of a game with these moves, each with the seconds that it took.
    ghost IsText: { Title Self.End → List (Self.Move × ℕ) → List ℕ → Type 0 };

    /// The bytes that the writer held, extended by the record up to these moves; the draft is positioned after them.
    ghost HasWritten: { Title Self.End → List (Self.Move × ℕ) → Option (List ℕ) → Option (List ℕ) → Self.Record →
        Type 0 };

    /// The move is legal after the moves written so far.
    ghost MayFollow: { Self.Record → Self.Move → Type 0 };

    /// Writes the part of the record before the moves.
    ///
    /// # Errors
    ///
    /// - `Memory` if out of memory.
    /// - `Writer` if the writer fails.
    ///
    /// # Guarantees
    ///
    /// `begun`: even after an error the output is a prefix of the record of any game with this heading.
    fn begin_record<W: Write>(
        alloc: Global,
        heading: &RecordHeader<Self::End>,
        writer: &mut W,
    ) -> Result<Self::Record, WriteFault>
        ensures written { IfOk result
            (HasWritten (title_of heading.now) [] (W.contents writer.old) (W.contents writer.new)) }
        ensures begun { (plies : List (Self.Move × ℕ)) →
            BeginsRecord IsText (title_of heading.now) plies (W.contents writer.old) (W.contents writer.new) };

    /// Writes the next move, and the seconds that it took if the format has them.
    ///
    /// # Errors
    ///
    /// - `Memory` if out of memory.
    /// - `Writer` if the writer fails.
    ///
    /// # Guarantees
    ///
    /// `begun`: even after an error the output is a prefix of the record of any game that continues with this move.
    fn push_move<W: Write>(
        draft: &mut Self::Record,
        writer: &mut W,
        made: &Self::Move,
        seconds: u64,
    ) -> Result<(), WriteFault>
        requires { MayFollow draft.old made.now }
        ensures written { OnOk result ((title : Title Self.End) (plies : List (Self.Move × ℕ))
            (before : Option (List ℕ)) →
            HasWritten title plies before (W.contents writer.old) draft.old →
            HasWritten title (plies ++ (made.now, seconds) ∷ []) before (W.contents writer.new) draft.new) }
        ensures begun { (title : Title Self.End) (plies more : List (Self.Move × ℕ)) (before : Option (List ℕ)) →
            HasWritten title plies before (W.contents writer.old) draft.old →
            BeginsRecord IsText title (plies ++ (made.now, seconds) ∷ more) before (W.contents writer.new) };

    /// Writes the end of the record. Returns false, and writes nothing, if the end is a declaration that the final
    /// position does not allow.
    ///
    /// # Errors
    ///
    /// - `Memory` if out of memory.
    /// - `Writer` if the writer fails.
    ///
    /// # Guarantees
    ///
    /// `written`: the output is extended by exactly the record of the game.
    fn finish_record<W: Write>(draft: Self::Record, writer: &mut W) -> Result<bool, WriteFault>
        ensures written { IfOk result (λ done. (title : Title Self.End) (plies : List (Self.Move × ℕ))
            (before : Option (List ℕ)) →
            HasWritten title plies before (W.contents writer.old) draft →
            FitsMoves Self.rules title (made_in plies) →
            (done ≡ true) × AddsRecord IsText title plies before (W.contents writer.new)) }
        ensures begun { (title : Title Self.End) (plies : List (Self.Move × ℕ)) (before : Option (List ℕ)) →
            HasWritten title plies before (W.contents writer.old) draft →
            BeginsRecord IsText title plies before (W.contents writer.new) };

    /// Lemma: the output so far is a prefix of the record of every game that continues it.
    fn begins_games()
        ensures { BeginsGames IsText HasWritten };

    /// Lemma: a move that is legal in the position after the written moves satisfies `MayFollow`.
    ghost may_follow: { MayFollowLegal Self.rules HasWritten MayFollow };
}
