//! The diagram of a game with its clocks and result, as text for people.

ghost use Rattle.std.specs.Prelude.{◌≡◌, ℕ, Bool, List, Some, IfOk, is_ok, string_bytes};
ghost use Rattle.sqlite.specs.State.{HasCleanDisk};
ghost use Rattle.sqlite.specs.Held.{state};
ghost use Rattle.store_tables.specs.internal.Over.{HasRows};
ghost use Rattle.store_tables.specs.Contents.{Content};
ghost use Rattle.store_tables.specs.Reading.{Reads};
ghost use Rattle.club_core.specs.Game.{Game, last_position};
ghost use Rattle.club_core.specs.State.{place};
ghost use Rattle.club_reads.specs.internal.Rulings.{FindsVerdict};
ghost use Rattle.club_rows.specs.Club.{ClubGame, ClubState, IsClub, StoresClub};
ghost use Rattle.club_rows.specs.internal.Replay.{terms_given};
ghost use Rattle.club_changes.specs.Steps.{IsRecordOf};
ghost use Rattle.club_changes.specs.internal.Steps.{FindsSeenRows};
ghost use Rattle.club_changes.specs.internal.Stored.{IsStoredGame};
ghost use Rattle.club_lists.specs.internal.Board.{board_by};
ghost use Rattle.club_answers.specs.Boards.{board_of, diagram_of, draughts_diagram, shogi_diagram, IsBoardText};
ghost use Rattle.club_answers.specs.internal.Found.{IsFoundAs};
ghost use Rattle.club_answers.specs.AnswerTexts.{IsNoGame};

use crate::found::Shown;
use crate::games::entry_of;
use crate::view_of;
use clocks::Moment;
use club_changes::StoredGame;
use club_games::{Draughts, Shogi, by_kind};
use club_lists::{BoardView, board_text};
use club_reads::{LookupFault, last_moment, stored_game, view};
use club_requests::Refusal;
use club_rules::Rules;
use diagrams::{Memory, write_bod, write_draughts, write_shogi};
use sqlite::{Alter, Connection};
use squares::{DPos, SPos};
use std::alloc::Global;

/// Rules whose positions can be drawn as diagrams.
pub(crate) trait Diagrams: Rules {
    ghost diagram: { Bool → Self.Position → List ℕ };

    /// The diagram of a position. Shogi pieces are Latin letters, or kanji in the BOD format.
    fn diagram(alloc: Global, position: &Self::Position, letters: bool) -> Result<String, Memory>
        ensures { IfOk result (λ text. string_bytes text ≡ diagram letters position.now) };
}

impl Diagrams for Draughts {
    ghost diagram = { draughts_diagram };

    fn diagram(alloc: Global, position: &DPos, _letters: bool) -> Result<String, Memory> {
        write_draughts(alloc, position)
    }
}

impl Diagrams for Shogi {
    ghost diagram = { shogi_diagram };

    fn diagram(alloc: Global, position: &SPos, letters: bool) -> Result<String, Memory> {
        if letters {
            return write_shogi(alloc, position);
        }
        write_bod(alloc, position)
    }
}

// The diagram of the current position of a stored game, by its rules.
fn diagram_by<R: Diagrams, S: Alter>(
    alloc: Global,
    conn: &mut Connection<S>,
    stored: &StoredGame,
    letters: bool,
) -> Result<String, LookupFault>
    ensures reads { Reads (is_ok result) (state S.Store conn.old) (state S.Store conn.new) }
    ensures shown { HasCleanDisk (state S.Store conn.new) →
        IfOk result (λ text. (content : Content) (game : Game R.Move) →
        HasRows content (state S.Store conn.old) → FindsSeenRows R.rules stored.now.id game content →
        FindsVerdict stored.now.id game content (state S.Store conn.old) →
        IsRecordOf R.rules (terms_given stored.now.terms) stored.now.id stored.now.row game →
        string_bytes text ≡ R.diagram letters (last_position R.rules game)) }
{
    let view = view::<R, S>(alloc, conn, stored)?;
    let text = R::diagram(alloc, &view.position, letters)?;
    Ok(text)
}

// The diagram of the current position of a stored game.
fn diagram_in<S: Alter>(
    alloc: Global,
    conn: &mut Connection<S>,
    stored: &StoredGame,
    letters: bool,
) -> Result<String, LookupFault>
    ensures reads { Reads (is_ok result) (state S.Store conn.old) (state S.Store conn.new) }
    ensures shown { HasCleanDisk (state S.Store conn.new) → IfOk result (λ text. (s : ClubState) (id : ℕ)
        (game : ClubGame) → IsClub s → place s.games id ≡ Some game → IsStoredGame s id game stored.now →
        StoresClub s (state S.Store conn.old) → string_bytes text ≡ diagram_of letters game) }
{
    by_kind!(
        stored.kind,
        diagram_by::<_, S>(alloc, conn, stored, letters)
    )
}

// All that `board` shows of a stored game beside its entry in lists.
fn board_in<S: Alter>(
    alloc: Global,
    conn: &mut Connection<S>,
    stored: &StoredGame,
    letters: bool,
) -> Result<BoardView, LookupFault>
    ensures reads { Reads (is_ok result) (state S.Store conn.old) (state S.Store conn.new) }
    ensures shown { HasCleanDisk (state S.Store conn.new) → IfOk result (λ board. (s : ClubState) (id : ℕ)
        (game : ClubGame) → IsClub s → place s.games id ≡ Some game → IsStoredGame s id game stored.now →
        StoresClub s (state S.Store conn.old) → board_by board ≡ board_of s letters game) }
{
    let diagram = diagram_in(alloc, conn, stored, letters)?;
    let viewed = view_of(alloc, conn, u64::from(stored.id))?;
    match viewed {
        Some(viewed) => Ok(BoardView {
            kind: stored.kind,
            event: viewed.event,
            first: viewed.first,
            second: viewed.second,
            diagram,
            moves: viewed.played.moves,
        }),
        None => Err(LookupFault::Store),
    }
}

/// A game as text for people, with shogi pieces as Latin letters or as kanji.
pub(crate) fn board<S: Alter>(
    alloc: Global,
    conn: &mut Connection<S>,
    game: u64,
    letters: bool,
    moment: Moment,
) -> Result<Shown, LookupFault>
    ensures reads { Reads (is_ok result) (state S.Store conn.old) (state S.Store conn.new) }
    ensures found { HasCleanDisk (state S.Store conn.new) → IfOk result (λ found. (s : ClubState) → IsClub s →
        StoresClub s (state S.Store conn.old) →
        IsFoundAs (IsBoardText s moment game letters) (IsNoGame s game) found) }
{
    let last = last_moment(alloc, conn)?;
    let stored = stored_game(alloc, conn, game)?;
    match stored {
        Some(stored) => {
            let told = entry_of(alloc, &stored.row)?;
            let shown = board_in(alloc, conn, &stored, letters)?;
            let text = board_text(alloc, &told, &shown, moment.later(last))?;
            Ok(Shown::Text(text))
        }
        None => Ok(Shown::Refused(Refusal::UnknownGame)),
    }
}
