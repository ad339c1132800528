//! Analyses: moves that members try from a position, or in a stored game.

ghost use Rattle.std.specs.Prelude.{◌≡◌, ◌≤◌, ℕ, IfOk, is_ok, Some, map, option_map};
ghost use Rattle.std.specs.Prelude.{length, nat_le, string_bytes};
ghost use Rattle.std.specs.List.{list_all};
ghost use Rattle.sqlite.specs.State.{HasCleanDisk};
ghost use Rattle.sqlite.specs.Held.{state};
ghost use Rattle.store_tables.specs.Contents.{Content};
ghost use Rattle.store_tables.specs.internal.Over.{HasRows};
ghost use Rattle.store_tables.specs.Reading.{Reads};
ghost use Rattle.club_requests.specs.Analysis.{analysis_view, in_game};
ghost use Rattle.club_requests.specs.Limits.{most_text_bytes};
ghost use Rattle.club_core.specs.Game.{Game};
ghost use Rattle.club_core.specs.State.{place};
ghost use Rattle.club_analysis.specs.internal.Line.{IsTriedAs, shown_view};
ghost use Rattle.club_rows.specs.Club.{ClubGame, ClubState, IsClub, tables};
ghost use Rattle.club_rows.specs.Rulings.{ArePossible};
ghost use Rattle.club_rows.specs.internal.Replay.{terms_given};
ghost use Rattle.club_rows.specs.internal.Rulings.{rulings_given};
ghost use Rattle.club_changes.specs.Steps.{IsRecordOf};
ghost use Rattle.club_changes.specs.internal.Steps.{TellsLine};
ghost use Rattle.club_changes.specs.internal.Stored.{IsStoredGame};
ghost use Rattle.club_answers.specs.Analyses.{are_few, IsAnalysed, IsAnalysisText, IsNoAnalysis, IsRefusedFor};
ghost use Rattle.club_answers.specs.Analyses.{IsRefusedFrom, IsRefusedFromPosition, IsRefusedIn, IsRefusedInGame};
ghost use Rattle.club_answers.specs.Analyses.{IsRefusedUnlessFew, IsShownFrom, IsShownFromPosition, IsShownIn};
ghost use Rattle.club_answers.specs.Analyses.{IsRefusedAt, IsShownAt, IsShownInGame, shown_text};
ghost use Rattle.club_answers.specs.internal.Analyses.{IsFew, same_kind};
ghost use Rattle.club_answers.specs.internal.Found.{IsFoundAs};

use crate::found::Shown;
use crate::played_lines::line_at;
use crate::rulings::rulings_in;
use club_analysis::{ShownLine, analyse, line_from_opening, line_from_text};
use club_changes::StoredGame;
use club_core::GivenRuling;
use club_games::by_kind;
use club_lists::analysis_text;
use club_reads::{LookupFault, stored_game};
use club_requests::values::{MOST_TEXT_BYTES, MOST_TRIED_MOVES};
use club_requests::{Analysis, AnalysisStart, Refusal};
use club_rules::{GameKind, Memory, MoveRefusal, Rules};
use sqlite::{Alter, Connection};
use std::alloc::{AllocError, Global};
use store_tables::Version;

// Whether no text is too long.
fn are_short(texts: &[String]) -> bool
    ensures { result ≡ list_all (λ text. nat_le (length (string_bytes text)) most_text_bytes) texts.now }
{
    texts.iter().all(|text| text.len() <= MOST_TEXT_BYTES)
}

// Whether the texts of moves to try are neither too many nor too long.
fn are_few(texts: &[String]) -> bool
    ensures { result ≡ are_few (map (λ t. string_bytes t) texts.now) }
{
    texts.len() <= MOST_TRIED_MOVES && are_short(texts)
}

// From the position of a text.
fn from_text<R: Rules>(
    alloc: Global,
    kind: GameKind,
    text: &str,
    moves: &[String],
) -> Result<Result<ShownLine, Refusal>, Memory>
    requires few { length moves.now ≤ 64 }
    ensures answered { IfOk result (IsTriedAs
        (IsShownFrom R.rules (Some text.now) (map (λ t. string_bytes t) moves.now))
        (IsRefusedFrom R.rules kind (Some text.now) (map (λ t. string_bytes t) moves.now))) }
{
    match line_from_text::<R>(alloc, text)? {
        Some(line) => analyse(alloc, line, moves),
        None => Ok(Err(Refusal::Play {
            ply: 0,
            refusal: MoveRefusal::BadText(kind, 0),
        })),
    }
}

// From the position of a text, or from the initial one.
fn from_start<R: Rules>(
    alloc: Global,
    kind: GameKind,
    text: Option<&str>,
    moves: &[String],
) -> Result<Result<ShownLine, Refusal>, Memory>
    requires few { length moves.now ≤ 64 }
    ensures answered { IfOk result (IsTriedAs
        (IsShownFrom R.rules (option_map (λ t. t.now) text.entry) (map (λ t. string_bytes t) moves.now))
        (IsRefusedFrom R.rules kind (option_map (λ t. t.now) text.entry) (map (λ t. string_bytes t) moves.now))) }
{
    match text {
        None => analyse(alloc, line_from_opening::<R>(alloc), moves),
        Some(text) => from_text::<R>(alloc, kind, text, moves),
    }
}

// The same by the rules of a kind.
fn from_position(
    alloc: Global,
    kind: GameKind,
    text: Option<&str>,
    moves: &[String],
) -> Result<Result<ShownLine, Refusal>, Memory>
    requires few { length moves.now ≤ 64 }
    ensures answered { IfOk result (IsTriedAs
        (IsShownFromPosition kind (option_map (λ t. t.now) text.entry) (map (λ t. string_bytes t) moves.now))
        (IsRefusedFromPosition kind (option_map (λ t. t.now) text.entry) (map (λ t. string_bytes t) moves.now))) }
{
    by_kind!(kind, from_start::<_>(alloc, kind, text, moves))
}

// In a stored game after so many of its plies.
fn from_game<R: Rules, S: Alter>(
    alloc: Global,
    conn: &mut Connection<S>,
    stored: &StoredGame,
    ply: u64,
    rulings: &[GivenRuling],
    moves: &[String],
) -> Result<Result<ShownLine, Refusal>, LookupFault>
    requires few { length moves.now ≤ 64 }
    requires possible { ArePossible (rulings_given rulings.now) }
    ensures reads { Reads (is_ok result) (state S.Store conn.old) (state S.Store conn.new) }
    ensures answered { HasCleanDisk (state S.Store conn.new) → IfOk result (λ tried. (content : Content)
        (game : Game R.Move) → HasRows content (state S.Store conn.old) →
        TellsLine R.rules (terms_given stored.now.terms) stored.now.id game content →
        IsRecordOf R.rules (terms_given stored.now.terms) stored.now.id stored.now.row game →
        IsTriedAs (IsShownInGame R.rules game ply (map (λ t. string_bytes t) moves.now))
        (IsRefusedInGame R.rules game ply (map (λ t. string_bytes t) moves.now)) tried) }
{
    match line_at::<R, S>(alloc, conn, stored, ply, rulings)? {
        Some(line) => Ok(analyse(alloc, line, moves)?),
        None => Ok(Err(Refusal::BadValue)),
    }
}

// The same by the rules of the game's kind.
fn from_stored<S: Alter>(
    alloc: Global,
    conn: &mut Connection<S>,
    stored: &StoredGame,
    ply: u64,
    rulings: &[GivenRuling],
    moves: &[String],
) -> Result<Result<ShownLine, Refusal>, LookupFault>
    requires few { length moves.now ≤ 64 }
    requires possible { ArePossible (rulings_given rulings.now) }
    ensures reads { Reads (is_ok result) (state S.Store conn.old) (state S.Store conn.new) }
    ensures answered { HasCleanDisk (state S.Store conn.new) → IfOk result (λ tried. (s : ClubState) (id : ℕ)
        (game : ClubGame) → IsClub s → place s.games id ≡ Some game → IsStoredGame s id game stored.now →
        HasRows (tables s) (state S.Store conn.old) →
        IsTriedAs (IsShownIn stored.now.kind game ply (map (λ t. string_bytes t) moves.now))
        (IsRefusedIn stored.now.kind game ply (map (λ t. string_bytes t) moves.now)) tried) }
{
    by_kind!(
        stored.kind,
        from_game::<_, S>(alloc, conn, stored, ply, rulings, moves)
    )
}

fn same_kind(one: GameKind, other: GameKind) -> bool
    ensures { result ≡ same_kind one other }
{
    match (one, other) {
        (GameKind::Draughts, GameKind::Draughts) => true,
        (GameKind::Shogi, GameKind::Shogi) => true,
        _ => false,
    }
}

// The same for an analysis by the rules of a kind, which must be that of the game.
fn from_found<S: Alter>(
    alloc: Global,
    conn: &mut Connection<S>,
    stored: &StoredGame,
    asked: &Analysis,
    ply: u64,
    rulings: &[GivenRuling],
) -> Result<Result<ShownLine, Refusal>, LookupFault>
    requires { ArePossible (rulings_given rulings.now) }
    ensures reads { Reads (is_ok result) (state S.Store conn.old) (state S.Store conn.new) }
    ensures answered { HasCleanDisk (state S.Store conn.new) → IfOk result (λ tried. (s : ClubState) (id : ℕ)
        (game : ClubGame) → IsClub s → place s.games id ≡ Some game → IsStoredGame s id game stored.now →
        HasRows (tables s) (state S.Store conn.old) →
        IsTriedAs (IsFew (analysis_view asked.now).texts
        (IsShownIn asked.now.kind game ply (analysis_view asked.now).texts))
        (IsRefusedFor asked.now.kind game ply (analysis_view asked.now).texts) tried) }
{
    if !same_kind(stored.kind, asked.kind) {
        return Ok(Err(Refusal::UnknownGame));
    }
    if !are_few(&asked.moves) {
        return Ok(Err(Refusal::BadValue));
    }
    from_stored(alloc, conn, stored, ply, rulings, &asked.moves)
}

// In the game with this number.
fn in_game<S: Alter>(
    alloc: Global,
    version: Version,
    conn: &mut Connection<S>,
    asked: &Analysis,
    game: u64,
    ply: u64,
) -> Result<Result<ShownLine, Refusal>, LookupFault>
    ensures reads { Reads (is_ok result) (state S.Store conn.old) (state S.Store conn.new) }
    ensures answered { HasCleanDisk (state S.Store conn.new) → IfOk result (λ tried. (s : ClubState) → IsClub s →
        HasRows (tables s) (state S.Store conn.old) →
        IsTriedAs (IsFew (analysis_view asked.now).texts
        (IsShownAt s asked.now.kind (in_game game ply) (analysis_view asked.now).texts))
        (IsRefusedAt s asked.now.kind (in_game game ply) (analysis_view asked.now).texts) tried) }
{
    match stored_game(alloc, conn, game)? {
        Some(stored) => {
            let rulings = rulings_in(alloc, version, conn, stored.id)?;
            from_found(alloc, conn, &stored, asked, ply, &rulings)
        }
        None => Ok(Err(Refusal::UnknownGame)),
    }
}

// From a position.
fn in_position(
    alloc: Global,
    asked: &Analysis,
    text: Option<&str>,
) -> Result<Result<ShownLine, Refusal>, Memory>
    ensures answered { IfOk result (IsTriedAs (IsFew (analysis_view asked.now).texts
        (IsShownFromPosition asked.now.kind (option_map (λ t. t.now) text.entry) (analysis_view asked.now).texts))
        (IsRefusedUnlessFew (analysis_view asked.now).texts (IsRefusedFromPosition asked.now.kind
        (option_map (λ t. t.now) text.entry) (analysis_view asked.now).texts))) }
{
    if !are_few(&asked.moves) {
        return Ok(Err(Refusal::BadValue));
    }
    from_position(alloc, asked.kind, text, &asked.moves)
}

// What an analysis shows, or why it is refused.
fn analysed<S: Alter>(
    alloc: Global,
    version: Version,
    conn: &mut Connection<S>,
    asked: &Analysis,
) -> Result<Result<ShownLine, Refusal>, LookupFault>
    ensures reads { Reads (is_ok result) (state S.Store conn.old) (state S.Store conn.new) }
    ensures answered { HasCleanDisk (state S.Store conn.new) → IfOk result (λ tried. (s : ClubState) → IsClub s →
        HasRows (tables s) (state S.Store conn.old) →
        IsTriedAs (IsAnalysed s (analysis_view asked.now)) (IsNoAnalysis s (analysis_view asked.now)) tried) }
{
    match &asked.start {
        AnalysisStart::Opening => Ok(in_position(alloc, asked, None)?),
        AnalysisStart::Position(text) => Ok(in_position(alloc, asked, Some(text.as_str()))?),
        AnalysisStart::Game { game, ply } => in_game(alloc, version, conn, asked, *game, *ply),
    }
}

fn text_of(alloc: Global, shown: &ShownLine) -> Result<String, AllocError>
    ensures { IfOk result (λ text. string_bytes text ≡ shown_text (shown_view shown.now)) }
{
    analysis_text(
        alloc,
        shown.end,
        &shown.legal,
        &shown.moves,
        shown.position.as_str(),
    )
}

/// An analysis as JSON.
pub(crate) fn analysis<S: Alter>(
    alloc: Global,
    version: Version,
    conn: &mut Connection<S>,
    asked: &Analysis,
) -> Result<Shown, LookupFault>
    ensures reads { Reads (is_ok result) (state S.Store conn.old) (state S.Store conn.new) }
    ensures found { HasCleanDisk (state S.Store conn.new) → IfOk result (λ found. (s : ClubState) → IsClub s →
        HasRows (tables s) (state S.Store conn.old) →
        IsFoundAs (IsAnalysisText s (analysis_view asked.now)) (IsNoAnalysis s (analysis_view asked.now)) found) }
{
    match analysed(alloc, version, conn, asked)? {
        Ok(shown) => Ok(Shown::Text(text_of(alloc, &shown)?)),
        Err(refusal) => Ok(Shown::Refused(refusal)),
    }
}
