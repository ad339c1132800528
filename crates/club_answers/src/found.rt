//! Finds the answer to a query.

ghost use Rattle.std.specs.Prelude.{◌≡◌, IfOk, is_ok, map, string_bytes};
ghost use Rattle.sqlite.specs.State.{HasCleanDisk};
ghost use Rattle.sqlite.specs.Held.{state};
ghost use Rattle.store_tables.specs.Reading.{Reads};
ghost use Rattle.club_rows.specs.Club.{ClubState, IsClub, StoresClub};
ghost use Rattle.club_rows.specs.Tables.{version_of};
ghost use Rattle.club_requests.specs.declared.questions.Question.TheVariants as question;
ghost use Rattle.club_answers.specs.internal.Found.{IsFound, IsFoundAs};
ghost use Rattle.club_answers.specs.AnswerTexts.{join_lines, IsLegalText, IsNoGame, IsTableText, IsNoEvent};
ghost use Rattle.club_answers.specs.AnswerTexts.{IsMembersJson, IsMembersText};

use crate::analyses::analysis;
use crate::boards::board;
use crate::bodies::{game_body, moves_body};
use crate::challenge_lists::{challenge_lines, challenge_objects};
use crate::lists::of_lists;
use crate::member_answers::mine;
use crate::pages::{clock, page};
use crate::rulings::{ruling_lines, ruling_objects, ruling_orders};
use crate::standings::standings;
use crate::{cross_table_lines, legal_of};
use clocks::Moment;
use club_lists::{members_json, members_text};
use club_reads::{LookupFault, all_members};
use club_requests::{Question, Refusal};
use club_rules::GameKind;
use sqlite::{Alter, Connection};
use std::alloc::{AllocError, Global};
use store_tables::Version;

/// The answer to a query: a text, a refusal, or records that are written one row at a time.
#[derive(Drop)]
pub(crate) enum Shown {
    /// The whole answer.
    Text(String),
    /// There is no answer, for this reason.
    Refused(Refusal),
    /// The record of the game with this number, if there is one.
    Record(u64),
    /// The records of the games with these ids, all of this kind.
    Records(GameKind, Vec<u32>),
}

// Joins lines into one text, each with its newline.
fn join_lines(alloc: Global, lines: &[String]) -> Result<String, AllocError>
    ensures { IfOk result (λ text. string_bytes text ≡ join_lines (map (λ t. string_bytes t) lines.now)) }
{
    let mut text = String::new(alloc);
    for line in lines {
        text.push_str(line.as_str())?;
        text.push_str("\n")?;
    }
    Ok(text)
}

// The legal moves of a game, one a line.
fn legal_moves<S: Alter>(
    alloc: Global,
    conn: &mut Connection<S>,
    game: u64,
) -> Result<Shown, LookupFault>
    ensures reads { Reads (is_ok result) (state S.Store conn.old) (state S.Store conn.new) }
    ensures found { HasCleanDisk (state S.Store conn.new) → IfOk result (λ found. (s : ClubState) → IsClub s →
        StoresClub s (state S.Store conn.old) → IsFoundAs (IsLegalText s game) (IsNoGame s game) found) }
{
    match legal_of(alloc, conn, game)? {
        Some(texts) => Ok(Shown::Text(join_lines(alloc, &texts)?)),
        None => Ok(Shown::Refused(Refusal::UnknownGame)),
    }
}

fn cross_table<S: Alter>(
    alloc: Global,
    version: Version,
    conn: &mut Connection<S>,
    name: &str,
) -> Result<Shown, LookupFault>
    ensures reads { Reads (is_ok result) (state S.Store conn.old) (state S.Store conn.new) }
    ensures found { HasCleanDisk (state S.Store conn.new) → IfOk result (λ found. (s : ClubState) → IsClub s →
        version ≡ version_of s → StoresClub s (state S.Store conn.old) →
        IsFoundAs (IsTableText s name.now) (IsNoEvent s name.now) found) }
{
    match cross_table_lines(alloc, version, conn, name)? {
        Some(lines) => Ok(Shown::Text(join_lines(alloc, &lines)?)),
        None => Ok(Shown::Refused(Refusal::UnknownEvent)),
    }
}

fn members<S: Alter>(
    alloc: Global,
    version: Version,
    conn: &mut Connection<S>,
) -> Result<Shown, LookupFault>
    ensures reads { Reads (is_ok result) (state S.Store conn.old) (state S.Store conn.new) }
    ensures found { HasCleanDisk (state S.Store conn.new) → IfOk result (λ found. (s : ClubState) → IsClub s →
        version ≡ version_of s → StoresClub s (state S.Store conn.old) →
        IsFoundAs (IsMembersText s) (λ refusal. ⊥) found) }
{
    let members = all_members(alloc, version, conn)?;
    let text = members_text(alloc, &members)?;
    Ok(Shown::Text(text))
}

fn member_names<S: Alter>(
    alloc: Global,
    version: Version,
    conn: &mut Connection<S>,
) -> Result<Shown, LookupFault>
    ensures reads { Reads (is_ok result) (state S.Store conn.old) (state S.Store conn.new) }
    ensures found { HasCleanDisk (state S.Store conn.new) → IfOk result (λ found. (s : ClubState) → IsClub s →
        version ≡ version_of s → StoresClub s (state S.Store conn.old) →
        IsFoundAs (IsMembersJson s) (λ refusal. ⊥) found) }
{
    let members = all_members(alloc, version, conn)?;
    let text = members_json(alloc, &members)?;
    Ok(Shown::Text(text))
}

/// Finds the answer to a query to a club of this version at this timestamp.
pub(crate) fn read_answer<S: Alter>(
    alloc: Global,
    version: Version,
    conn: &mut Connection<S>,
    question: &Question,
    moment: Moment,
) -> Result<Shown, LookupFault>
    ensures reads { Reads (is_ok result) (state S.Store conn.old) (state S.Store conn.new) }
    ensures found { HasCleanDisk (state S.Store conn.new) → IfOk result (λ found. (s : ClubState) → IsClub s →
        version ≡ version_of s → StoresClub s (state S.Store conn.old) → IsFound s moment question.now found) }
{
    match question {
        Question::LegalMoves(game) => legal_moves(alloc, conn, *game),
        Question::CrossTable(name) => cross_table(alloc, version, conn, name.as_str()),
        Question::Record(game) => Ok(Shown::Record(*game)),
        Question::Members => members(alloc, version, conn),
        Question::Events => of_lists(alloc, version, conn, question, moment),
        Question::Games(_) => of_lists(alloc, version, conn, question, moment),
        Question::Challenges => challenge_lines(alloc, version, conn),
        Question::MembersJson => member_names(alloc, version, conn),
        Question::EventsJson => of_lists(alloc, version, conn, question, moment),
        Question::GamesJson(_) => of_lists(alloc, version, conn, question, moment),
        Question::ChallengesJson => challenge_objects(alloc, version, conn),
        Question::MyGames(key) => mine(alloc, version, conn, key.as_str(), moment),
        Question::EndedGames(_) => of_lists(alloc, version, conn, question, moment),
        Question::ChallengeChoices(_) => of_lists(alloc, version, conn, question, moment),
        Question::EventGames(_) => of_lists(alloc, version, conn, question, moment),
        Question::EventStandings(name) => standings(alloc, version, conn, name.as_str(), moment),
        Question::GameClock(game) => clock(alloc, version, conn, *game, moment),
        Question::GameJson(game) => game_body(alloc, conn, *game),
        Question::GamePage(game) => page(alloc, version, conn, *game, moment),
        Question::LegalMovesJson(game) => moves_body(alloc, conn, *game),
        Question::Board { game, letters } => board(alloc, conn, *game, *letters, moment),
        Question::EventRecords(_) => of_lists(alloc, version, conn, question, moment),
        Question::Analysis(asked) => analysis(alloc, version, conn, asked),
        Question::Rulings(game) => ruling_lines(alloc, version, conn, *game),
        Question::RulingsJson(game) => ruling_objects(alloc, version, conn, *game),
        Question::RulingOrders(bulk) => ruling_orders(alloc, version, conn, bulk, moment),
    }
}
