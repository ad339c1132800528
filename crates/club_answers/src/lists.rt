//! Queries that list events or games, all from one reading of the club.

ghost use Rattle.std.specs.Prelude.{◌≡◌, ℕ, IfOk, is_ok};
ghost use Rattle.sqlite.specs.State.{HasCleanDisk};
ghost use Rattle.sqlite.specs.Held.{state};
ghost use Rattle.store_tables.specs.Reading.{Reads};
ghost use Rattle.club_rows.specs.Club.{ClubState, IsClub, StoresClub};
ghost use Rattle.club_rows.specs.Tables.{version_of};
ghost use Rattle.club_requests.specs.declared.questions.Question.TheVariants as question;
ghost use Rattle.club_answers.specs.internal.Found.{IsFound, IsFoundAs, IsReadOf};
ghost use Rattle.club_answers.specs.AnswerTexts.{IsEventGamesText, IsEventsText, IsGamesText, IsChallengeChoicesText};
ghost use Rattle.club_answers.specs.AnswerTexts.{IsEndedGamesText, IsEventsJson, IsGamesJson};
ghost use Rattle.club_answers.specs.AnswerTexts.{IsNoEventNamed, IsNoKey, IsNoList};

use crate::found::Shown;
use crate::read::{ClubRead, read_club};
use clocks::Moment;
use club_lists::{
    challenge_choices_json, ended_games_json, event_game_ids, event_games_text, event_kind,
    events_json, events_text, games_json, games_text, has_event, listing_refusal,
    member_name_by_key,
};
use club_reads::LookupFault;
use club_requests::{Listing, Question, Refusal};
use sqlite::{Alter, Connection};
use std::alloc::Global;
use store_tables::Version;

fn events(alloc: Global, club: &ClubRead) -> Result<Shown, LookupFault>
    ensures { IfOk result (λ found. (s : ClubState) (moment : ℕ) → IsReadOf s moment club.now →
        IsFoundAs (IsEventsText s) (λ refusal. ⊥) found) }
{
    let text = events_text(alloc, &club.events, &club.games)?;
    Ok(Shown::Text(text))
}

// The games in this listing, or the refusal of the listing.
fn games(alloc: Global, club: &ClubRead, listing: &Listing) -> Result<Shown, LookupFault>
    ensures { IfOk result (λ found. (s : ClubState) (moment : ℕ) → IsReadOf s moment club.now →
        IsFoundAs (IsGamesText s moment listing.now) (IsNoList s listing.now) found) }
{
    match listing_refusal(listing, &club.members, &club.events) {
        Some(refusal) => Ok(Shown::Refused(refusal)),
        None => {
            let text = games_text(
                alloc,
                listing,
                &club.members,
                &club.events,
                &club.games,
                club.moment,
            )?;
            Ok(Shown::Text(text))
        }
    }
}

// The events, as JSON.
fn event_objects(alloc: Global, club: &ClubRead) -> Result<Shown, LookupFault>
    ensures { IfOk result (λ found. (s : ClubState) (moment : ℕ) → IsReadOf s moment club.now →
        IsFoundAs (IsEventsJson s) (λ refusal. ⊥) found) }
{
    let text = events_json(alloc, &club.events, &club.games)?;
    Ok(Shown::Text(text))
}

// The games in this listing, as JSON, or the refusal of the listing.
fn game_objects(alloc: Global, club: &ClubRead, listing: &Listing) -> Result<Shown, LookupFault>
    ensures { IfOk result (λ found. (s : ClubState) (moment : ℕ) → IsReadOf s moment club.now →
        IsFoundAs (IsGamesJson s moment listing.now) (IsNoList s listing.now) found) }
{
    match listing_refusal(listing, &club.members, &club.events) {
        Some(refusal) => Ok(Shown::Refused(refusal)),
        None => {
            let text = games_json(
                alloc,
                listing,
                &club.members,
                &club.events,
                &club.games,
                club.moment,
            )?;
            Ok(Shown::Text(text))
        }
    }
}

// The events, and the members whom the holder of this key can challenge.
fn inviting(alloc: Global, club: &ClubRead, key: &str) -> Result<Shown, LookupFault>
    ensures { IfOk result (λ found. (s : ClubState) (moment : ℕ) → IsReadOf s moment club.now →
        IsFoundAs (IsChallengeChoicesText s key.now) (IsNoKey s key.now) found) }
{
    match member_name_by_key(&club.members, key) {
        Some(_) => {
            let text = challenge_choices_json(alloc, key, &club.members, &club.events)?;
            Ok(Shown::Text(text))
        }
        None => Ok(Shown::Refused(Refusal::UnknownKey)),
    }
}

// The ended games of the holder of this key.
fn ended_games(alloc: Global, club: &ClubRead, key: &str) -> Result<Shown, LookupFault>
    ensures { IfOk result (λ found. (s : ClubState) (moment : ℕ) → IsReadOf s moment club.now →
        IsFoundAs (IsEndedGamesText s moment key.now) (IsNoKey s key.now) found) }
{
    let Some(name) = member_name_by_key(&club.members, key) else {
        return Ok(Shown::Refused(Refusal::UnknownKey));
    };
    let text = ended_games_json(
        alloc,
        &club.members,
        &club.events,
        name,
        club.moment,
        &club.games,
    )?;
    Ok(Shown::Text(text))
}

// The games of the event with this name.
fn event_games(alloc: Global, club: &ClubRead, name: &str) -> Result<Shown, LookupFault>
    ensures { IfOk result (λ found. (s : ClubState) (moment : ℕ) → IsReadOf s moment club.now →
        IsFoundAs (IsEventGamesText s name.now) (IsNoEventNamed s name.now) found) }
{
    if !has_event(&club.events, name) {
        return Ok(Shown::Refused(Refusal::UnknownEvent));
    }
    let text = event_games_text(alloc, &club.members, &club.events, name, &club.games)?;
    Ok(Shown::Text(text))
}

// The ids of the games of the event with this name, whose records are written.
fn event_records(alloc: Global, club: &ClubRead, name: &String) -> Result<Shown, LookupFault>
    ensures { IfOk result (λ found. (s : ClubState) (moment : ℕ) → IsReadOf s moment club.now →
        IsFound s moment (question.EventRecords name.now) found) }
{
    if !has_event(&club.events, name.as_str()) {
        return Ok(Shown::Refused(Refusal::UnknownEvent));
    }
    let ids = event_game_ids(alloc, &club.events, name.as_str(), &club.games)?;
    let kind = event_kind(&club.events, name.as_str());
    Ok(Shown::Records(kind, ids))
}

// The answer to one of the queries of this module, from a club that was read.
fn shown_of(alloc: Global, club: &ClubRead, question: &Question) -> Result<Shown, LookupFault>
    ensures { IfOk result (λ found. (s : ClubState) (moment : ℕ) → IsReadOf s moment club.now →
        IsFound s moment question.now found) }
{
    match question {
        Question::Events => events(alloc, club),
        Question::Games(listing) => games(alloc, club, listing),
        Question::EventsJson => event_objects(alloc, club),
        Question::GamesJson(listing) => game_objects(alloc, club, listing),
        Question::EndedGames(key) => ended_games(alloc, club, key.as_str()),
        Question::ChallengeChoices(key) => inviting(alloc, club, key.as_str()),
        Question::EventGames(name) => event_games(alloc, club, name.as_str()),
        Question::EventRecords(name) => event_records(alloc, club, name),
        _ => Err(LookupFault::Store),
    }
}

/// Finds the answer to a query that lists events or games; any other query is an error.
pub(crate) fn of_lists<S: Alter>(
    alloc: Global,
    version: Version,
    conn: &mut Connection<S>,
    question: &Question,
    moment: Moment,
) -> Result<Shown, LookupFault>
    ensures reads { Reads (is_ok result) (state S.Store conn.old) (state S.Store conn.new) }
    ensures found { HasCleanDisk (state S.Store conn.new) → IfOk result (λ found. (s : ClubState) → IsClub s →
        version ≡ version_of s → StoresClub s (state S.Store conn.old) → IsFound s moment question.now found) }
{
    let club = read_club(alloc, version, conn, moment)?;
    let found = shown_of(alloc, &club, question)?;
    Ok(found)
}
