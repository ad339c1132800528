//! Queries of members: the question that an endpoint asks.
ghost use Rattle.std.specs.Prelude.{◌≡◌, IfOk, false};
ghost use Rattle.club_requests.specs.Questions.{is_arbiters};
ghost use Rattle.http_desk.specs.internal.DeskViews.{endpoint_view};
ghost use Rattle.http_desk.specs.Questions.{Asks};

use crate::routes::Endpoint;
use crate::table::QuestionTopic;
use club_requests::Question;
use std::alloc::{AllocError, Global};

// The question of an endpoint on a topic, by the holder of a key.
pub(crate) fn question_of(
    alloc: Global,
    topic: QuestionTopic,
    endpoint: Endpoint<'_>,
    key: &str,
) -> Result<Question, AllocError>
    ensures asks { IfOk result (λ question. Asks topic (endpoint_view endpoint.entry) key.now question) }
    ensures members { IfOk result (λ question. is_arbiters question ≡ false) }
{
    let game = u64::from(endpoint.id);
    match topic {
        QuestionTopic::GameView => Ok(Question::GameJson(game)),
        QuestionTopic::LegalMoves => Ok(Question::LegalMovesJson(game)),
        QuestionTopic::GameRecord => Ok(Question::Record(game)),
        QuestionTopic::GameClock => Ok(Question::GameClock(game)),
        QuestionTopic::GameRulings => Ok(Question::RulingsJson(game)),
        QuestionTopic::GamePage => Ok(Question::GamePage(game)),
        QuestionTopic::EventTable => {
            let event = String::from_str(alloc, endpoint.name)?;
            Ok(Question::CrossTable(event))
        }
        QuestionTopic::EventGames => {
            let event = String::from_str(alloc, endpoint.name)?;
            Ok(Question::EventGames(event))
        }
        QuestionTopic::EventStandings => {
            let event = String::from_str(alloc, endpoint.name)?;
            Ok(Question::EventStandings(event))
        }
        QuestionTopic::MyGames => {
            let key = String::from_str(alloc, key)?;
            Ok(Question::MyGames(key))
        }
        QuestionTopic::MyEndedGames => {
            let key = String::from_str(alloc, key)?;
            Ok(Question::EndedGames(key))
        }
        QuestionTopic::MyEvents => {
            let key = String::from_str(alloc, key)?;
            Ok(Question::ChallengeChoices(key))
        }
    }
}
