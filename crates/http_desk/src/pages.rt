//! Routes that query the club.
ghost use Rattle.std.specs.Prelude.{◌≡◌, false};
ghost use Rattle.club_requests.specs.Questions.{is_arbiters};
ghost use Rattle.http_bodies.specs.Analyses.{analysis_of};
ghost use Rattle.http_bodies.specs.ShownViews.{shown_view};
ghost use Rattle.http_desk.specs.Desk.{question_page, serve_analysis};
ghost use Rattle.http_desk.specs.Served.{IsOfCall, Serves};
ghost use Rattle.http_desk.specs.internal.Desk.{ServesDue};
ghost use Rattle.http_desk.specs.internal.DeskViews.{answer_view, endpoint_view};

use crate::desk::{AnswerFault, Response};
use crate::faults::ClubFault;
use crate::questions::question_of;
use crate::routes::Endpoint;
use crate::served::ClubService;
use crate::table::QuestionTopic;
use clocks::Moment;
use club_requests::{Question, Refusal};
use club_rules::GameKind;
use http_bodies::{ContentType, HttpRefusal, analysis_of};
use std::alloc::Global;

// Asks a query that is no arbiter's, so that its faults are those of a call.
fn ask_question<C: ClubService>(
    alloc: Global,
    club: &mut C,
    question: &Question,
    moment: Moment,
) -> Result<Result<Vec<u8>, Refusal>, ClubFault>
    requires { is_arbiters question.now ≡ false }
    ensures clean { C.IsClean club.new → C.IsClean club.old }
    ensures serves { C.IsClean club.new → (s : C.State) → C.Stands club.old s →
        Serves (C.Stands club.new) (C.Leaves club.new) s s
        (λ shown. C.club.IsShown s moment question.now (shown_view shown)) IsOfCall result }
{
    club.ask(alloc, question, moment)
}

// Answers the query of an endpoint on a topic, as a body of a content type.
pub(crate) fn serve_question<C: ClubService>(
    alloc: Global,
    club: &mut C,
    key: &str,
    query: (QuestionTopic, ContentType),
    asked: Endpoint<'_>,
    moment: Moment,
) -> Result<Response, AnswerFault>
    ensures clean { C.IsClean club.new → C.IsClean club.old }
    ensures serves { C.IsClean club.new → (s : C.State) → C.Stands club.old s →
        ServesDue C.club (C.Stands club.new) (C.Leaves club.new) answer_view s
        (s, question_page moment query.0 query.1 (endpoint_view asked.entry) key.now) result }
{
    let (topic, kind) = query;
    let question = question_of(alloc, topic, asked, key)?;
    match ask_question(alloc, club, &question, moment)? {
        Ok(bytes) => Ok(Response::Shows(kind, bytes)),
        Err(refusal) => Ok(Response::Refused(HttpRefusal::Club(refusal))),
    }
}

// Answers an analysis by the rules of a game that a body states.
pub(crate) fn serve_analysis<C: ClubService>(
    alloc: Global,
    club: &mut C,
    kind: GameKind,
    body: &[u8],
    moment: Moment,
) -> Result<Response, AnswerFault>
    ensures clean { C.IsClean club.new → C.IsClean club.old }
    ensures serves { C.IsClean club.new → (s : C.State) → C.Stands club.old s →
        ServesDue C.club (C.Stands club.new) (C.Leaves club.new) answer_view s
        (serve_analysis C.club s moment (analysis_of kind body.now)) result }
{
    let Some(analysis) = analysis_of(alloc, kind, body)? else {
        return Ok(Response::Refused(HttpRefusal::BadBody));
    };
    let question = Question::Analysis(analysis);
    match ask_question(alloc, club, &question, moment)? {
        Ok(bytes) => Ok(Response::Shows(ContentType::Json, bytes)),
        Err(reason) => Ok(Response::Refused(HttpRefusal::Club(reason))),
    }
}
