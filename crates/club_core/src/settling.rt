//! The end and the result of a game after a decision.

ghost use Rattle.std.specs.Prelude.{◌≡◌};
ghost use Rattle.club_core.specs.internal.View.{settled_by, settled_of, answer_with, concluded};

use crate::decided::Decision;
use crate::ends::{game_end, name_of_end, rule_in, score_of_end};
use crate::rows::{GameEnd, GameRow, Made};
use club_requests::{Answer, MoveAnswer};
use club_rules::Rules;
use squares::Score;

/// The end of a game and its result, both `None` while the game is running.
#[derive(Drop)]
pub struct Settled<R: Rules> {
    pub end: Option<GameEnd<R::End>>,
    pub result: Option<Score>,
}

/// Applies the rules' ending conditions to the last move.
fn settle_move<R: Rules>(
    row: &GameRow<R::End>,
    made: &Made<R>,
    times: usize,
    first_ply: usize,
) -> Settled<R>
    ensures { result ≡ settled_by R.rules
        (R.rules.track_end (R.rules.track_of row.now.track.0 row.now.track.1)
        made.now.position row.now.plies times first_ply)
        (R.rules.turn made.now.position) }
{
    let track = R::track_of(row.track.0, row.track.1);
    let end = R::track_end(track, &made.position, row.plies as usize, times, first_ply);
    Settled {
        end: game_end(end),
        result: score_of_end::<R>(end, R::turn(&made.position)),
    }
}

/// The end and the result of a game after a decision.
///
/// After a move, `times` is the number of occurrences of the new position, including this one, and `first_ply` is the
/// ply after which it first occurred. All other decisions ignore both numbers.
pub fn settle<R: Rules>(decision: &Decision<R>, times: usize, first_ply: usize) -> Settled<R>
    ensures { result ≡ settled_of R.rules decision.now times first_ply }
{
    match decision {
        Decision::Accepted {
            row,
            made,
            answer: _,
        } => match made {
            Some(made) => settle_move(row, made, times, first_ply),
            None => Settled {
                end: row.end,
                result: row.result,
            },
        },
        _ => Settled {
            end: None,
            result: None,
        },
    }
}

/// Adds the end that the rules gave to the answer to a move. Any other answer is returned unchanged.
fn answer_with<R: Rules>(end: &Option<GameEnd<R::End>>, answer: Answer) -> Answer
    ensures { result ≡ answer_with R.rules end.now answer }
{
    match answer {
        Answer::Moved(moved) => Answer::Moved(MoveAnswer {
            ply: moved.ply,
            text: moved.text,
            left: moved.left,
            position: moved.position,
            end: name_of_end::<R>(rule_in(end)),
        }),
        other => other,
    }
}

/// Completes an accepted decision with its end and its result.
pub fn conclude<R: Rules>(decision: Decision<R>, settled: Settled<R>) -> Decision<R>
    ensures { result ≡ concluded R.rules decision settled }
{
    match decision {
        Decision::Accepted { row, made, answer } => {
            let answer = answer_with::<R>(&settled.end, answer);
            let mut row = row;
            row.end = settled.end;
            row.result = settled.result;
            Decision::Accepted { row, made, answer }
        }
        other => other,
    }
}
