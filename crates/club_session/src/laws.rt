//! Properties of served clubs. Each is the contract of a function with an empty body.

ghost use Rattle.club_session.specs.Repeats.{AnswersAlike};

use club_games::{Draughts, Shogi};
use club_laws::laws::commands_are_idempotent;

/// A repeated request gets the reply of the accepted one, byte for byte, and changes nothing, whatever sessions and
/// upgrades came between (idempotence). It has the key that the member has then.
pub fn repeats_are_due_alike()
    ensures { AnswersAlike }
{
    commands_are_idempotent::<Draughts, Shogi>();
}
