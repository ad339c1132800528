//! A game, its clock and its legal moves as one JSON object.

ghost use Rattle.std.specs.Prelude.{◌≡◌, IfOk, string_bytes};
ghost use Rattle.serde_json.specs.View.{view};
ghost use Rattle.serde_json.specs.Written.{compact_text};
ghost use Rattle.club_core.specs.internal.Answer.{members_of};
ghost use Rattle.club_lists.specs.Bodies.{game_data};
ghost use Rattle.club_lists.specs.Clock.{clock_data};
ghost use Rattle.club_lists.specs.Lines.{game_name};
ghost use Rattle.club_lists.specs.Page.{page_data};
ghost use Rattle.club_lists.specs.ShownViews.{texts_view};
ghost use Rattle.club_lists.specs.internal.ShownViews.{game_view};
ghost use Rattle.club_lists.specs.internal.SummaryViews.{summary_of};

use crate::bodies::game_value;
use crate::clock::clock_value;
use crate::game_entry::GameEntry;
use crate::lines::game_name;
use crate::shown::GameShown;
use crate::values::text_array;
use clocks::Moment;
use club_core::Member;
use club_rules::GameKind;
use serde_json::{Value, json};
use std::alloc::{AllocError, Global};

/// All that the page of a game shows, beside the names of its players.
#[derive(Drop)]
pub struct GamePage {
    pub summary: GameEntry,
    pub kind: GameKind,
    pub shown: GameShown,
    /// The legal moves, in notation.
    pub legal: Vec<String>,
}

#[tactic(auto, unfolding(crate::specs::Page::page_data))]
fn page_value(
    alloc: Global,
    members: &[Member],
    page: GamePage,
    moment: Moment,
) -> Result<Value, AllocError>
    ensures { IfOk result (λ value. view value ≡ page_data
        (clock_data (members_of members.now) moment (summary_of page.summary))
        (game_data page.summary.id (game_view page.shown)) (game_name page.kind) (texts_view page.legal.items)) }
{
    json!(in alloc; {
        "clock": clock_value(alloc, members, &page.summary, moment)?,
        "game": game_value(alloc, u64::from(page.summary.id), &page.shown)?,
        "kind": game_name(page.kind),
        "legal": text_array(alloc, &page.legal)?
    })
}

/// A game with its clock at a timestamp, its kind and its legal moves, as a JSON object.
///
/// # Errors
///
/// `AllocError` if out of memory.
#[tactic(auto, using(crate::proofs::FloatLemmas::page_float))]
pub fn page_text(
    alloc: Global,
    members: &[Member],
    page: GamePage,
    moment: Moment,
) -> Result<String, AllocError>
    ensures { IfOk result (λ text. string_bytes text ≡ compact_text (page_data
        (clock_data (members_of members.now) moment (summary_of page.summary))
        (game_data page.summary.id (game_view page.shown)) (game_name page.kind) (texts_view page.legal.items))) }
{
    let value = page_value(alloc, members, page, moment)?;
    value.to_string(alloc)
}
