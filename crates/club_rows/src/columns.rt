//! Converts the row of a game to typed columns.

ghost use Rattle.std.specs.Prelude.{◌≡◌, ◌≤◌, ◌<◌, ◌^◌, ℕ, pos, Option, None, IfSome, string_bytes};
ghost use Rattle.std.specs.Option.{option_map};
ghost use Rattle.club_core.specs.declared.rows.Offer.{Offer};
ghost use Rattle.store_tables.specs.Cells.{game_cells};
ghost use Rattle.club_rows.specs.internal.Columns.{HasOffer, IsReadAs};

use crate::ends::{optional_score, side_of};
use crate::numbers;
use clocks::Moment;
use club_core::Offer;
use club_requests::values::MOST_PLIES;
use squares::Score;
use store_tables::GameTableRow;

/// The greatest track number. One below the type's limit, so that it can be incremented.
const MOST_TRACK: u32 = u32::MAX - 1;

/// The row of a game with its columns converted; texts are borrowed from the row.
/// Timestamps and remaining times are in seconds.
#[derive(Clone, Copy)]
pub struct GameColumns<'a> {
    pub id: u32,
    pub key: Option<&'a str>,
    pub event: u32,
    pub first: u32,
    pub second: u32,
    pub start: Moment,
    /// The timestamp of the last ply, or the start if there is none.
    pub since: Moment,
    pub plies: u32,
    pub left_first: u64,
    pub left_second: u64,
    pub offer: Option<Offer>,
    /// The name of the end, None while the game runs.
    pub end: Option<&'a str>,
    pub result: Option<Score>,
    pub position: &'a str,
    /// The two numbers of the rules' track (state that the rules keep beside the position).
    pub track: (u32, u32),
}

fn as_deref(text: &Option<String>) -> Option<&str>
    ensures { option_map (λ s. s.now) result ≡ option_map (λ s. string_bytes s) text.now }
{
    match text {
        Some(text) => Some(text.as_str()),
        None => None,
    }
}

// Parses the columns of the draw offer; Some(None) if there is no offer. None if only one column is NULL, or a value is
// out of range.
fn offer_in(row: &GameTableRow) -> Option<Option<Offer>>
    ensures some { IfSome result (HasOffer row.now) }
    ensures range { IfSome result (λ offer. IfSome offer (λ o. o.ply < 2 ^ 32)) }
    ensures none { result ≡ None → (offer : Option Offer) → IfSome offer (λ o. o.ply < 2 ^ 32) →
        ¬ HasOffer row.now offer }
{
    match row.offer_side {
        Some(side) => match row.offer_ply {
            Some(ply) => {
                let side = side_of(side)?;
                let ply = numbers::id(ply)?;
                Some(Some(Offer { side, ply }))
            }
            None => None,
        },
        None => match row.offer_ply {
            Some(_) => None,
            None => Some(None),
        },
    }
}

/// Converts the row of a game. None if a value is out of range.
pub fn stored_game(row: &GameTableRow) -> Option<GameColumns<'_>>
    ensures { IsReadAs (game_cells row.now) result }
{
    let id = numbers::id(row.id)?;
    let event = numbers::id(row.event)?;
    let first = numbers::id(row.first)?;
    let second = numbers::id(row.second)?;
    let start = numbers::to_moment(row.start)?;
    let since = numbers::to_moment(row.since)?;
    let plies = numbers::at_most(row.plies, MOST_PLIES)?;
    let left_first = numbers::to_u64(row.left1)?;
    let left_second = numbers::to_u64(row.left2)?;
    let offer = offer_in(row)?;
    let result = optional_score(&row.result)?;
    let track_first = numbers::at_most(row.track_a, MOST_TRACK)?;
    let track_second = numbers::at_most(row.track_b, MOST_TRACK)?;
    Some(GameColumns {
        id,
        key: as_deref(&row.key),
        event,
        first,
        second,
        start,
        since,
        plies,
        left_first,
        left_second,
        offer,
        end: as_deref(&row.end),
        result,
        position: row.position.as_str(),
        track: (track_first, track_second),
    })
}
