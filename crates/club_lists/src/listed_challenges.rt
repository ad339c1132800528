//! The challenges that are listed for a member, and how many others there are.

ghost use Rattle.std.specs.Prelude.{◌≡◌, IfOk, count_by};
ghost use Rattle.serde_json.specs.View.{view};
ghost use Rattle.club_core.specs.internal.Answer.{members_of};
ghost use Rattle.club_lists.specs.Shows.{has_room, is_accepted, is_from, is_open, is_own_challenge, is_received};
ghost use Rattle.club_lists.specs.Shows.{more_data, own_left_out, own_listed, received_left_out, received_listed};

use crate::listing::member_name;
use club_core::{Challenge, ChallengeState, Member};
use serde_json::{Value, json};
use std::alloc::{AllocError, Global};

// The most open or accepted challenges by a member that the list has.
const MOST_OWN: usize = 100;

// The most open challenges to a member that the list has.
const MOST_RECEIVED: usize = 100;

// The most of these from one challenger.
const MOST_OF_EACH: usize = 10;

fn is_open(standing: ChallengeState) -> bool
    ensures { result ≡ is_open standing }
{
    match standing {
        ChallengeState::Open => true,
        ChallengeState::Withdrawn => false,
        ChallengeState::Refused => false,
        ChallengeState::Accepted { game: _ } => false,
    }
}

fn is_accepted(standing: ChallengeState) -> bool
    ensures { result ≡ is_accepted standing }
{
    match standing {
        ChallengeState::Open => false,
        ChallengeState::Withdrawn => false,
        ChallengeState::Refused => false,
        ChallengeState::Accepted { game: _ } => true,
    }
}

// Whether the challenge is one of the member with this name, and is open or was accepted.
fn is_own_challenge(members: &[Member], name: &str, challenge: &Challenge) -> bool
    ensures { result ≡ is_own_challenge (members_of members.now) name.now challenge.now }
{
    if member_name(members, challenge.member) != name {
        return false;
    }
    if is_open(challenge.standing) {
        return true;
    }
    is_accepted(challenge.standing)
}

// Whether the challenge is one to the member with this name, and is open.
fn is_received(members: &[Member], name: &str, challenge: &Challenge) -> bool
    ensures { result ≡ is_received (members_of members.now) name.now challenge.now }
{
    if member_name(members, challenge.other) != name {
        return false;
    }
    is_open(challenge.standing)
}

// The number of own challenges of the member with this name.
fn count_own(members: &[Member], name: &str, challenges: &[Challenge]) -> usize
    ensures { result ≡ count_by (is_own_challenge (members_of members.now) name.now) challenges.now }
{
    challenges
        .iter()
        .filter(|challenge| is_own_challenge(members, name, challenge))
        .count()
}

// The number of challenges to the member with this name.
fn count_received(members: &[Member], name: &str, challenges: &[Challenge]) -> usize
    ensures { result ≡ count_by (is_received (members_of members.now) name.now) challenges.now }
{
    challenges
        .iter()
        .filter(|challenge| is_received(members, name, challenge))
        .count()
}

fn is_from(challenger: u32, challenge: &Challenge) -> bool
    ensures { result ≡ is_from challenger challenge.now }
{
    challenge.member == challenger
}

// The number of challenges of this challenger.
fn count_from(challenger: u32, challenges: &[Challenge]) -> usize
    ensures { result ≡ count_by (is_from challenger) challenges.now }
{
    challenges
        .iter()
        .filter(|challenge| is_from(challenger, challenge))
        .count()
}

// Whether a further challenge is listed after these.
fn has_room(listed: &[Challenge], challenge: &Challenge) -> bool
    ensures { result ≡ has_room listed.now challenge.now }
{
    if listed.len() >= MOST_RECEIVED {
        return false;
    }
    count_from(challenge.member, listed) < MOST_OF_EACH
}

/// The last own challenges of the member with this name.
pub(crate) fn own_listed(
    alloc: Global,
    members: &[Member],
    name: &str,
    challenges: &[Challenge],
) -> Result<Vec<Challenge>, AllocError>
    ensures { IfOk result (λ listed. listed.items ≡ own_listed (members_of members.now) name.now challenges.now) }
{
    let mut older = count_own(members, name, challenges).saturating_sub(MOST_OWN);
    let mut listed = Vec::new(alloc);
    for challenge in challenges {
        if !is_own_challenge(members, name, challenge) {
            continue;
        }
        if older > 0 {
            older -= 1;
            continue;
        }
        listed.push(*challenge)?;
    }
    Ok(listed)
}

/// The first challenges of each challenger to the member with this name.
pub(crate) fn received_listed(
    alloc: Global,
    members: &[Member],
    name: &str,
    challenges: &[Challenge],
) -> Result<Vec<Challenge>, AllocError>
    ensures { IfOk result (λ listed. listed.items ≡
        received_listed (members_of members.now) name.now challenges.now) }
{
    let mut listed = Vec::new(alloc);
    for challenge in challenges {
        if !is_received(members, name, challenge) {
            continue;
        }
        if !has_room(&listed, challenge) {
            continue;
        }
        listed.push(*challenge)?;
    }
    Ok(listed)
}

// How many more own challenges of the member with this name there are.
fn own_left_out(members: &[Member], name: &str, challenges: &[Challenge]) -> usize
    ensures { result ≡ own_left_out (members_of members.now) name.now challenges.now }
{
    count_own(members, name, challenges).saturating_sub(MOST_OWN)
}

// How many more challenges to the member with this name there are.
fn received_left_out(
    alloc: Global,
    members: &[Member],
    name: &str,
    challenges: &[Challenge],
) -> Result<usize, AllocError>
    ensures { IfOk result (λ n. n ≡ received_left_out (members_of members.now) name.now challenges.now) }
{
    let listed = received_listed(alloc, members, name, challenges)?;
    Ok(count_received(members, name, challenges).saturating_sub(listed.len()))
}

/// The object with the numbers of challenges that are left out.
#[tactic(auto, unfolding(crate::specs::Shows::more_data))]
pub(crate) fn more_value(
    alloc: Global,
    members: &[Member],
    name: &str,
    challenges: &[Challenge],
) -> Result<Value, AllocError>
    ensures { IfOk result (λ value. view value ≡ more_data (members_of members.now) name.now challenges.now) }
{
    json!(in alloc; {
        "from": own_left_out(members, name, challenges),
        "to": received_left_out(alloc, members, name, challenges)?
    })
}
