//! Answers to queries, as the HTTP application takes them.

ghost use Rattle.std.specs.Prelude.{◌≡◌};
ghost use Rattle.http_bodies.specs.ShownViews.{shown_view};
ghost use Rattle.club_session.specs.internal.Served.{written};

use club_requests::Refusal;

// The bytes of the answer, or the refusal.
pub(crate) fn text_or_refusal(refusal: Option<Refusal>, bytes: Vec<u8>) -> Result<Vec<u8>, Refusal>
    ensures { shown_view result ≡ written refusal bytes.items }
{
    match refusal {
        None => Ok(bytes),
        Some(refusal) => Err(refusal),
    }
}
