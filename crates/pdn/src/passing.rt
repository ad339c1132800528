//! Matching of the landing squares that a text names with the routes of a capture.
ghost use Rattle.std.specs.Prelude.{◌≡◌};
ghost use Rattle.std.specs.List.{list_any};
ghost use Rattle.pdn.specs.internal.Subsequence.{unmatched_after, is_subsequence};
ghost use Rattle.pdn.specs.internal.Passing.{passes};

use squares::Dsq;

/// The named squares that are still unmatched after a landing on `square`.
pub fn unmatched_after<'a>(left: &'a [Dsq], square: Dsq) -> &'a [Dsq]
    ensures { result.now ≡ unmatched_after left.now square }
{
    match left {
        [first, rest @ ..] if *first == square => rest,
        _ => left,
    }
}

fn is_subsequence(middle: &[Dsq], squares: &[Dsq]) -> bool
    ensures { result ≡ is_subsequence middle.now squares.now }
{
    let mut left = middle;
    for square in squares {
        left = unmatched_after(left, *square);
    }
    left.is_empty()
}

// Whether the named squares occur, in order, among the squares of a route before its last.
fn passes(middle: &[Dsq], route: &[Dsq]) -> bool
    ensures { result ≡ passes middle.now route.now }
{
    if route.is_empty() {
        return false;
    }
    is_subsequence(middle, &route[..route.len() - 1])
}

/// Whether some route contains the named squares in order.
pub fn some_passes(middle: &[Dsq], routes: &[Vec<Dsq>]) -> bool
    ensures { result ≡ list_any (λ route. passes middle.now route.items) routes.now }
{
    routes.iter().any(|route| passes(middle, route.as_slice()))
}
