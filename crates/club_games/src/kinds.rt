//! Static dispatch by the kind of a game.

/// Calls a generic function with the rules of a game's kind: `by_kind!(kind, judge::<_>(line))` calls
/// `judge::<Draughts>(line)` or `judge::<Shogi>(line)`.
#[macro_export]
macro_rules! by_kind {
    ($kind:expr, $call:ident::<_ $(, $more:ty)*>($($given:expr),* $(,)?)) => {
        match $kind {
            $crate::GameKind::Draughts => $call::<$crate::Draughts $(, $more)*>($($given),*),
            $crate::GameKind::Shogi => $call::<$crate::Shogi $(, $more)*>($($given),*),
        }
    };
}
