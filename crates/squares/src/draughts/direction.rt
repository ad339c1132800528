//! The four diagonal directions.

/// A diagonal direction. Up is toward row 0, left is toward column 0.
#[derive(Clone, Copy, Debug, PartialEq, Eq)]
pub enum Direction {
    UpLeft,
    UpRight,
    DownLeft,
    DownRight,
}
