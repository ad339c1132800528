//! The rows that a sweep upserts: games lost on time, and their players' scores.

pub mod ended;
pub mod fault;
pub mod late;
pub mod laws;
pub mod rows;
pub mod standings;

pub use fault::SweepFault;
pub use rows::{SweptRows, swept_rows};
