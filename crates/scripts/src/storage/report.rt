//! The results of a script.

use crate::storage::script::ScriptLine;
use std::alloc::{AllocError, Global};

/// The number of lines that hold, the lines that differ, and the number of injected crashes.
#[derive(Drop)]
pub struct RunReport {
    holding: u64,
    differing: String,
    stops: u64,
}

impl RunReport {
    /// An empty report.
    pub fn new(alloc: Global) -> RunReport {
        RunReport {
            holding: 0,
            differing: String::new(alloc),
            stops: 0,
        }
    }

    /// Records the result of a line.
    pub fn compare(
        &mut self,
        alloc: Global,
        line: &ScriptLine<'_>,
        got: &str,
    ) -> Result<(), AllocError> {
        if line.wanted == got {
            self.holding = self.holding.saturating_add(1);
            return Ok(());
        }
        self.differ(alloc, line, got)
    }

    /// Records that a line differs.
    pub fn differ(
        &mut self,
        alloc: Global,
        line: &ScriptLine<'_>,
        got: &str,
    ) -> Result<(), AllocError> {
        let (number, text, wanted) = (line.number, line.text, line.wanted);
        let told = format!(in alloc; "line {number}: {text}: wanted {wanted} .. got {got}\n")?;
        self.differing.push_str(told.as_str())
    }

    /// Adds to the number of injected crashes.
    pub fn add_stops(&mut self, stops: u64) {
        self.stops = self.stops.saturating_add(stops);
    }

    /// The number of injected crashes.
    pub fn stops(&self) -> u64 {
        self.stops
    }

    /// Whether there are lines, and all of them hold.
    pub fn holds(&self) -> bool {
        self.differing.is_empty() && self.holding > 0
    }

    /// The lines that differ, and the number of those that hold.
    pub fn summary(&self, alloc: Global) -> Result<String, AllocError> {
        format!(in alloc; "{}{} lines hold", self.differing.as_str(), self.holding)
    }
}
