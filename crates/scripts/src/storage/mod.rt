//! Scripts of requests to the store, with a crash injected at each disk call.

mod answers;
mod clubs;
mod courses;
mod files;
mod held;
mod images;
mod report;
mod requests;
mod rows;
mod script;
mod upgrades;

use crate::storage::held::Held;
use crate::storage::report::RunReport;

// Runs the lines of the script in order.
fn reported(rt: &HostRuntime, text: &str) -> anyhow::Result<RunReport> {
    let mut report = RunReport::new(rt.alloc());
    let mut held = Held::Nothing;
    for group in &script::groups(rt.alloc(), text)? {
        held = answers::take(rt.alloc(), held, group.as_slice(), &mut report)?;
    }
    drop(held);
    Ok(report)
}

/// Runs a script and prints its report; whether every line holds. The number of injected crashes goes to standard
/// error, so that the expected output does not depend on it.
pub fn holds(rt: &HostRuntime, script: &str) -> anyhow::Result<bool> {
    let report = reported(rt, script)?;
    println!(rt; "{}", report.summary(rt.alloc())?.as_str())?;
    eprintln!(rt; "{} stops", report.stops())?;
    Ok(report.holds())
}
