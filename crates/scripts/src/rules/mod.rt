//! Scripts of questions about rules, texts and records: a line is a question and its expected answer.

mod answers;
mod club;
mod csa_questions;
mod csa_written;
mod draughts_board;
mod draughts_lines;
mod draughts_questions;
mod faults;
mod pdn_questions;
mod pdn_written;
mod script;
mod shogi_board;
mod shogi_lines;
mod shogi_questions;
mod shogi_told;
mod texts;
mod unanswered;
mod words;
mod writers;

use crate::rules::script::report_of;
use crate::rules::unanswered::Unanswered;
use anyhow::bail;
use std::alloc::Global;

// The text of the report of a script, and whether every line holds.
fn reported(alloc: Global, script: &str) -> Result<(String, bool), Unanswered> {
    let report = report_of(alloc, script)?;
    Ok((report.text()?, report.holds()))
}

/// Runs a script and prints its report; whether every line holds.
pub fn holds(rt: &HostRuntime, script: &str) -> anyhow::Result<bool> {
    match reported(rt.alloc(), script) {
        Ok((text, holds)) => {
            println!(rt; "{}", text.as_str())?;
            Ok(holds)
        }
        Err(reason) => bail!("{reason}"),
    }
}
