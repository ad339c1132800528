//! Runs the lines of a script.

use crate::storage::clubs::{
    copy_of, create_club, execute_sql, new_club, open_club, outcome_text, reopen_club, run, table,
    upgrade_club,
};
use crate::storage::courses::{CourseStart, whole_at_each_stop};
use crate::storage::files::{create_in_files, session, upgrade_in};
use crate::storage::held::Held;
use crate::storage::images::{Image, Stop, empty_files};
use crate::storage::report::RunReport;
use crate::storage::requests::request;
use crate::storage::rows::select_text;
use crate::storage::script::ScriptLine;
use crate::storage::upgrades::{told_upgrade, whole_or_old};
use anyhow::{Context, Result, bail};
use club_requests::Request;
use sqlite::{Connection, Options};
use std::alloc::{AllocError, Global};
use store::{OpenFault, Run};

fn read_requests(alloc: Global, group: &[ScriptLine<'_>]) -> Result<Vec<Request>> {
    let mut requests = Vec::new(alloc);
    for line in group {
        match request(alloc, line.word, line.asked) {
            Ok(asked) => requests.push(asked)?,
            Err(fault) => bail!("{fault} in line {}", line.number),
        }
    }
    Ok(requests)
}

// The outcomes of a run, and last its fault, if any.
fn told_run(alloc: Global, run: &Run) -> Result<Vec<String>> {
    let mut texts = Vec::new(alloc);
    for outcome in &run.outcomes {
        texts.push(format!(in alloc; "{outcome}")?)?;
    }
    if let Some(fault) = &run.fault {
        texts.push(format!(in alloc; "{fault}")?)?;
    }
    Ok(texts)
}

// Executes requests by one call; returns the new state and the result of each.
fn give(
    alloc: Global,
    held: Held,
    requests: &[Request],
    report: &mut RunReport,
) -> Result<(Held, Vec<String>)> {
    match held {
        Held::Stopped { start, frames } => {
            let whole = whole_at_each_stop(alloc, start, requests, frames)?;
            report.add_stops(whole.stops);
            Ok((Held::Files(whole.files), whole.outcomes))
        }
        Held::Files(files) => {
            let (run, files) = session(alloc, files, requests);
            Ok((Held::Files(files), told_run(alloc, &run?)?))
        }
        held => {
            let (club, run) = run(alloc, held.into_club(alloc)?, requests);
            Ok((Held::Club(club), told_run(alloc, &run)?))
        }
    }
}

fn new_files(alloc: Global, has_arbiter: bool) -> Result<Held> {
    let files = empty_files(alloc, Stop::Never);
    let (begun, files) = create_in_files(alloc, files, Options::new(1), has_arbiter);
    begun?;
    Ok(Held::Files(files))
}

// Whether the words begin with `arbiter`, and those after it.
fn with_arbiter(words: &str) -> (bool, &str) {
    match words.strip_prefix("arbiter") {
        Some(rest) => (true, rest.trim()),
        None => (false, words),
    }
}

fn new_held(alloc: Global, words: &str) -> Result<Held> {
    let (has_arbiter, place) = with_arbiter(words);
    match place {
        "" => Ok(Held::Club(new_club(alloc, has_arbiter)?)),
        "in files" => new_files(alloc, has_arbiter),
        _ => stopped_held(CourseStart::Nothing { has_arbiter }, place),
    }
}

// Whether the only word is `arbiter`; an error if there is another.
fn is_for_arbiter(words: &str) -> Result<bool> {
    let (has_arbiter, rest) = with_arbiter(words);
    if !rest.is_empty() {
        bail!("no such word");
    }
    Ok(has_arbiter)
}

// The state in which the next requests are crashed at each disk call.
fn stopped_held(start: CourseStart, place: &str) -> Result<Held> {
    let frames = place.strip_prefix("stopped ").context("no such place")?;
    Ok(Held::Stopped {
        start,
        frames: frames.parse()?,
    })
}

fn empty_held(alloc: Global, place: &str) -> Result<Held> {
    match place {
        "" => Ok(Held::Database(Connection::open_in_memory(alloc)?)),
        "in files" => Ok(Held::Files(empty_files(alloc, Stop::Never))),
        _ => bail!("no such place"),
    }
}

fn again(alloc: Global, held: Held) -> Result<Held> {
    match held {
        Held::Files(files) => {
            let (run, files) = session(alloc, files, &[]);
            run?;
            Ok(Held::Files(files))
        }
        held => Ok(Held::Club(reopen_club(alloc, held.into_connection()?)?)),
    }
}

fn retaken_held(alloc: Global, held: Held, place: &str) -> Result<Held> {
    if place.is_empty() {
        return again(alloc, held);
    }
    let image = Image::written_image(alloc, &held.into_files()?)?;
    stopped_held(CourseStart::Club(image), place)
}

// The result of opening files.
fn told_opening(alloc: Global, opened: Result<Run, OpenFault>) -> Result<String> {
    match opened {
        Ok(_) => Ok(String::from_str(alloc, "sound")?),
        Err(fault) => Ok(format!(in alloc; "{fault}")?),
    }
}

fn opens(alloc: Global, held: Held) -> Result<(Held, String)> {
    match held {
        Held::Files(files) => {
            let (run, files) = session(alloc, files, &[]);
            Ok((Held::Files(files), told_opening(alloc, run)?))
        }
        held => outcome_text(alloc, open_club(alloc, held.into_connection()?), "sound"),
    }
}

// The result of opening a copy of the club after one more statement. The club is unchanged.
fn damage(alloc: Global, held: Held, sql: &str) -> Result<(Held, String)> {
    let mut conn = held.into_connection()?;
    let copy = execute_sql(copy_of(alloc, &mut conn)?, sql)?;
    let (_opened, text) = outcome_text(alloc, open_club(alloc, copy), "sound")?;
    Ok((Held::Database(conn), text))
}

fn select(alloc: Global, held: Held, sql: &str) -> Result<(Held, String)> {
    let mut conn = held.into_connection()?;
    let text = select_text(alloc, &mut conn, sql);
    Ok((Held::Database(conn), text?))
}

fn show_table(alloc: Global, held: Held, event: &str) -> Result<(Held, String)> {
    let (club, text) = table(alloc, held.into_club(alloc)?, event);
    Ok((Held::Club(club), text?))
}

fn creates(alloc: Global, held: Held, words: &str) -> Result<(Held, String)> {
    let has_arbiter = is_for_arbiter(words)?;
    outcome_text(
        alloc,
        create_club(alloc, held.into_connection()?, has_arbiter),
        "ready",
    )
}

fn upgrades(alloc: Global, held: Held, words: &str) -> Result<(Held, String)> {
    let has_arbiter = is_for_arbiter(words)?;
    match held {
        Held::Files(files) => {
            let (done, files) = upgrade_in(alloc, files, has_arbiter);
            Ok((Held::Files(files), told_upgrade(alloc, done)?))
        }
        held => {
            let (done, conn) = upgrade_club(alloc, held.into_connection()?, has_arbiter);
            Ok((Held::Database(conn), told_upgrade(alloc, done)?))
        }
    }
}

// The result of an upgrade that is crashed at each disk call: `upgrade` or `upgrade arbiter`.
fn stop_upgrade(
    alloc: Global,
    held: Held,
    words: &str,
    report: &mut RunReport,
) -> Result<(Held, String)> {
    let words = words
        .strip_prefix("upgrade")
        .context("only an upgrade is stopped so")?;
    let files = held.into_files()?;
    let whole = whole_or_old(alloc, &files, is_for_arbiter(words.trim())?)?;
    report.add_stops(whole.stops);
    Ok((Held::Files(files), whole.told))
}

fn done(alloc: Global, held: Result<Held>) -> Result<(Held, String)> {
    Ok((held?, String::from_str(alloc, "done")?))
}

// Runs a line that is no request; returns the new state and the result.
fn answer(
    alloc: Global,
    held: Held,
    line: &ScriptLine<'_>,
    report: &mut RunReport,
) -> Result<(Held, String)> {
    match line.word {
        "club" => done(alloc, new_held(alloc, line.asked)),
        "database" => done(alloc, empty_held(alloc, line.asked)),
        "again" => done(alloc, retaken_held(alloc, held, line.asked)),
        "sql" => done(alloc, held.execute_sql(alloc, line.asked)),
        "upgrades" => upgrades(alloc, held, line.asked),
        "creates" => creates(alloc, held, line.asked),
        "opens" => opens(alloc, held),
        "damage" => damage(alloc, held, line.asked),
        "rows" => select(alloc, held, line.asked),
        "table" => show_table(alloc, held, line.asked),
        "stopped" => stop_upgrade(alloc, held, line.asked, report),
        _ => bail!("no line begins so"),
    }
}

// Runs requests; returns the new state and the result of each. After one that is `alone`, the club is closed and
// opened again.
fn outcomes(
    alloc: Global,
    held: Held,
    group: &[ScriptLine<'_>],
    is_alone: bool,
    report: &mut RunReport,
) -> Result<(Held, Vec<String>)> {
    let (held, texts) = give(alloc, held, &read_requests(alloc, group)?, report)?;
    let held = if is_alone { again(alloc, held)? } else { held };
    Ok((held, texts))
}

// Runs a group of lines; returns the new state and the result of each.
fn answers(
    alloc: Global,
    held: Held,
    group: &[ScriptLine<'_>],
    report: &mut RunReport,
) -> Result<(Held, Vec<String>)> {
    let Some(first) = group.first() else {
        bail!("no line")
    };
    if first.is_request() {
        return outcomes(alloc, held, group, first.is_alone, report);
    }
    if first.is_alone {
        bail!("only a request is alone");
    }
    let (held, text) = answer(alloc, held, first, report)?;
    Ok((held, vec![in alloc; text]?))
}

// Compares the result of each line with the expected one. A run that ended early has no results for the last lines.
fn compare_all(
    alloc: Global,
    group: &[ScriptLine<'_>],
    texts: &[String],
    report: &mut RunReport,
) -> Result<(), AllocError> {
    for (index, line) in group.iter().enumerate() {
        match texts.get(index) {
            Some(text) => report.compare(alloc, line, text.as_str())?,
            None => report.differ(alloc, line, "not given")?,
        }
    }
    Ok(())
}

/// Runs a group of lines and records the results in the report. If one fails, all differ, and the state is reset.
///
/// # Errors
///
/// `AllocError` if out of memory.
pub fn take(
    alloc: Global,
    held: Held,
    group: &[ScriptLine<'_>],
    report: &mut RunReport,
) -> Result<Held, AllocError> {
    match answers(alloc, held, group, report) {
        Ok((held, texts)) => {
            compare_all(alloc, group, &texts, report)?;
            Ok(held)
        }
        Err(fault) => {
            let text = format!(in alloc; "{fault}")?;
            for line in group {
                report.differ(alloc, line, text.as_str())?;
            }
            Ok(Held::Nothing)
        }
    }
}
