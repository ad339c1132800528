//! The test program `scripts`: runs scripts from standard input, and prints each line whose result differs.
//!
//! A script begins with a heading, `== rules` or `== storage`, and the script `stdin` of this crate describes the lines
//! of both. The last line of its report is the number of lines that hold. Lines are counted from the heading.
#![tactic(auto)]

mod rules;
mod storage;

use anyhow::bail;
use std::io::{Read, Write};
use std::process::ExitCode;

fn read_input(rt: &HostRuntime) -> anyhow::Result<String> {
    let mut text = String::new(rt.alloc());
    rt.stdin().read_to_string(&mut text)?;
    Ok(text)
}

// Runs a script that stands under this heading; whether every line holds.
fn holds(rt: &HostRuntime, heading: &str, script: &str) -> anyhow::Result<bool> {
    match heading {
        "rules" => rules::holds(rt, script),
        "storage" => storage::holds(rt, script),
        _ => bail!("no scripts have the heading {heading}"),
    }
}

// Runs all scripts in order; whether every line holds.
fn all_hold(rt: &HostRuntime) -> anyhow::Result<bool> {
    let text = read_input(rt)?;
    let Some(scripts) = text.as_str().strip_prefix("== ") else {
        bail!("the first line is no heading");
    };
    let mut all = true;
    for part in scripts.split("\n== ") {
        let (heading, script) = part.split_once('\n').unwrap_or((part, ""));
        let holds = holds(rt, heading, script)?;
        all = all && holds;
    }
    Ok(all)
}

fn main(rt: HostRuntime) -> ExitCode {
    match all_hold(&rt) {
        Ok(true) => ExitCode::from(0),
        Ok(false) => ExitCode::from(1),
        Err(fault) => {
            let _ = writeln!(rt.stderr(), "{fault}");
            ExitCode::from(3)
        }
    }
}
