//! Running of a script, and the report of its differences.

use crate::rules::answers::answer;
use crate::rules::texts::Texts;
use crate::rules::unanswered::Unanswered;
use crate::rules::words::unescape;
use std::alloc::Global;

/// The state of a run: the cases and the differences so far.
#[derive(Drop)]
pub struct ScriptReport {
    alloc: Global,
    texts: Texts,
    cases: usize,
    differing: usize,
    differences: String,
}

// Whether an answer is the expected one. An expected answer that ends with ` ..` is a prefix.
fn is_as_wanted(found: &str, wanted: &str) -> bool {
    match wanted.strip_suffix(" ..") {
        Some(beginning) => match found.strip_prefix(beginning) {
            Some(rest) => rest.starts_with(' '),
            None => false,
        },
        None => found == wanted,
    }
}

// The difference between the answer and the expected one, if any; an empty answer counts as `none`.
fn difference(alloc: Global, question: &str, wanted: &str) -> Result<Option<String>, Unanswered> {
    let wanted = unescape(alloc, wanted)?;
    let found = answer(alloc, question)?;
    let found = if found.is_empty() {
        "none"
    } else {
        found.as_str()
    };
    if is_as_wanted(found, wanted.as_str()) {
        return Ok(None);
    }
    Ok(Some(format!(in alloc; "wanted {wanted} got {found}")?))
}

impl ScriptReport {
    /// The report before the first line.
    pub fn new(alloc: Global) -> ScriptReport {
        ScriptReport {
            alloc,
            texts: Texts::new(alloc),
            cases: 0,
            differing: 0,
            differences: String::new(alloc),
        }
    }

    // Runs a line and returns its difference, if any.
    fn fault_of(&mut self, line: &str) -> Result<Option<String>, Unanswered> {
        let line = self.texts.expand_names(line)?;
        let (question, wanted) = line.as_str().split_once(" = ").ok_or(Unanswered::Answer)?;
        match question.strip_prefix("text ") {
            Some(name) => {
                self.texts.give(name, wanted)?;
                Ok(None)
            }
            None => {
                self.cases = self.cases.saturating_add(1);
                difference(self.alloc, question, wanted.trim())
            }
        }
    }

    // Records the difference of a line.
    fn note(&mut self, number: usize, line: &str, fault: &str) -> Result<(), Unanswered> {
        self.differing = self.differing.saturating_add(1);
        let (question, _) = line.split_once(" = ").unwrap_or((line, ""));
        let noted = format!(in self.alloc; "line {number}: {question}: {fault}\n")?;
        self.differences.push_str(noted.as_str())?;
        Ok(())
    }

    /// Runs the line with this number, counted from 1: the definition of a text, or a question with its answer.
    pub fn take(&mut self, number: usize, line: &str) -> Result<(), Unanswered> {
        if line.is_empty() || line.starts_with('#') {
            return Ok(());
        }
        match self.fault_of(line) {
            Ok(None) => Ok(()),
            Ok(Some(fault)) => self.note(number, line, fault.as_str()),
            Err(reason) => {
                let fault = format!(in self.alloc; "{reason}")?;
                self.note(number, line, fault.as_str())
            }
        }
    }

    /// Whether there are cases, and no line differs.
    pub fn holds(&self) -> bool {
        self.cases > 0 && self.differing == 0
    }

    /// The text of the report.
    pub fn text(&self) -> Result<String, Unanswered> {
        let (cases, differing) = (self.cases, self.differing);
        if self.holds() {
            return Ok(format!(in self.alloc; "{cases} cases hold")?);
        }
        let differences = self.differences.as_str();
        Ok(format!(in self.alloc; "{differences}of {cases} cases {differing} differ")?)
    }
}

/// Runs a script. A backslash at the end of a line continues it on the next one.
pub fn report_of(alloc: Global, script: &str) -> Result<ScriptReport, Unanswered> {
    let mut report = ScriptReport::new(alloc);
    let mut line = String::new(alloc);
    let mut number: usize = 0;
    for part in script.lines() {
        number = number.saturating_add(1);
        match part.strip_suffix('\\') {
            Some(beginning) => line.push_str(beginning)?,
            None => {
                line.push_str(part)?;
                report.take(number, line.as_str())?;
                line.clear();
            }
        }
    }
    report.take(number, line.as_str())?;
    Ok(report)
}
