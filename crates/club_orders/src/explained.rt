//! Prints reports with an explanation as a second line.

ghost use Rattle.std.specs.Prelude.{◌≡◌, ◌≢◌, ◌⊎◌, ℕ, [], option_copied, take, string_bytes};
ghost use Rattle.std.specs.Io.KnownBytes.{Appends};
ghost use Rattle.club_orders.specs.Batches.{IsBegunWith};
ghost use Rattle.club_orders.specs.Explained.{answer_explained, explanation_line, input_explained, line_at};
ghost use Rattle.club_orders.specs.Explained.{IsFaultExplained, IsRefusalExplained, lost_explained};
ghost use Rattle.club_orders.specs.Explained.{opening_explained, question_explained, report_explained, second_line};
ghost use Rattle.club_orders.specs.Explained.{stop_explained, task_explained, unread_of};
ghost use Rattle.club_orders.specs.Lines.{object_line};
ghost use Rattle.club_orders.specs.Report.{report_status, report_text};

use crate::report::{DONE, Report, print};
use crate::texts::{object_end, object_text};
use crate::written::write_out;
use crate::{ExplainedFault, Explanation, UnreadObject, WrongValue, explain_refusal};
use cli::Task;
use club_requests::{Command, Outcome, Question, Refusal};
use std::io::Write;
use store::{OpenFault, StoreFault};

// The explanation of a query's refusal. The name of a member is the only value that a query is refused for.
fn question_explained(question: &Question, refusal: Refusal) -> Explanation
    ensures { result ≡ question_explained question.now refusal }
{
    match question {
        Question::Games(_) if refusal == Refusal::BadValue => {
            Explanation::Value(WrongValue::ListedMember)
        }
        Question::GamesJson(_) if refusal == Refusal::BadValue => {
            Explanation::Value(WrongValue::ListedMember)
        }
        Question::RulingOrders(_) if refusal == Refusal::BadValue => {
            Explanation::Value(WrongValue::UnknownMember)
        }
        _ => Explanation::Refusal(refusal),
    }
}

fn task_explained(task: &Task, refusal: Refusal) -> Explanation
    ensures { result ≡ task_explained task.now refusal }
{
    match task {
        Task::Request(command) => explain_refusal(refusal, command),
        Task::Ask(question) => question_explained(question, refusal),
        // A query of a batch asks for a member of a round robin.
        Task::Batch(_) if refusal == Refusal::BadValue => {
            Explanation::Value(WrongValue::UnknownMember)
        }
        _ => Explanation::Refusal(refusal),
    }
}

// The explanation of an input that cannot be read.
fn input_explained(task: &Task) -> ExplainedFault
    ensures { result ≡ input_explained task.now }
{
    match task {
        Task::Batch(_) => ExplainedFault::NoOrders,
        Task::Request(Command::NewKey(_)) => ExplainedFault::NoKey,
        _ => ExplainedFault::NoRecord,
    }
}

// The explanation of a file that was not accepted.
fn opening_explained(task: &Task, fault: OpenFault) -> ExplainedFault
    ensures { result ≡ opening_explained task.now fault }
{
    match fault {
        OpenFault::Foreign => match task {
            Task::Init { has_arbiter: _ } => ExplainedFault::NotEmpty,
            Task::Upgrade { has_arbiter: true } => ExplainedFault::NamesTaken,
            _ => ExplainedFault::NoClub,
        },
        OpenFault::Schema(1) => ExplainedFault::OlderSchema,
        OpenFault::Schema(_) => ExplainedFault::LaterSchema,
        OpenFault::Damaged(_) => ExplainedFault::Damaged,
        OpenFault::Store => ExplainedFault::Store,
        OpenFault::Memory => ExplainedFault::Memory,
    }
}

/// The explanation of a fault of an open club.
pub(crate) fn stop_explained(fault: StoreFault) -> ExplainedFault
    ensures { result ≡ stop_explained fault }
{
    match fault {
        StoreFault::Store => ExplainedFault::Store,
        StoreFault::Reopen => ExplainedFault::Reopen,
        StoreFault::Memory => ExplainedFault::Memory,
        StoreFault::Schema(_) => ExplainedFault::NoArbiter,
    }
}

// The explanation of an outcome, if it is a refusal.
fn answer_explained(task: &Task, outcome: &Outcome) -> Option<Explanation>
    ensures { result ≡ answer_explained task.now outcome.now }
{
    match outcome {
        Outcome::Refused(refusal) => Some(task_explained(task, *refusal)),
        _ => None,
    }
}

// The explanation of a report, if it is a refusal or a fault.
fn report_explained(task: &Task, report: &Report) -> Option<Explanation>
    ensures { result ≡ report_explained task.now report.now }
{
    match report {
        Report::Answered(outcome) => answer_explained(task, outcome),
        Report::Unopened(fault) => Some(Explanation::Fault(opening_explained(task, *fault))),
        Report::StoreFailed(fault) => Some(Explanation::Fault(stop_explained(*fault))),
        Report::OutputFailed => Some(Explanation::Fault(ExplainedFault::NoOutput)),
        Report::BackupFailed => Some(Explanation::Fault(ExplainedFault::NoCopy)),
        Report::InUse => Some(Explanation::Fault(ExplainedFault::InUse)),
        Report::NotOpened(cause) => Some(Explanation::Fault(ExplainedFault::NotOpened(*cause))),
        // It has a line of its own, with the object's name.
        Report::Unread(_) => None,
        Report::ValueRefused(value) => Some(Explanation::Value(*value)),
        Report::Overdue(_) => Some(Explanation::Value(WrongValue::SweepLimit)),
        Report::NoClock => Some(Explanation::Fault(ExplainedFault::NoClock)),
        Report::InputFailed => Some(Explanation::Fault(input_explained(task))),
        Report::PortUnavailable => Some(Explanation::Fault(ExplainedFault::NoPort)),
        Report::NoMemory => Some(Explanation::Fault(ExplainedFault::Memory)),
        Report::Ready => None,
        Report::Sound(_) => None,
        Report::Upgraded(_) => None,
        Report::AlreadyUpgraded(_) => None,
        Report::Copied => None,
        Report::Shown => None,
        // The report of a batch has a line for each refused request instead.
        Report::Batched(_) => None,
        Report::Listening(_) => None,
    }
}

// The explanation if a report's line was lost: of a successful order its output failed, else memory ran out.
fn lost_explained(report: &Report) -> ExplainedFault
    ensures { result ≡ lost_explained report.now }
{
    if report.status() == DONE {
        ExplainedFault::NoOutput
    } else {
        ExplainedFault::Memory
    }
}

// The line of an explanation; empty if there is none.
fn explanation_line(explanation: Option<Explanation>) -> &'static str
    ensures { result.now ≡ explanation_line explanation }
{
    match explanation {
        Some(explanation) => explanation.line(),
        None => "",
    }
}

// The object because of which a file was not opened.
fn unread_of(report: &Report) -> Option<&UnreadObject>
    ensures { option_copied result ≡ unread_of report.now }
{
    match report {
        Report::Unread(object) => Some(object),
        _ => None,
    }
}

// Writes the line of an object that is not read, or a prefix of it if the writer fails.
fn write_object<E: Write>(object: &UnreadObject, err: &mut E)
    ensures { IsBegunWith (E.contents err.old) (E.contents err.new) (object_line object.now) }
{
    if !write_out(err, object_text(object.kind).as_bytes()) {
        return;
    }
    if !write_out(err, object.name.as_bytes()) {
        return;
    }
    let _is_told = write_out(err, object_end().as_bytes());
}

// Writes the explanation of a report that was printed with this status, or a prefix of it if the writer fails.
fn write_explanation<E: Write>(status: u8, task: &Task, report: &Report, err: &mut E)
    ensures { IsBegunWith (E.contents err.old) (E.contents err.new) (line_at status task.now report.now) }
{
    if status != report.status() {
        let lost = Explanation::Fault(lost_explained(report));
        let _is_told = write_out(err, lost.line().as_bytes());
        return;
    }
    match unread_of(report) {
        Some(object) => write_object(object, err),
        None => {
            let line = explanation_line(report_explained(task, report));
            let _is_told = write_out(err, line.as_bytes());
        }
    }
}

// Writes the second line, if one is requested, or a prefix of it if the writer fails.
fn write_second_line<E: Write>(status: u8, given: &TaskReport<'_>, err: &mut E)
    ensures { IsBegunWith (E.contents err.old) (E.contents err.new)
        (second_line given.now.explains status given.now.task.now given.now.report.now) }
{
    let TaskReport {
        task,
        report,
        explains,
    } = *given;
    if !explains {
        return;
    }
    write_explanation(status, task, report, err)
}

/// A task, its report, and whether a second line explains a refusal or a fault.
#[derive(Clone, Copy)]
pub struct TaskReport<'a> {
    pub task: &'a Task,
    pub report: &'a Report,
    pub explains: bool,
}

/// Prints a report as `print` does and returns the same exit status. With `explains`, a second line on standard error
/// says what a refusal or fault means for the task and what to do.
pub fn print_explained<O: Write, E: Write>(
    line: String,
    given: &TaskReport<'_>,
    out: &mut O,
    err: &mut E,
) -> u8
    requires { string_bytes line ≡ [] }
    ensures status { (result ≡ report_status given.now.report.now) ⊎ (result ≡ 3) }
    ensures done { result ≡ 0 →
        Appends (O.contents out.old) (O.contents out.new) (report_text given.now.report.now) }
    ensures refused { result ≡ 1 → IsRefusalExplained given.now.explains given.now.task.now given.now.report.now
        (E.contents err.old) (E.contents err.new) }
    ensures told { result ≡ 3 → IsFaultExplained given.now.explains given.now.task.now given.now.report.now
        (E.contents err.old) (E.contents err.new) }
    ensures silent { report_status given.now.report.now ≢ 0 → out.new ≡ out.old }
{
    let status = print(line, given.report, out, err);
    write_second_line(status, given, err);
    status
}
