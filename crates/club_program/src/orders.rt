//! Execution of one command over a file.

ghost use Rattle.std.specs.Prelude.{◌≤◌};

use crate::on_server::run_on_server;
use crate::printing::{line_room, print_in, print_report, print_without_room};
use crate::records::record_in;
use cli::{Order, Task};
use club_orders::Report;
use club_session::{back_up, execute_order, has_log, open_files, release_files};
use control_socket::request_lease;
use server::clock;
use sqlite_disk::Wary;

fn backed_up(rt: &HostRuntime, file: &str, copy: &str) -> Report {
    let had_log = has_log(rt, file);
    release_files(rt, file, had_log, back_up(rt, file, copy, Wary, Wary)).into_report(rt, copy)
}

// Executes a command at the timestamp of the command line or of the system clock.
fn run_on_file(rt: &HostRuntime, order: &Order) -> Report {
    let moment = match order.now.or(clock(rt)) {
        Some(moment) => moment,
        None => return Report::NoClock,
    };
    let file = order.file.as_str();
    let had_log = has_log(rt, file);
    let opened = open_files(rt, order, Wary);
    release_files(
        rt,
        file,
        had_log,
        execute_order(rt.alloc(), opened, &order.task, moment, &mut rt.stdout()),
    )
}

/// Appends the answer to the query of an order over the file; a server that holds it releases it meanwhile.
pub(crate) fn ask_on_file(rt: &HostRuntime, order: &Order, answer: &mut Vec<u8>) -> Report {
    let _leave = request_lease(rt, order.file.as_str());
    let moment = match order.now.or(clock(rt)) {
        Some(moment) => moment,
        None => return Report::NoClock,
    };
    let file = order.file.as_str();
    let had_log = has_log(rt, file);
    let opened = open_files(rt, order, Wary);
    release_files(
        rt,
        file,
        had_log,
        execute_order(rt.alloc(), opened, &order.task, moment, answer),
    )
}

/// Executes a command over the file; a server that holds it releases it meanwhile.
pub(crate) fn run_order_on_file(rt: &HostRuntime, order: &Order) -> Report {
    let _leave = request_lease(rt, order.file.as_str());
    match &order.task {
        Task::Backup(copy) => backed_up(rt, order.file.as_str(), copy.as_str()),
        _ => run_on_file(rt, order),
    }
}

/// Executes a command over the file and prints the report; returns the exit status. The line is allocated first, so
/// that the report can be printed when out of memory.
pub(crate) fn run_order(rt: &HostRuntime, order: &Order) -> u8
    ensures { result ≤ 3 }
{
    let line = match line_room(rt) {
        Ok(line) => line,
        Err(_) => return print_without_room(rt, &order.task, order.explains),
    };
    let report = run_order_on_file(rt, order);
    print_in(rt, line, &order.task, &report, order.explains)
}

// Executes a command: on the running server, if there is one and no explanation is wanted; otherwise over the file.
fn run_words(rt: &HostRuntime, words: &[String], order: &Order) -> u8
    ensures { result ≤ 3 }
{
    if order.explains {
        return run_order(rt, order);
    }
    match run_on_server(rt, words, order) {
        Some(status) => status,
        None => run_order(rt, order),
    }
}

/// Reads the record of an import or a new key, then executes the command; returns the exit status.
pub(crate) fn run_with_record(rt: &HostRuntime, words: &[String], order: Order) -> u8
    ensures { result ≤ 3 }
{
    match record_in(rt, &order) {
        Ok(None) => run_words(rt, words, &order),
        Ok(Some(text)) => {
            let mut order = order;
            order.set_record(text);
            run_words(rt, words, &order)
        }
        Err(report) => print_report(rt, &order.task, &report, order.explains),
    }
}
