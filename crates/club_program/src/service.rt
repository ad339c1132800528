//! The server over a file: serving sessions, between which it releases the file to other programs.

ghost use Rattle.std.specs.Prelude.{◌≤◌};

use crate::course::{AfterSession, after_session, is_permanent};
use crate::orders::run_order_on_file;
use crate::printing::{print_report, print_without_room};
use cli::{Order, ServeOptions, Task};
use club_orders::{DONE, Report};
use club_session::{has_log, release_files, serve_files};
use control_socket::{FileLease, request_lease};
use http_desk::ClubFault;
use server::{Server, ServerOptions, serve_unavailable};
use sqlite_disk::Wary;
use std::alloc::AllocError;
use std::time::Duration;

// The time for which the file stays released after a session, so that a waiting program can lock it.
const GIVEN_UP_MILLISECONDS: u64 = 200;

// The interval between attempts to open a file that another program holds.
const AGAIN_MILLISECONDS: u64 = 100;

// The number of attempts, over about a second, before requests get a fault. After that each request gets it at once.
const PATIENCE: u32 = 10;

// Opens the control socket, or leases the file if another server has one.
fn ask_or_open(rt: &HostRuntime, file: &str, callers: &mut Server<'_>) -> Option<FileLease> {
    if callers.has_door() {
        return None;
    }
    let leave = request_lease(rt, file);
    if leave.is_none() {
        callers.open_door(file);
    }
    leave
}

// Runs one serving session. It leaves no log behind a file that had none.
fn serve_stretch(rt: &HostRuntime, file: &str, callers: &mut Server<'_>) -> AfterSession {
    let _leave = ask_or_open(rt, file, callers);
    callers.begin();
    let had_log = has_log(rt, file);
    let session = serve_files(rt, file, Wary, callers);
    after_session(release_files(rt, file, had_log, session))
}

// Answers requests with the fault: those that are ready, and for a lasting fault also those that follow for a while.
fn report_unavailable(rt: &HostRuntime, callers: &mut Server<'_>, fault: ClubFault) {
    if is_permanent(fault) {
        callers.begin_unavailable();
    } else {
        callers.serve_queued_only();
    }
    serve_unavailable(rt.alloc(), callers, fault);
}

// Receives clients until the file must be opened, after so many attempts to open it; `false` if no more connections
// will follow. With a control socket the server holds a file that serves, so that no request waits for an opening.
fn wait_for_work(callers: &mut Server<'_>, tries: u32, serves: bool) -> bool {
    if tries > PATIENCE {
        return callers.await_for(Duration::from_millis(AGAIN_MILLISECONDS));
    }
    if tries > 0 {
        return callers.receive_for(Duration::from_millis(AGAIN_MILLISECONDS));
    }
    if serves && callers.has_door() {
        return callers.await_for(Duration::ZERO);
    }
    if callers.has_work() && !callers.has_door() {
        return callers.receive_for(Duration::from_millis(GIVEN_UP_MILLISECONDS));
    }
    callers.wait_for_request()
}

// Leases the file to a waiting process, or leaves it released for a while; `false` if no more connections will
// follow.
fn give_way(callers: &mut Server<'_>) -> bool {
    callers.release_file() || callers.receive_for(Duration::from_millis(GIVEN_UP_MILLISECONDS))
}

// Serves over a file until no more connections will follow.
fn serve(rt: &HostRuntime, file: &str, callers: &mut Server<'_>) {
    let mut tries: u32 = 0;
    let mut serves = true;
    for _ in 0..u64::MAX {
        if !wait_for_work(callers, tries, serves) {
            return;
        }
        match serve_stretch(rt, file, callers) {
            AfterSession::GoesOn => {
                tries = 0;
                serves = true;
                if !give_way(callers) {
                    return;
                }
            }
            AfterSession::Unavailable(fault) => {
                tries = 0;
                serves = false;
                report_unavailable(rt, callers, fault);
            }
            AfterSession::WaitsForFile => {
                if tries >= PATIENCE {
                    report_unavailable(rt, callers, ClubFault::Store);
                }
                tries = tries.saturating_add(1);
            }
        }
        let _lent = callers.release_file();
    }
}

fn print_service_report(rt: &HostRuntime, service: &ServeOptions, report: &Report) -> u8
    ensures { result ≤ 3 }
{
    print_report(rt, &Task::Verify, report, service.explains)
}

// The options of the server.
fn options_of(rt: &HostRuntime, service: &ServeOptions) -> Result<ServerOptions, AllocError> {
    let mut hosts = Vec::new(rt.alloc());
    for host in service.hosts.iter() {
        hosts.push(host.clone()?)?;
    }
    Ok(ServerOptions {
        now: service.now,
        is_logged: service.log,
        count: service.count,
        hosts,
    })
}

// Listens on the port, prints that, and serves; returns the exit status.
fn listen(rt: &HostRuntime, service: &ServeOptions) -> u8
    ensures { result ≤ 3 }
{
    let options = match options_of(rt, service) {
        Ok(options) => options,
        Err(_) => return print_without_room(rt, &Task::Verify, service.explains),
    };
    let mut callers = match Server::listen(rt, service.port, options) {
        Ok(callers) => callers,
        Err(_) => return print_service_report(rt, service, &Report::PortUnavailable),
    };
    let status = print_service_report(rt, service, &Report::Listening(service.port));
    if status == DONE {
        let file = service.file.as_str();
        callers.open_door(file);
        serve(rt, file, &mut callers);
        callers.close_door();
    }
    status
}

// The order that verifies the file.
fn test_of(rt: &HostRuntime, service: &ServeOptions) -> Result<Order, AllocError> {
    Ok(Order {
        file: service.file.clone()?,
        now: service.now,
        task: Task::Verify,
        record: None,
        explains: service.explains,
    })
}

/// Verifies the file, then serves over it; returns the exit status.
pub(crate) fn run_service(rt: &HostRuntime, service: &ServeOptions) -> u8
    ensures { result ≤ 3 }
{
    let order = match test_of(rt, service) {
        Ok(order) => order,
        Err(_) => return print_without_room(rt, &Task::Verify, service.explains),
    };
    match run_order_on_file(rt, &order) {
        Report::Sound(_) => listen(rt, service),
        report => print_service_report(rt, service, &report),
    }
}
