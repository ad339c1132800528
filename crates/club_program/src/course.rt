//! The step after a serving session, by its result.

ghost use Rattle.std.specs.Prelude.{◌≡◌, ◌≢◌, ◌⊎◌, None, Some, Ok, Err, true, false};
ghost use Rattle.club_orders.specs.declared.report.Report.{Report};
ghost use Rattle.club_orders.specs.declared.report.Report.TheVariants.{InUse, Unopened};
ghost use Rattle.club_program.specs.declared.course.AfterSession.TheVariants.{GoesOn, WaitsForFile, Unavailable};
ghost use Rattle.http_desk.specs.declared.faults.ClubFault.{ClubFault};
ghost use Rattle.http_desk.specs.declared.faults.ClubFault.TheVariants.{Foreign, Schema, Damaged, Store, Reopen};
ghost use Rattle.http_desk.specs.declared.faults.ClubFault.TheVariants.{Memory, Leased, Clock};
ghost use Rattle.club_check.specs.declared.fault.OpenFault.{OpenFault};

use club_orders::Report;
use http_desk::ClubFault;

/// The step after a serving session.
#[derive(Clone, Copy, Debug, PartialEq, Eq)]
pub(crate) enum AfterSession {
    /// Open the club again for the next request.
    GoesOn,
    /// Wait: another program holds the file.
    WaitsForFile,
    /// Answer the requests with this fault.
    Unavailable(ClubFault),
}

/// The step after a session: after a failed call the club is reopened; if another program holds the file, the server
/// waits; otherwise requests get the fault.
///
/// # Guarantees
///
/// - `again`: after a session without a fault, and after a failed call, the club is opened again.
/// - `told`: any other fault of a session is what requests get.
/// - `waits`: a file that another program holds is waited for.
/// - `foreign`, `failed`: without a club's file requests get `Foreign`, and after any other report `Store`.
pub(crate) fn after_session(done: Result<Option<ClubFault>, Report>) -> AfterSession
    ensures again { (done ≡ Ok None) ⊎ (done ≡ Ok (Some Reopen)) → result ≡ GoesOn }
    ensures told { (fault : ClubFault) → done ≡ Ok (Some fault) → fault ≢ Reopen → result ≡ Unavailable fault }
    ensures waits { done ≡ Err InUse → result ≡ WaitsForFile }
    ensures foreign { (reason : OpenFault) → done ≡ Err (Unopened reason) → result ≡ Unavailable Foreign }
    ensures failed { (report : Report) → done ≡ Err report → report ≢ InUse →
        ((reason : OpenFault) → report ≢ Unopened reason) → result ≡ Unavailable Store }
{
    match done {
        Ok(None) => AfterSession::GoesOn,
        Ok(Some(ClubFault::Reopen)) => AfterSession::GoesOn,
        Ok(Some(fault)) => AfterSession::Unavailable(fault),
        Err(Report::InUse) => AfterSession::WaitsForFile,
        Err(Report::Unopened(_)) => AfterSession::Unavailable(ClubFault::Foreign),
        Err(_) => AfterSession::Unavailable(ClubFault::Store),
    }
}

/// Whether a fault lasts until someone changes the file, so that it can be reported for a while without another
/// check.
///
/// # Guarantees
///
/// - `content`: a fault of the content of the file lasts.
/// - `passing`: a failed call may succeed later, and so may an allocation; a lease ends, and a clock can be set.
pub(crate) fn is_permanent(fault: ClubFault) -> bool
    ensures content { (fault ≡ Foreign) ⊎ (fault ≡ Schema) ⊎ (fault ≡ Damaged) → result ≡ true }
    ensures passing { (fault ≡ Store) ⊎ (fault ≡ Reopen) ⊎ (fault ≡ Memory) ⊎ (fault ≡ Leased) ⊎ (fault ≡ Clock) →
        result ≡ false }
{
    match fault {
        ClubFault::Foreign => true,
        ClubFault::Schema => true,
        ClubFault::Damaged => true,
        ClubFault::Store => false,
        ClubFault::Reopen => false,
        ClubFault::Memory => false,
        ClubFault::Leased => false,
        ClubFault::Clock => false,
    }
}
