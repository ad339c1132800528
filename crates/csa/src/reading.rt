//! Reader of the games of a text.
ghost use Rattle.std.specs.Prelude.{◌≡◌, ◌≤◌, IfOk, IfErr, OnOk, length, map, take};
ghost use Rattle.std.specs.List.{slice_split};
ghost use Rattle.csa.specs.Reading.{is_parting, is_header_statement, first_statement, has_statement, without_bare_last};
ghost use Rattle.csa.specs.Reading.{records_of, AreOrdered, Refuses, IsRefused};
ghost use Rattle.csa.specs.internal.Reading.{AreRecordsOf, FailsOrMemory, IsTextOf};

use crate::faults::CsaFault;
use crate::game::CsaGame;
use crate::lines::{NumberedStatement, statements_of};
use crate::order::first_stray;
use crate::records::read_record;
use crate::statements::Statement;
use std::alloc::{AllocError, Global};

fn is_parting(statement: Statement) -> bool
    ensures { result ≡ is_parting statement }
{
    match statement {
        Statement::Parting => true,
        _ => false,
    }
}

fn is_header(statement: Statement) -> bool
    ensures { result ≡ is_header_statement statement }
{
    match statement {
        Statement::Header => true,
        _ => false,
    }
}

// The first statement that is not a header.
fn first_statement(placed: &[NumberedStatement]) -> Option<Statement>
    ensures { result ≡ first_statement placed.now }
{
    for each in placed {
        if !is_header(each.statement) {
            return Some(each.statement);
        }
    }
    None
}

// Whether a record has a statement other than headers.
fn has_statement(placed: &[NumberedStatement]) -> bool
    ensures { result ≡ has_statement placed.now }
{
    placed.iter().any(|each| !is_header(each.statement))
}

// Checks that the statements begin with a version, are well-formed and are in order.
fn check_order(placed: &[NumberedStatement]) -> Result<(), CsaFault>
    ensures ordered { OnOk result (AreOrdered placed.now) }
    ensures fault { IfErr result (Refuses placed.now) }
{
    match first_statement(placed) {
        None => Err(CsaFault::BadText { line: 1 }),
        Some(first) => match first {
            Statement::Version => match first_stray(placed) {
                None => Ok(()),
                Some(line) => Err(CsaFault::BadText { line }),
            },
            _ => Err(CsaFault::Version),
        },
    }
}

// Splits the statements at the separators of records.
fn parts_of(
    alloc: Global,
    placed: &[NumberedStatement],
) -> Result<Vec<&[NumberedStatement]>, AllocError>
    ensures { IfOk result (λ parts. map (λ x. x.now) parts.items
        ≡ slice_split (λ each. is_parting each.statement) placed.now) }
{
    placed
        .split(|each| is_parting(each.statement))
        .collect(alloc)
}

// The number of parts that are records; a last part without statements is not one.
fn record_count(parts: &[&[NumberedStatement]]) -> usize
    ensures within { result ≤ length parts.now }
    ensures records { take result (map (λ x. x.now) parts.now) ≡ without_bare_last (map (λ x. x.now) parts.now) }
{
    let count = parts.len();
    if count == 0 {
        return 0;
    }
    if has_statement(parts[count - 1]) {
        return count;
    }
    count - 1
}

// Reads records one after another.
fn read_records(alloc: Global, records: &[&[NumberedStatement]]) -> Result<Vec<CsaGame>, CsaFault>
    ensures games { IfOk result (λ games. AreRecordsOf (map (λ x. x.now) records.now) games.items) }
    ensures fault { IfErr result (FailsOrMemory (map (λ x. x.now) records.now)) }
{
    let mut games = Vec::new(alloc);
    for i in 0..records.len() {
        let game = read_record(alloc, records[i])?;
        games.push(game)?;
    }
    Ok(games)
}

// Reads the games of statements that are in order.
fn read_parts(alloc: Global, placed: &[NumberedStatement]) -> Result<Vec<CsaGame>, CsaFault>
    ensures games { IfOk result (λ games. AreRecordsOf (records_of placed.now) games.items) }
    ensures fault { IfErr result (FailsOrMemory (records_of placed.now)) }
{
    let parts = parts_of(alloc, placed)?;
    let records = record_count(&parts);
    read_records(alloc, &parts[..records])
}

/// Reads the games of a CSA text; `/` separates its records.
///
/// # Errors
///
/// The first that applies of:
///
/// - `CsaFault::BadText` on line 1 for a text without statements, `CsaFault::Version` without a known version first.
/// - `CsaFault::BadText` for a malformed or misplaced statement.
/// - record by record, `CsaFault::OtherOpening`; `CsaFault::AfterEnd` or `CsaFault::Illegal` for a move;
///   `CsaFault::Unfinished` without a score; `CsaFault::ResultDiffers` if the end disagrees with the rules.
///
/// `CsaFault::Memory` if out of memory.
pub fn read_games(alloc: Global, text: &[u8]) -> Result<Vec<CsaGame>, CsaFault>
    ensures games { IfOk result (λ games. IsTextOf text.now games.items) }
    ensures fault { IfErr result (IsRefused text.now) }
{
    let placed = statements_of(alloc, text)?;
    check_order(&placed)?;
    read_parts(alloc, &placed)
}
