//! Questions about the texts of faults.

use crate::rules::unanswered::Unanswered;
use csa::CsaFault;
use memory::Memory;
use pdn::{FenFault, MoveFault};
use pdn_games::PdnFault;
use record_writer::WriteFault;
use shogi_moves::Illegal;
use std::alloc::Global;
use std::fmt::Display;
use std::io::{Error, ErrorKind};

fn told<D: Display>(alloc: Global, fault: &D) -> Result<String, Unanswered> {
    Ok(format!(in alloc; "{fault}")?)
}

fn cause(name: &str) -> Result<Illegal, Unanswered> {
    match name {
        "NoSuchMove" => Ok(Illegal::NoSuchMove),
        "NotInHand" => Ok(Illegal::NotInHand),
        "MustPromote" => Ok(Illegal::MustPromote),
        "DeadDrop" => Ok(Illegal::DeadDrop),
        "TwoPawns" => Ok(Illegal::TwoPawns),
        "KingAttacked" => Ok(Illegal::KingAttacked),
        "DropMate" => Ok(Illegal::DropMate),
        _ => Err(Unanswered::Word),
    }
}

// The text of a crate's fault for out of memory.
fn memory(alloc: Global, crate_name: &str) -> Result<String, Unanswered> {
    match crate_name {
        "squares" => told(alloc, &Memory),
        "draughts_draws" => told(alloc, &draughts_draws::DLineFault::Memory),
        "shogi_repetition" => told(alloc, &shogi_repetition::SLineFault::Memory),
        "pdn-move" => told(alloc, &MoveFault::Memory),
        "pdn-fen" => told(alloc, &FenFault::Memory),
        "record_writer" => told(alloc, &WriteFault::Memory),
        _ => Err(Unanswered::Word),
    }
}

/// The text of a fault.
pub fn answer(alloc: Global, asked: &str, parts: &[String]) -> Result<String, Unanswered> {
    match (asked, parts) {
        ("memory", [name]) => memory(alloc, name.as_str()),
        ("csa-illegal", [ply, name]) => {
            let (ply, cause) = (ply.as_str().parse()?, cause(name.as_str())?);
            told(alloc, &CsaFault::Illegal { ply, cause })
        }
        ("csa-after-end", [ply]) => {
            let ply = ply.as_str().parse()?;
            told(alloc, &CsaFault::AfterEnd { ply })
        }
        ("shogi-after-end", [ply]) => {
            let ply = ply.as_str().parse()?;
            told(alloc, &shogi_repetition::SLineFault::AfterEnd { ply })
        }
        ("pdn-ambiguous", [ply]) => told(alloc, &PdnFault::Ambiguous(ply.as_str().parse()?)),
        ("pdn-after-end", [ply]) => told(alloc, &PdnFault::AfterEnd(ply.as_str().parse()?)),
        ("full-writer", _) => {
            told(
                alloc,
                &WriteFault::Writer(Error::from(ErrorKind::WriteZero)),
            )
        }
        _ => Err(Unanswered::Question),
    }
}
