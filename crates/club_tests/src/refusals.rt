//! Refusals of moves and of records.

use crate::words::text_of;
use club_rules::{EndName, GameKind, MoveRefusal, RecordFormat, RecordRefusal};
use std::test::Fail;

#[test]
fn refusals_have_numbers_and_names(rt: HostRuntime) -> Result<(), Fail> {
    let alloc = rt.alloc();
    let bad = MoveRefusal::BadText(GameKind::Draughts, 2);
    assert!(rt; text_of(alloc, &bad)?.as_str() == "20 BadText 2");
    let bad = MoveRefusal::BadText(GameKind::Shogi, 4);
    assert!(rt; text_of(alloc, &bad)?.as_str() == "30 BadText 4");
    let none = MoveRefusal::NoSuchMove(GameKind::Draughts);
    assert!(rt; text_of(alloc, &none)?.as_str() == "10 NoSuchMove");
    let none = MoveRefusal::NoSuchMove(GameKind::Shogi);
    assert!(rt; text_of(alloc, &none)?.as_str() == "13 NoSuchMove");
    assert!(rt; text_of(alloc, &MoveRefusal::Ambiguous)?.as_str() == "21 Ambiguous");
    assert!(rt; text_of(alloc, &MoveRefusal::DropMate)?.as_str() == "19 DropMate");
    assert!(rt; text_of(alloc, &EndName::Fourfold)?.as_str() == "Fourfold");
    assert!(rt; EndName::PerpetualCheck.name() == "PerpetualCheck");
    Ok(())
}

#[test]
fn records_are_refused_by_numbers_of_their_format(rt: HostRuntime) -> Result<(), Fail> {
    let alloc = rt.alloc();
    let bad = RecordRefusal::BadText(RecordFormat::Pdn, 0);
    assert!(rt; text_of(alloc, &bad)?.as_str() == "20 BadText 0");
    let bad = RecordRefusal::BadText(RecordFormat::Csa, 4);
    assert!(rt; text_of(alloc, &bad)?.as_str() == "40 BadText 4");
    let illegal = RecordRefusal::Illegal {
        format: RecordFormat::Pdn,
        ply: 3,
        cause: MoveRefusal::MustCapture,
    };
    assert!(rt; text_of(alloc, &illegal)?.as_str() == "22 Illegal 3 11");
    let differs = RecordRefusal::ResultDiffers(RecordFormat::Pdn);
    assert!(rt; text_of(alloc, &differs)?.as_str() == "27 ResultDiffers");
    assert!(rt; text_of(alloc, &RecordRefusal::Version)?.as_str() == "41 Version");
    let differs = RecordRefusal::ResultDiffers(RecordFormat::Csa);
    assert!(rt; text_of(alloc, &differs)?.as_str() == "46 ResultDiffers");
    Ok(())
}
