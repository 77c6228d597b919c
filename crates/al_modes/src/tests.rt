use crate::{Mode, RowMode, conflicts, row_conflicts};
use std::test::Fail;

// The manual's table 13.2: a row and a column for each mode, from ACCESS SHARE to ACCESS EXCLUSIVE.
#[test]
fn table_of_the_manual(rt: HostRuntime) -> Result<(), Fail> {
    let modes = [
        Mode::AccessShare,
        Mode::RowShare,
        Mode::RowExclusive,
        Mode::ShareUpdateExclusive,
        Mode::Share,
        Mode::ShareRowExclusive,
        Mode::Exclusive,
        Mode::AccessExclusive,
    ];
    let rows = [
        *b"       X",
        *b"      XX",
        *b"    XXXX",
        *b"   XXXXX",
        *b"  XX XXX",
        *b"  XXXXXX",
        *b" XXXXXXX",
        *b"XXXXXXXX",
    ];
    for (a, row) in modes.iter().zip(rows.iter()) {
        for (b, cell) in modes.iter().zip(row.iter()) {
            assert_eq!(rt; conflicts(*a, *b), *cell == b'X', "{a:?} and {b:?}");
            assert_eq!(rt; a < b, a.strictness() < b.strictness(), "{a:?} and {b:?}");
        }
    }
    Ok(())
}

// The manual's table 13.3: a row and a column for each mode, from FOR KEY SHARE to FOR UPDATE.
#[test]
fn table_of_row_modes(rt: HostRuntime) -> Result<(), Fail> {
    let modes = [
        RowMode::KeyShare,
        RowMode::Share,
        RowMode::NoKeyUpdate,
        RowMode::Update,
    ];
    let rows = [*b"   X", *b"  XX", *b" XXX", *b"XXXX"];
    for (a, row) in modes.iter().zip(rows.iter()) {
        for (b, cell) in modes.iter().zip(row.iter()) {
            assert_eq!(rt; row_conflicts(*a, *b), *cell == b'X', "{a:?} and {b:?}");
        }
    }
    Ok(())
}
