use crate::rows::{find, list_line, row, rows};
use desk_keep::{Changes, Listed, Table};
use std::alloc::Global;
use std::test::Fail;

/// Whether a row of this name and version comes next behind that of `desk`.
fn comes_next(alloc: Global, name: &'static str, version: u64) -> Result<bool, Fail> {
    let mut rows = Changes::new(alloc);
    rows.push(row(alloc, (Table::Sites, "desk", 1, 0))?)?;
    Ok(rows.push_next(row(alloc, (Table::Sites, name, version, 0))?)?)
}

#[test]
fn a_row_comes_next_in_order_and_form(rt: HostRuntime) -> Result<(), Fail> {
    let alloc = rt.alloc();
    let next = [
        ("desk2", 1, true),
        ("e", 9_007_199_254_740_992, true),
        ("desk", 2, false),
        ("des", 1, false),
        ("e", 0, false),
        ("e", 9_007_199_254_740_993, false),
        ("e f", 1, false),
        ("", 1, false),
    ];
    for (name, version, wanted) in next {
        assert_eq!(rt; comes_next(alloc, name, version)?, wanted);
    }
    Ok(())
}

/// Whether the row of a table is the one of this key, and of this table.
fn is_of(
    alloc: Global,
    table: Table,
    name: &'static str,
    number: u64,
) -> Result<(bool, bool), Fail> {
    let row = row(alloc, (Table::Results, "pc1", 7, 1))?;
    let find = find(alloc, table, name, number)?.copy()?;
    Ok((find.is_of(&row), row.copy()?.is_of(table)))
}

#[test]
fn a_row_is_of_its_table_and_key(rt: HostRuntime) -> Result<(), Fail> {
    let alloc = rt.alloc();
    let keys = [
        (Table::Results, "pc1", 7, (true, true)),
        (Table::Results, "pc1", 8, (false, true)),
        (Table::Results, "pc", 7, (false, true)),
        (Table::Reports, "pc1", 7, (false, false)),
    ];
    for (table, name, number, wanted) in keys {
        assert_eq!(rt; is_of(alloc, table, name, number)?, wanted);
    }
    let some = rows(
        alloc,
        &[
            (Table::Results, "pc1", 7, 1),
            (Table::Actions, "seven", 7, 0),
        ],
    )?;
    let [first, second] = some.as_slice() else {
        return Err("not two".into());
    };
    assert!(rt;
        first.is_result_of("pc1") && !first.is_result_of("pc") && !second.is_result_of("pc1")
    );
    assert_eq!(rt;
        list_line(alloc, &Listed::Changes(some.copy()?))?.as_str(),
        "result pc1 7 2 from 1 failed 1060 -3 0 9, action 7 of 5, "
    );
    Ok(())
}
