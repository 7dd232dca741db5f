use super::*;
use sqlite_items::Items;
use std::alloc::{AllocError, Global};
use std::test::Fail;

/// One flow with one state, two rows before the opening row and one controlled row.
const SMALL: Shape = Shape {
    flows: 1,
    states: 1,
    h: 2,
    t: 1,
};

fn row(
    alloc: Global,
    w: i128,
    counted: (i128, i128, i128),
    states: &[i128],
) -> Result<Row, AllocError> {
    let mut flows = Items::new(alloc);
    let (a, s, l) = counted;
    let x = Items::from_slice(alloc, states)?;
    flows.push(FlowRow { a, s, l, x })?;
    Ok(Row { w, flows })
}

/// A run of the small shape whose entries are told from each other: the one in column `c` is `10 * c`, but the last.
fn numbered(alloc: Global, last: i128) -> Result<Run, AllocError> {
    let mut rows = Items::new(alloc);
    rows.push(row(alloc, 10, (20, 30, 40), &[])?)?;
    rows.push(row(alloc, 50, (60, 70, 80), &[])?)?;
    rows.push(row(alloc, 90, (100, 110, 120), &[130])?)?;
    rows.push(row(alloc, 140, (150, 160, 170), &[last])?)?;
    Ok(Run {
        over: 3,
        credit: 0,
        rows,
    })
}

#[test]
fn columns_go_row_by_row_and_flow_by_flow(rt: HostRuntime) {
    assert_eq!(rt; SMALL.columns(), 19);
    assert_eq!(rt; SMALL.column(Entry::Credit), 0);
    assert_eq!(rt; SMALL.column(Entry::W { row: 0 }), 1);
    assert_eq!(rt; SMALL.column(Entry::L { row: 1, flow: 1 }), 8);
    assert_eq!(rt;
        SMALL.column(Entry::X {
            row: 2,
            flow: 1,
            state: 0
        }),
        13
    );
    assert_eq!(rt;
        SMALL.column(Entry::X {
            row: 3,
            flow: 1,
            state: 0
        }),
        18
    );
    let wide = Shape {
        flows: 2,
        states: 3,
        h: 2,
        t: 1,
    };
    assert_eq!(rt; wide.columns(), 41);
    assert_eq!(rt; wide.column(Entry::S { row: 1, flow: 2 }), 13);
    assert_eq!(rt; wide.column(Entry::A { row: 2, flow: 2 }), 22);
    assert_eq!(rt;
        wide.column(Entry::X {
            row: 3,
            flow: 2,
            state: 2
        }),
        40
    );
}

#[test]
fn each_column_holds_its_entry(rt: HostRuntime) -> Result<(), Fail> {
    let run = numbered(rt.alloc(), 180)?;
    assert_eq!(rt; run.fits(&SMALL), true);
    if run.fits(&SMALL) {
        for column in 0..SMALL.columns() {
            assert_eq!(rt; run.at(&SMALL, column), 10 * i128::from(column));
        }
        assert_eq!(rt; run.flow(3, 1).s, 160);
        assert_eq!(rt; run.waste(3), 140);
        assert_eq!(rt; run.state(2, 1, 0), 130);
        assert_eq!(rt; run.row_count(), 4);
        assert_eq!(rt; run.flow_count(), 1);
    }
    Ok(())
}

#[test]
fn a_run_fits_its_own_shape_alone(rt: HostRuntime) -> Result<(), Fail> {
    let run = numbered(rt.alloc(), i128::MIN + 1)?;
    let least = numbered(rt.alloc(), i128::MIN)?;
    let later = Shape { h: 3, ..SMALL };
    assert_eq!(rt; run.fits(&SMALL), true);
    assert_eq!(rt; least.fits(&SMALL), false);
    assert_eq!(rt; run.fits(&later), false);
    assert_eq!(rt; run.fits(&Shape { states: 0, ..SMALL }), false);
    assert_eq!(rt; run.fits(&Shape { flows: 2, ..SMALL }), false);
    Ok(())
}
