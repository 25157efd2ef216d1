//! Worked rows, with values from outside. Each bank is full when it is dropped.
use crate::{Bank, Shape};
use std::test::Fail;

#[test]
fn two_rings(rt: HostRuntime) -> Result<(), Fail> {
    let shapes = [Shape { len: 2, width: 1 }, Shape { len: 1, width: 2 }];
    let mut bank = Bank::new(rt.alloc(), &shapes, &[1, 2, 7, 8])?;
    bank.push(0, &[3]);
    assert_eq!(rt; bank.read(0, 0, 0), 2);
    assert_eq!(rt; bank.read(0, 1, 0), 3);
    assert_eq!(rt; bank.read(1, 0, 1), 8);
    assert_eq!(rt; bank.rows(0), 2);
    Ok(())
}
