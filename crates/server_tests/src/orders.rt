//! Orders of sweeps that wait.

use crate::opening::{A_TRADE_IN_EACH_GROUP, book_after};
use gu_houses::{OpenOrders, Orders};
use gu_terms::Group;
use std::test::Fail;

/// Six give-ups that are accepted, five of them in G1.
const SIX_GIVE_UPS: &str = "\
GIVEUP E1 L1 R1 A1 1
GIVEUP E1 L2 R1 A1 1
GIVEUP E1 L3 R3 A1 1
GIVEUP E1 L4 R1 A1 1
GIVEUP E1 L5 R1 A1 1
GIVEUP E1 L6 R1 A1 1
";

#[test]
fn at_most_one_order_of_a_group_waits(rt: HostRuntime) -> Result<(), Fail> {
    let alloc = rt.alloc();
    let script = format!(in alloc; "{A_TRADE_IN_EACH_GROUP}{SIX_GIVE_UPS}")?;
    let (book, receipts) = book_after(alloc, &script).ok().expect(&rt, "a book");
    let g1 = Group::new(b"G1").expect(&rt, "a name");
    let open = OpenOrders::new(alloc, book.reference().groups())?;
    let (to, from) = crossbeam_channel::unbounded(alloc)?;
    let mut orders = Orders::new(&to, &open, 1);
    for receipt in &receipts {
        orders.note(&rt, receipt);
    }
    // The first of each group waits.
    assert_eq!(&rt; from.len(), 2);
    let first = from.recv(&rt).ok().expect(&rt, "an order");
    assert!(&rt; first.group() == g1);
    // It is still the one that waits, until its sweeper says otherwise.
    for receipt in &receipts {
        orders.note(&rt, receipt);
    }
    assert_eq!(&rt; from.len(), 1);
    open.close(&g1);
    for receipt in &receipts {
        orders.note(&rt, receipt);
    }
    assert_eq!(&rt; from.len(), 2);
    Ok(())
}

#[test]
fn every_second_give_up_is_due_also_while_an_order_waits(rt: HostRuntime) -> Result<(), Fail> {
    let alloc = rt.alloc();
    let script = format!(in alloc; "{A_TRADE_IN_EACH_GROUP}{SIX_GIVE_UPS}")?;
    let (book, receipts) = book_after(alloc, &script).ok().expect(&rt, "a book");
    let g1 = Group::new(b"G1").expect(&rt, "a name");
    let open = OpenOrders::new(alloc, book.reference().groups())?;
    let (to, from) = crossbeam_channel::unbounded(alloc)?;
    let mut orders = Orders::new(&to, &open, 2);
    let mut sent = 0_usize;
    for receipt in &receipts {
        orders.note(&rt, receipt);
        sent = sent
            .checked_add(from.try_iter(&rt).count())
            .expect(&rt, "few orders");
        open.close(&g1);
    }
    // The second, the fourth and the sixth.
    assert_eq!(&rt; sent, 3);
    Ok(())
}
