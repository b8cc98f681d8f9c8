//! Gates of rising rank.
use crate::examples::{Purse, bought};
use crate::{Gate, Held, RwGate};
use std::test::Fail;

#[test]
fn one_thread_takes_gates_of_rising_rank_and_gives_them_back(rt: HostRuntime) -> Result<(), Fail> {
    let mut held = Held::empty();
    let mut price = RwGate::new(7);
    let mut sales = RwGate::new(0);
    let mut purse = Gate::new(Purse::of(30));
    assert_eq!(rt; bought(&rt, &mut held, &price, &sales, &purse), 23);
    *price.get_mut() = 8;
    assert_eq!(rt; bought(&rt, &mut held, &price, &sales, &purse), 15);
    *purse.get_mut() = Purse::of(99);
    *sales.get_mut() = 3;
    assert_eq!(rt; bought(&rt, &mut held, &price, &sales, &purse), 91);
    assert_eq!(rt; sales.into_inner(), 4);
    assert_eq!(rt; purse.into_inner().coins(), 91);
    Ok(())
}
