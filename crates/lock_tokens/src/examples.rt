//! How a caller takes gates of rising rank and gives them back.
ghost use Rattle.std.specs.Prelude.{◌≡◌, ◌-◌, ◌<◌, []};

use crate::{Gate, Held, RwGate};
use std::marker::Model;
use std::sync::Wait;

/// Fewer than a hundred coins. Contracts see it as how many.
#[derive(Drop)]
pub struct Purse {
    coins: u8,
}

impl Model for Purse {
    ghost use Rattle.std.specs.Prelude.{ℕ, ◌<◌};

    ghost Value = { ℕ };

    ghost view = { λ p. p.coins };

    ghost invariant = { λ p. p.coins < 100 };
}

impl Purse {
    pub fn of(coins: u8) -> Purse
        requires { coins < 100 }
        ensures { result ≡ coins }
    {
        Purse { coins }
    }

    pub fn coins(&self) -> u8
        ensures all { result ≡ self.now }
        ensures few { result < 100 }
    {
        self.coins
    }

    /// Pays the price, or what there is.
    pub fn pay(&mut self, price: u8)
        ensures { self.new ≡ self.old - price }
    {
        self.coins = self.coins.saturating_sub(price);
    }
}

/// Buys one thing at the price that stands at the first gate, counts the sale at the second, and answers what is left in the purse.
/// Of the purse nothing is known but its type: it has fewer than a hundred coins.
pub fn bought<R: Wait>(
    rt: &R,
    held: &mut Held,
    price: &RwGate<u8, 1>,
    sales: &RwGate<u64, 2>,
    purse: &Gate<Purse, 3>,
) -> u8
    requires { held.old ≡ [] }
    ensures left { result < 100 }
    ensures free { held.new ≡ [] }
{
    let price = price.read(rt, held);
    let mut sales = sales.write(rt, held);
    let mut purse = purse.lock(rt, held);
    let counted = sales.value_mut();
    *counted = counted.wrapping_add(1);
    let coins = purse.value_mut();
    coins.pay(*price.value());
    let left = coins.coins();
    purse.release(held);
    sales.release(held);
    price.release(held);
    left
}
