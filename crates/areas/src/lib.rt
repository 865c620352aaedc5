// Areas of physical addresses: any start and any length. A start and a length are not added, since the sum might wrap.
#![tactic(auto)]

ghost use Rattle.std.specs.Prelude.{◌≡◌};
ghost use Rattle.rules.specs.Lent.{share_address};

use types::Area;

// Some address is in both areas: each starts before the end of the other, and neither is empty.
#[tactic(auto, unfolding(rules::specs::Lent::share_address))]
pub fn share_address(a: Area, c: Area) -> bool
    ensures { result ≡ share_address a c }
{
    let (a_start, c_start) = (a.start as usize, c.start as usize);
    c_start.saturating_sub(a_start) < a.length && a_start.saturating_sub(c_start) < c.length
}
