// The quarter powers of two.

#![tactic(auto)]

mod table;

ghost use Rattle.std.specs.Prelude.{◌≡◌};
ghost use Rattle.powers.specs.Quarters.{quarter, rest, InGain};
ghost use Rattle.powers.specs.Powers.{gain};

// q = 4 k + r with r from 0 to 3, below zero too.
#[derive(Clone, Copy)]
pub struct Quarters {
    pub k: i32,
    pub r: usize,
}

// The division rounds down, as the shift does; `/` would round toward zero.
pub fn split(q: i32) -> Quarters
    ensures { (result.k ≡ quarter q) × (result.r ≡ rest q) }
{
    let k = q >> 2;
    let r = q - 4 * k;
    Quarters { k, r: r as usize }
}

// The f32 nearest to 2 to the q/4: the root of the rest, which is rounded, times 2 to the k, which is exact.
pub fn gain_of(q: i32) -> f32
    requires { InGain q }
    ensures { result ≡ gain q }
{
    let Quarters { k, r } = split(q);
    let field = (k + 127) as u32;
    f32::from_bits(table::ROOTS[r]) * f32::from_bits(field * 8388608)
}
