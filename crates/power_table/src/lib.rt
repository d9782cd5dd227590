// The 4/3 powers of 0 to 8206, whole and in two parts, and those of -255 to 255 with their signs.

#![tactic(auto)]

mod small;
mod table;

ghost use Rattle.power_table.specs.Power.{PowerTable, LowTable, HighTable, SignedTable};

// The table of the powers, as patterns.
pub fn powers() -> [u32; 8207]
    ensures { PowerTable result }
{
    table::POWERS
}

// The table's first part: the powers of 0 to 4103. The parts are for a caller whose stack has no room for the whole: each is made where the
// caller wants it, since what a call answers would stand beside the caller's copy of it.
#[inline(always)]
pub fn low_powers() -> [u32; 4104]
    ensures { LowTable result }
{
    let all = powers();
    let mut low = [0u32; 4104];
    low.copy_from_slice(&all[..4104]);
    low
}

// The second part: the powers of 4104 to 8206, behind that of 1.
#[inline(always)]
pub fn high_powers() -> [u32; 4104]
    ensures { HighTable result }
{
    let all = powers();
    let mut high = [0u32; 4104];
    high[0] = all[1];
    high[1..].copy_from_slice(&all[4104..]);
    high
}

// The powers of -255 to 255 with their signs: entry x + 255 is that of x. A granule whose numbers all lie there needs no more.
pub fn signed_powers() -> [u32; 511]
    ensures { SignedTable result }
{
    small::SIGNED
}
