// Where the scale factor bands start, and refusal 3.

#![tactic(auto)]

mod band_table;
mod table;

ghost use Rattle.std.specs.Prelude.{◌≡◌};
ghost use Rattle.bands.specs.Starts.{pretab};
ghost use Rattle.bands.specs.Bands.{table_too_high, long_starts, short_starts};
ghost use Rattle.bands.specs.Read.{TableRead};

pub use band_table::BandTable;
use refusals::Refusal;

// Refusal 3: band table above 2.
pub fn table_too_high(table: usize) -> bool
    ensures { result ≡ table_too_high table }
{
    3 <= table
}

// A table by its number, or refusal 3.
impl TryFrom<usize> for BandTable {
    type Error = Refusal;

    ghost try_from_gives = { TableRead };

    fn try_from(number: usize) -> Result<Self, Refusal> {
        if table_too_high(number) {
            return Err(Refusal::TableTooHigh);
        }
        Ok(BandTable { number })
    }
}

// Where the 22 long bands of a table start, and where the last ends.
pub fn long_bands(table: BandTable) -> [usize; 23]
    ensures { result ≡ long_starts table.number }
{
    table::LONG[table.number]
}

// Where the 13 short bands of a table start, and where the last ends.
pub fn short_bands(table: BandTable) -> [usize; 14]
    ensures { result ≡ short_starts table.number }
{
    table::SHORT[table.number]
}

// What preflag adds to the factor of each long band.
pub fn preflag_table() -> [u8; 22]
    ensures { result ≡ pretab }
{
    table::PRETAB
}
