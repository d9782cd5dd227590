// A granule that passed the checks of its input.
ghost use Rattle.std.specs.Prelude.{◌≡◌};
ghost use Rattle.laws.specs.Checks.{first};
ghost use Rattle.side_info.specs.Editions.{edition_of};
ghost use Rattle.granule.specs.Granule.{input_checks};

use crate::Granule;
use bands::BandTable;
use side_info::Edition;

// A granule that none of refusals 18 and 1 to 8 is for, and the edition and the table that its numbers name.
#[derive(Clone, Copy)]
pub struct Accepted<'a> {
    pub granule: &'a Granule,
    pub edition: Edition,
    pub table: BandTable,
    ghost passes: { first (input_checks granule.now) ≡ 0 },
    ghost edition_named: { edition ≡ edition_of granule.now.edition },
    ghost table_named: { table.number ≡ granule.now.table },
}
