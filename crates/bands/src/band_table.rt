// A band table that there is. (What is said of reading one names this type, so it stands in another file.)
ghost use Rattle.bands.specs.Bands.{KnownTable};

// One of the band tables that there are, by its number.
#[derive(Clone, Copy, Debug, PartialEq, Eq)]
pub struct BandTable {
    pub number: usize,
    ghost known: { KnownTable number },
}
