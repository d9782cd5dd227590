// A record of 2,448 bytes as a granule.

#![tactic(auto)]

mod read;

ghost use Rattle.std.specs.Prelude.{◌≡◌, IfOk};
ghost use Rattle.laws.specs.Checks.{first};
ghost use Rattle.refusals.specs.Refusals.{told};
ghost use Rattle.records.specs.Fields.{granule_of};
ghost use Rattle.records.specs.Record.{record_checks, end_checks, granule_at};

use granule::{Granule, Part};
use refusals::{Refusal, refuse_if};
use side_info::Edition;

// The granule of an edition, of a record's first bytes and its parts.
fn granule_of(edition: u8, top: read::Top, left: Part, right: Part) -> Granule
    ensures { result ≡ granule_of edition top left right }
{
    Granule {
        edition,
        table: usize::from(top.table),
        channels: usize::from(top.channels),
        mid_side: read::has_two(top.stereo),
        intensity: read::has_one(top.stereo),
        left,
        right,
    }
}

// The granule that a record says, of the edition that the caller names, or its refusal. With one channel the second part is not read.
#[tactic(auto, unfolding(crate::specs::Record::granule_at))]
pub fn read_record(edition: u8, s: &[u8]) -> Result<Granule, Refusal>
    ensures number { told result ≡ first (record_checks edition s.now) }
    ensures granule { IfOk result (λ g. g ≡ granule_at edition s.now) }
{
    refuse_if(s.len() < 2448, Refusal::RecordCutOff)?;
    Edition::try_from(edition)?;
    let top = read::read_top(s)?;
    let left = read::read_part(s, 4)?;
    let right = read::second_part(s, top.channels)?;
    Ok(granule_of(edition, top, left, right))
}

// The refusal that ends a run, 14 or 13, and none where what comes next is a whole record or nothing: n whole records have been read, and what
// comes next has so many bytes.
pub fn end_refusal(n: u16, bytes: usize) -> Result<(), Refusal>
    ensures { told result ≡ first (end_checks n bytes) }
{
    refuse_if(0 < bytes && n == 65535, Refusal::TooManyRecords)?;
    refuse_if(0 < bytes && bytes < 2448, Refusal::RecordCutOff)
}
