// Reorder: the samples of a short block, window by window within a band, laid out in triples with one number of each window.

#![tactic(auto)]

ghost use Rattle.std.specs.Prelude.{◌≡◌, ◌+◌, ◌*◌, ◌/◌, ◌%◌, length, IfOk};
ghost use Rattle.laws.specs.Checks.{first, folded};
ghost use Rattle.laws.specs.Lists.{at, tab};
ghost use Rattle.bands.specs.Bands.{short_starts, short_begin};
ghost use Rattle.refusals.specs.Refusals.{told};
ghost use Rattle.side_info.specs.Editions.{edition_of};
ghost use Rattle.reorder.specs.Reorder.{reordered_bands, reached, reorders, reordered_from, reordered, reorder_checks, ReorderAnswer};

use bands::BandTable;
use refusals::{Refusal, refuse_if};
use side_info::{BlockType, Edition};

// A band's three windows, which stand one after the other, laid out in triples: a triple has one number of each.
fn interleave(width: usize, windows: &[f32], triples: &mut [f32])
    requires { (length windows.now ≡ 3 * width) × (length triples.old ≡ 3 * width) }
    ensures { triples.new ≡ tab (3 * width) (λ o. at windows.now (o % 3 * width + o / 3)) }
{
    for j in 0..width {
        let triple = 3 * j;
        triples[triple] = windows[j];
        triples[triple + 1] = windows[width + j];
        triples[triple + 2] = windows[2 * width + j];
    }
}

// Whether band k, which begins at `begin`, is reached: the first always, a later one below `count1`.
fn reached(table: BandTable, first: usize, count1: usize, k: usize, begin: usize) -> bool
    requires { begin ≡ short_begin (short_starts table.number) k }
    ensures { result ≡ reached first (short_starts table.number) count1 k }
{
    k == first || begin < count1
}

// Whether it is reordered: of the bands from `first` on and below `last`.
fn reorders(
    table: BandTable,
    last: usize,
    first: usize,
    count1: usize,
    k: usize,
    begin: usize,
) -> bool
    requires { begin ≡ short_begin (short_starts table.number) k }
    ensures { result ≡ reorders last first (short_starts table.number) count1 k }
{
    first <= k && k < last && reached(table, first, count1, k, begin)
}

// Those bands one after the other. The samples as they were are read while the new ones are written.
fn reorder_bands(
    table: BandTable,
    last: usize,
    first: usize,
    count1: usize,
    samples: &mut [f32; 576],
)
    ensures { samples.new ≡ tab 576 (reordered_from last first (short_starts table.number) count1 samples.old) }
{
    let starts = bands::short_bands(table);
    let old = *samples;
    let mut begin: usize = 0;
    for k in 0..13 {
        let end = 3 * starts[k + 1];
        if reorders(table, last, first, count1, k, begin) {
            interleave(
                (end - begin) / 3,
                &old[begin..end],
                &mut samples[begin..end],
            );
        }
        begin = end;
    }
}

// How many bands, from the front, an edition may reorder: edition 1 never does band 12.
fn reordered_bands(edition: Edition) -> usize
    ensures { result ≡ reordered_bands edition }
{
    match edition {
        Edition::First => 12,
        Edition::Second => 13,
    }
}

// The samples of short blocks from window by window to triples, as the block type asks. They may be any floats, infinite ones too.
pub fn reorder_step(
    edition: Edition,
    table: BandTable,
    kind: BlockType,
    count1: usize,
    samples: &mut [f32; 576],
)
    ensures { samples.new ≡ reordered edition table.number kind count1 samples.old }
{
    let last = reordered_bands(edition);
    match kind {
        BlockType::Short => reorder_bands(table, last, 0, count1, samples),
        BlockType::Mixed => reorder_bands(table, last, 3, count1, samples),
        BlockType::Long | BlockType::Start | BlockType::End => {}
    }
}

// The edition and the table that the numbers name, or the refusal of the first check that fails.
#[tactic(auto, unfolding(laws::specs::Checks::next))]
fn accepted(
    edition: u8,
    table: usize,
    count1: usize,
    samples: &[f32],
) -> Result<(Edition, BandTable), Refusal>
    ensures number { told result ≡ first (reorder_checks edition table count1 samples.now) }
    ensures in_order { told result ≡ folded 0 (reorder_checks edition table count1 samples.now) }
    ensures named { IfOk result (λ n. (n.0 ≡ edition_of edition) × (n.1.number ≡ table)) }
{
    let edition = Edition::try_from(edition)?;
    let table = BandTable::try_from(table)?;
    refuse_if(side_info::count_too_high(count1), Refusal::CountTooHigh)?;
    refuse_if(!laws::all_finite(samples), Refusal::SamplesNotFinite)?;
    Ok((edition, table))
}

// The same, or a refusal: nothing is moved then.
pub fn reorder(
    edition: u8,
    table: usize,
    kind: BlockType,
    count1: usize,
    samples: &mut [f32; 576],
) -> Result<(), Refusal>
    ensures { ReorderAnswer edition table kind count1 samples.old (told result) samples.new }
{
    let (edition, table) = accepted(edition, table, count1, samples)?;
    reorder_step(edition, table, kind, count1, samples);
    Ok(())
}
