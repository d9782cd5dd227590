// A granule's whole numbers, and which test refuses it.

#![tactic(auto)]

mod accepted;

ghost use Rattle.std.specs.Prelude.{◌≡◌, ◌≤◌, IfOk};
ghost use Rattle.laws.specs.Checks.{first, folded};
ghost use Rattle.refusals.specs.Refusals.{told};
ghost use Rattle.side_info.specs.Side.{count_too_high, factor_too_high, subblock_gain_too_high, number_too_large};
ghost use Rattle.intensity.specs.Intensity.{position_refused};
ghost use Rattle.granule.specs.Granule.{silent_part, two, output_count, any_part, wrong_channels, stereo_of_one, granule_checks};

pub use accepted::Accepted;
use bands::BandTable;
use history::History;
use refusals::{Refusal, refuse_if};
use side_info::{BlockType, Edition, SideInfo};

// What one channel has in a granule: its side information and its 576 numbers.
#[derive(Clone, Copy, Debug, PartialEq, Eq)]
pub struct Part {
    pub side: SideInfo,
    pub spectrum: [i16; 576],
}

#[derive(Clone, Copy, Debug, PartialEq, Eq)]
pub struct Granule {
    pub edition: u8,
    pub table: usize,
    pub channels: usize,
    pub mid_side: bool,
    pub intensity: bool,
    pub left: Part,
    pub right: Part,
}

// A part of zeros: a long block of silence.
pub fn silent_part() -> Part
    ensures { result ≡ silent_part }
{
    Part {
        side: SideInfo {
            block_type: BlockType::Long,
            global_gain: 0,
            scalefac_scale: false,
            preflag: false,
            subblock_gain: [0; 3],
            scalefac_l: [0; 22],
            scalefac_s: [0; 39],
            count1: 0,
        },
        spectrum: [0; 576],
    }
}

impl Granule {
    // Whether channel 1 is used.
    pub fn two(&self) -> bool
        ensures { result ≡ two self.now }
    {
        self.channels == 2
    }

    // How many outputs the granule has: 576 per channel.
    pub fn output_count(&self) -> usize
        ensures { result ≡ output_count self.now }
    {
        if self.two() { 1152 } else { 576 }
    }

    // Refusal 1: channel count is not 1 or 2.
    fn wrong_channels(&self) -> bool
        ensures { result ≡ wrong_channels self.now.channels }
    {
        self.channels != 1 && self.channels != 2
    }

    // Refusal 2: mid-side or intensity asked for with one channel.
    fn stereo_of_one(&self) -> bool
        ensures { result ≡ stereo_of_one self.now }
    {
        (self.mid_side || self.intensity) && self.channels == 1
    }

    // Refusals 4 to 7, each of the used channels. (One function over the test would say in its contract what the test promises of a part,
    // and each call what these say.)
    fn count_too_high(&self) -> bool
        ensures { result ≡ any_part self.now (λ p. count_too_high p.side.count1) }
    {
        side_info::count_too_high(self.left.side.count1)
            || self.two() && side_info::count_too_high(self.right.side.count1)
    }

    fn factor_too_high(&self) -> bool
        ensures { result ≡ any_part self.now (λ p. factor_too_high p.side) }
    {
        side_info::factor_too_high(self.left.side)
            || self.two() && side_info::factor_too_high(self.right.side)
    }

    fn subblock_gain_too_high(&self) -> bool
        ensures { result ≡ any_part self.now (λ p. subblock_gain_too_high p.side) }
    {
        side_info::subblock_gain_too_high(self.left.side)
            || self.two() && side_info::subblock_gain_too_high(self.right.side)
    }

    fn number_too_large(&self) -> bool
        ensures { result ≡ any_part self.now (λ p. number_too_large p.spectrum) }
    {
        side_info::number_too_large(&self.left.spectrum)
            || self.two() && side_info::number_too_large(&self.right.spectrum)
    }

    // Refusal 8, which depends on the edition.
    fn position_refused(&self, edition: Edition) -> bool
        ensures { result ≡ position_refused edition self.now.intensity self.now.table self.now.left.side self.now.right.side }
    {
        intensity::position_refused(
            edition,
            self.intensity,
            self.table,
            self.left.side,
            self.right.side,
        )
    }

    // The granule with what its numbers name, or the refusal of the first check that fails, in the paper's order: 4 to 7 each look at all used
    // channels before the next is made. `room` is the length of the room.
    #[tactic(auto, unfolding(laws::specs::Checks::next))]
    pub fn accepted(&self, h: &History, room: usize) -> Result<Accepted<'_>, Refusal>
        ensures number { told result ≡ first (granule_checks self.now h.now room) }
        ensures in_order { told result ≡ folded 0 (granule_checks self.now h.now room) }
        ensures granule { IfOk result (λ a. a.granule.now ≡ self.now) }
        ensures room { IfOk result (λ _. output_count self.now ≤ room) }
    {
        let edition = Edition::try_from(self.edition)?;
        refuse_if(self.wrong_channels(), Refusal::WrongChannels)?;
        refuse_if(self.stereo_of_one(), Refusal::StereoOfOne)?;
        let table = BandTable::try_from(self.table)?;
        refuse_if(self.count_too_high(), Refusal::CountTooHigh)?;
        refuse_if(self.factor_too_high(), Refusal::FactorTooHigh)?;
        refuse_if(self.subblock_gain_too_high(), Refusal::SubblockGainTooHigh)?;
        refuse_if(self.number_too_large(), Refusal::NumberTooLarge)?;
        refuse_if(self.position_refused(edition), Refusal::PositionTooHigh)?;
        refuse_if(
            history::history_not_finite(self.two(), h),
            Refusal::HistoryNotFinite,
        )?;
        refuse_if(room < self.output_count(), Refusal::RoomTooShort)?;
        Ok(Accepted {
            granule: self,
            edition,
            table,
        })
    }
}
