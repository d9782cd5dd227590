// What a granule says beside its numbers and its band table: the edition, each channel's block type and side information, and refusals 18 and 4 to 7.

#![tactic(auto)]

ghost use Rattle.std.specs.Prelude.{◌≡◌, ◌&&◌, pos, get_or};
ghost use Rattle.std.specs.Int.Signed.{le_z};
ghost use Rattle.laws.specs.Checks.{all_to};
ghost use Rattle.side_info.specs.Editions.{edition_of, edition_read};
ghost use Rattle.side_info.specs.Kinds.{block_type_of, block_type_read};
ghost use Rattle.side_info.specs.Side.{count_too_high, factor_too_high, subblock_gain_too_high, number_too_large, numbers_small, numbers_low};

use refusals::Refusal;

// The rules that a granule is rendered by: the Rust crate's, or ISO/IEC 11172-3's where the two part and document 02, request 5, says so.
#[derive(Clone, Copy, Debug, PartialEq, Eq)]
pub enum Edition {
    First,
    Second,
}

// The edition that a number names, or refusal 18.
impl TryFrom<u8> for Edition {
    type Error = Refusal;

    ghost try_from_gives = { λ n r. r ≡ edition_read n };

    fn try_from(n: u8) -> Result<Self, Refusal> {
        match n {
            1 => Ok(Edition::First),
            2 => Ok(Edition::Second),
            _ => Err(Refusal::WrongEdition),
        }
    }
}

// The edition that a number names, for who has no refusal to give: a number that is not 1 or 2 stands for the first.
pub fn edition_of(n: u8) -> Edition
    ensures { result ≡ edition_of n }
{
    Edition::try_from(n).unwrap_or(Edition::First)
}

#[derive(Clone, Copy, Debug, PartialEq, Eq)]
pub enum BlockType {
    Long,
    Short,
    Mixed,
    Start,
    End,
}

// The block type that a byte of a record stands for, or refusal 12.
impl TryFrom<u8> for BlockType {
    type Error = Refusal;

    ghost try_from_gives = { λ n r. r ≡ block_type_read n };

    fn try_from(n: u8) -> Result<Self, Refusal> {
        match n {
            0 => Ok(BlockType::Long),
            1 => Ok(BlockType::Short),
            2 => Ok(BlockType::Mixed),
            3 => Ok(BlockType::Start),
            4 => Ok(BlockType::End),
            _ => Err(Refusal::WrongByte),
        }
    }
}

// The block type that a number stands for, for who has no refusal to give: a number above 4 stands for the last.
pub fn block_type_of(n: u8) -> BlockType
    ensures { result ≡ block_type_of n }
{
    BlockType::try_from(n).unwrap_or(BlockType::End)
}

// What a granule says of one channel beside its 576 numbers. A short band's three factors stand together: band, then window.
#[derive(Clone, Copy, Debug, PartialEq, Eq)]
pub struct SideInfo {
    pub block_type: BlockType,
    pub global_gain: u8,
    pub scalefac_scale: bool,
    pub preflag: bool,
    pub subblock_gain: [u8; 3],
    pub scalefac_l: [u8; 22],
    pub scalefac_s: [u8; 39],
    pub count1: usize,
}

// Refusal 4: `count1` above 576.
pub fn count_too_high(count1: usize) -> bool
    ensures { result ≡ count_too_high count1 }
{
    576 < count1
}

// Refusal 5: any of the 22 long or 39 short scale factors above 15.
pub fn factor_too_high(side: SideInfo) -> bool
    ensures { result ≡ factor_too_high side }
{
    !laws::all_at_most(&side.scalefac_l, 15) || !laws::all_at_most(&side.scalefac_s, 15)
}

// Refusal 6: a subblock gain above 7.
pub fn subblock_gain_too_high(side: SideInfo) -> bool
    ensures { result ≡ subblock_gain_too_high side }
{
    !laws::all_at_most(&side.subblock_gain, 7)
}

// Whether each number lies in `low` to `high`. `bad` is as wide as a number: the machine then takes eight at once.
fn numbers_within(spectrum: &[i16; 576], low: i16, high: i16) -> bool
    ensures { result ≡ all_to 576 (λ i. le_z low (get_or spectrum.now i (pos 0)) && le_z (get_or spectrum.now i (pos 0)) high) }
{
    let mut bad: u16 = 0;
    for x in spectrum {
        if *x < low {
            bad = 1;
        }
        if high < *x {
            bad = 1;
        }
    }
    bad == 0
}

// Refusal 7: a spectrum number beyond -8206 to 8206.
pub fn number_too_large(spectrum: &[i16; 576]) -> bool
    ensures { result ≡ number_too_large spectrum.now }
{
    !numbers_within(spectrum, -8206, 8206)
}

// Whether each number lies in -255 to 255: the small table of powers then has them all.
pub fn numbers_small(spectrum: &[i16; 576]) -> bool
    ensures { result ≡ numbers_small spectrum.now }
{
    numbers_within(spectrum, -255, 255)
}

// Whether each number lies in -4103 to 4103: the first part of the table of powers then has their sizes.
pub fn numbers_low(spectrum: &[i16; 576]) -> bool
    ensures { result ≡ numbers_low spectrum.now }
{
    numbers_within(spectrum, -4103, 4103)
}
