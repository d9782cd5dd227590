// The reader: each field's answer is its number and the next place, or a refusal. The record's arrays stand beside it.
ghost use Rattle.std.specs.Prelude.{◌≡◌, ◌+◌, ◌≤◌, length};
ghost use Rattle.little_endian.specs.Bytes.{byte_at};
ghost use Rattle.records.specs.Fields.{has_one, has_two, byte_read, field_at, half_read, top_read, head_at, head_read};
ghost use Rattle.records.specs.Record.{side_info_at, part_read, second_read};

use granule::Part;
use refusals::{Refusal, refuse_if};
use side_info::{BlockType, SideInfo};

// The byte at a place, whatever it is, or refusal 13 where the record ends before it.
fn byte_at(s: &[u8], place: usize) -> Result<(u8, usize), Refusal>
    ensures { result ≡ byte_read s.now place }
{
    refuse_if(s.len() <= place, Refusal::RecordCutOff)?;
    Ok((s[place], place + 1))
}

// The same of a byte that may be at most `most`: one above it is refused.
fn field_at(s: &[u8], place: usize, most: u8, refusal: Refusal) -> Result<(u8, usize), Refusal>
    ensures { result ≡ field_at s.now place most refusal }
{
    let (byte, next) = byte_at(s, place)?;
    refuse_if(most < byte, refusal)?;
    Ok((byte, next))
}

// The number of two bytes at a place. The place may be any, so nothing is added to it before it is known to lie in the record.
fn half_field(s: &[u8], place: usize) -> Result<(u16, usize), Refusal>
    ensures { result ≡ half_read s.now place }
{
    refuse_if(
        s.len() <= place || s.len() - place < 2,
        Refusal::RecordCutOff,
    )?;
    Ok((little_endian::half_at(s, place), place + 2))
}

// What the first four bytes say, of which the last is reserved.
#[derive(Clone, Copy, Debug, PartialEq, Eq)]
pub struct Top {
    pub table: u8,
    pub channels: u8,
    pub stereo: u8,
}

// The channel count is tested before all else: refusal 1 comes before 12. The table's number is the granule's to refuse.
pub fn read_top(s: &[u8]) -> Result<Top, Refusal>
    requires { 4 ≤ length s.now }
    ensures { result ≡ top_read s.now }
{
    let (table, place) = byte_at(s, 0)?;
    let (channels, place) = field_at(s, place, 2, Refusal::WrongChannels)?;
    refuse_if(channels == 0, Refusal::WrongChannels)?;
    let (stereo, place) = field_at(s, place, 3, Refusal::WrongByte)?;
    field_at(s, place, 0, Refusal::WrongByte)?;
    Ok(Top {
        table,
        channels,
        stereo,
    })
}

// What a part says beside its arrays.
#[derive(Clone, Copy, Debug, PartialEq, Eq)]
pub struct Head {
    pub kind: BlockType,
    pub gain: u8,
    pub flags: u8,
    pub count1: u16,
}

// The head of the part that starts at a place: its first three bytes, and past the arrays of bytes the reserved one and `count1`. No gain and no
// `count1` is refused here.
fn read_head(s: &[u8], place: usize) -> Result<Head, Refusal>
    requires { place + 1222 ≤ length s.now }
    ensures { result ≡ head_read s.now place }
{
    let (byte, gain_at) = byte_at(s, place)?;
    let kind = BlockType::try_from(byte)?;
    let (gain, flags_at) = byte_at(s, gain_at)?;
    let (flags, _) = field_at(s, flags_at, 3, Refusal::WrongByte)?;
    let (_, count_at) = field_at(s, place + 67, 0, Refusal::WrongByte)?;
    let (count1, _) = half_field(s, count_at)?;
    Ok(Head {
        kind,
        gain,
        flags,
        count1,
    })
}

// Whether a flag byte has the flag 1, and whether it has the flag 2.
pub fn has_one(flags: u8) -> bool
    ensures { result ≡ has_one flags }
{
    flags == 1 || flags == 3
}

pub fn has_two(flags: u8) -> bool
    ensures { result ≡ has_two flags }
{
    flags == 2 || flags == 3
}

// A part's side information: its head, with the arrays beside it.
#[tactic(auto, unfolding(crate::specs::Record::side_info_at))]
fn side_of(s: &[u8], place: usize, head: Head) -> SideInfo
    requires within { place + 1222 ≤ length s.now }
    requires head { head ≡ head_at s.now place }
    ensures { result ≡ side_info_at s.now place }
{
    let mut subblock_gain = [0u8; 3];
    little_endian::bytes_from(s, place + 3, &mut subblock_gain);
    let mut scalefac_l = [0u8; 22];
    little_endian::bytes_from(s, place + 6, &mut scalefac_l);
    let mut scalefac_s = [0u8; 39];
    little_endian::bytes_from(s, place + 28, &mut scalefac_s);
    SideInfo {
        block_type: head.kind,
        global_gain: head.gain,
        scalefac_scale: has_one(head.flags),
        preflag: has_two(head.flags),
        subblock_gain,
        scalefac_l,
        scalefac_s,
        count1: usize::from(head.count1),
    }
}

// The part that starts at a place, 1,222 bytes long.
#[tactic(auto, unfolding(crate::specs::Record::part_at))]
pub fn read_part(s: &[u8], place: usize) -> Result<Part, Refusal>
    requires { place + 1222 ≤ length s.now }
    ensures { result ≡ part_read s.now place }
{
    let head = read_head(s, place)?;
    let side = side_of(s, place, head);
    let mut spectrum = [0i16; 576];
    little_endian::signeds_from(s, place + 70, &mut spectrum);
    Ok(Part { side, spectrum })
}

// The second part, which one channel does not have.
#[tactic(auto, unfolding(crate::specs::Record::second_part))]
pub fn second_part(s: &[u8], channels: u8) -> Result<Part, Refusal>
    requires within { 2448 ≤ length s.now }
    requires channels { channels ≡ byte_at s.now 1 }
    ensures { result ≡ second_read s.now }
{
    if channels == 2 {
        read_part(s, 1226)
    } else {
        Ok(granule::silent_part())
    }
}
