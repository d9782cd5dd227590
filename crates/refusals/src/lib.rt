// Why an input is refused: the table of refusals. Whatever may refuse answers a `Result` with one of these, that of the first check
// that fails, and passes it on by `?`; its number is for those who cannot see the type: a server in C, and the lines of the programs.

#![tactic(auto)]

ghost use Rattle.std.specs.Prelude.{◌≡◌, Some};
ghost use Rattle.laws.specs.Checks.{check, next};
ghost use Rattle.refusals.specs.Refusals.{number, words, told, refused_if};

use std::error::Error;
use std::fmt;

#[derive(Clone, Copy, Debug, PartialEq, Eq)]
pub enum Refusal {
    WrongChannels,
    StereoOfOne,
    TableTooHigh,
    CountTooHigh,
    FactorTooHigh,
    SubblockGainTooHigh,
    NumberTooLarge,
    PositionTooHigh,
    SamplesNotFinite,
    HistoryNotFinite,
    RoomTooShort,
    WrongByte,
    RecordCutOff,
    TooManyRecords,
    WrongEdition,
}

impl Refusal {
    // Its number in the table.
    pub fn number(self) -> u8
        ensures { result ≡ number self }
    {
        match self {
            Refusal::WrongChannels => 1,
            Refusal::StereoOfOne => 2,
            Refusal::TableTooHigh => 3,
            Refusal::CountTooHigh => 4,
            Refusal::FactorTooHigh => 5,
            Refusal::SubblockGainTooHigh => 6,
            Refusal::NumberTooLarge => 7,
            Refusal::PositionTooHigh => 8,
            Refusal::SamplesNotFinite => 9,
            Refusal::HistoryNotFinite => 10,
            Refusal::RoomTooShort => 11,
            Refusal::WrongByte => 12,
            Refusal::RecordCutOff => 13,
            Refusal::TooManyRecords => 14,
            Refusal::WrongEdition => 18,
        }
    }
}

// What the number stands for, in a few words.
impl fmt::Display for Refusal {
    ghost output = { λ r. Some (words r) };

    fn fmt<W: fmt::Write>(&self, f: &mut fmt::Formatter<W>) -> fmt::Result {
        f.write_str(match self {
            Refusal::WrongChannels => "the channel count is not 1 or 2",
            Refusal::StereoOfOne => "mid-side or intensity is asked for with one channel",
            Refusal::TableTooHigh => "the band table is above 2",
            Refusal::CountTooHigh => "count1 is above 576",
            Refusal::FactorTooHigh => "a scale factor is above 15",
            Refusal::SubblockGainTooHigh => "a subblock gain is above 7",
            Refusal::NumberTooLarge => "a spectrum number is beyond -8206 to 8206",
            Refusal::PositionTooHigh => "a band that intensity applies to has a position above 7",
            Refusal::SamplesNotFinite => "a sample is infinite or not a number",
            Refusal::HistoryNotFinite => "a number of the history is infinite or not a number",
            Refusal::RoomTooShort => "the room for outputs is too short",
            Refusal::WrongByte => "a byte of the record is not one that it may be",
            Refusal::RecordCutOff => "the record is cut off",
            Refusal::TooManyRecords => "a record follows the last that can be counted",
            Refusal::WrongEdition => "the edition is not 1 or 2",
        })
    }
}

impl Error for Refusal {}

// One check: its refusal, if it fails. A stage's checks are a straight line of such calls, each with a `?`: what it tells is then the first
// check that fails (proofs/Line.antt).
#[tactic(auto, unfolding(laws::specs::Checks::next))]
pub fn refuse_if(fails: bool, refusal: Refusal) -> Result<(), Refusal>
    ensures refusal { result ≡ refused_if fails refusal }
    ensures number { told result ≡ next 0 (check (number refusal) fails) }
{
    if fails { Err(refusal) } else { Ok(()) }
}

// The number that is told of an answer: 0 where nothing is refused.
pub fn told(answer: Result<(), Refusal>) -> u8
    ensures { result ≡ told answer }
{
    match answer {
        Ok(()) => 0,
        Err(refusal) => refusal.number(),
    }
}
