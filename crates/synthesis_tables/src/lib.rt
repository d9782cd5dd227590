// The tables of synthesis, as numbers: the window and the matrixing. A const array is built anew at every mention. So each is
// named by one function only, which whoever wants the table calls once a granule, and lends the result on.

#![tactic(auto)]

mod lent;
mod matrixing;
mod window;

ghost use Rattle.std.specs.Prelude.{◌≡◌};
ghost use Rattle.synthesis_tables.specs.Window.{window};
ghost use Rattle.synthesis_tables.specs.Matrixing.{matrixing};

pub use lent::SynthesisTables;
use matrixing::MATRIXING;
use window::WINDOW;

// The standard's window of 512 numbers.
pub fn window_table() -> [f32; 512]
    ensures { result ≡ window }
{
    WINDOW
}

// Matrixing: a row for each of a slot's samples, a place for each of the 64 sums.
pub fn matrixing_table() -> [[f32; 64]; 32]
    ensures { result ≡ matrixing }
{
    MATRIXING
}

impl SynthesisTables {
    // By the constants and not by the functions above: each table of theirs would be copied once more.
    pub fn new() -> SynthesisTables
        ensures matrixing { result.matrixing ≡ matrixing }
        ensures window { result.window ≡ window }
    {
        SynthesisTables {
            matrixing: MATRIXING,
            window: WINDOW,
        }
    }
}
