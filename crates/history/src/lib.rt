// What one granule leaves to the next: the history of both channels, a fresh one, and whether it is finite.

#![tactic(auto)]

ghost use Rattle.std.specs.Prelude.{◌≡◌};
ghost use Rattle.history.specs.History.{fresh_history, channel_not_finite, history_not_finite};

// What one channel leaves to the next granule: the overlap of hybrid synthesis, and sixteen blocks of 64 of synthesis.
#[repr(C)]
#[derive(Clone, Copy)]
pub struct Channel {
    pub overlap: [f32; 576],
    pub blocks: [f32; 1024],
}

#[repr(C)]
#[derive(Clone, Copy)]
pub struct History {
    pub left: Channel,
    pub right: Channel,
}

// The history that a run starts from: all +0.0.
pub fn fresh() -> History
    ensures { result ≡ fresh_history }
{
    let overlap = [0.0f32; 576];
    let blocks = [0.0f32; 1024];
    let c = Channel { overlap, blocks };
    History { left: c, right: c }
}

impl Channel {
    // Refusal 10 of one channel: a number of its history is infinite or not a number.
    fn not_finite(&self) -> bool
        ensures { result ≡ channel_not_finite self.now }
    {
        !laws::all_finite(&self.overlap) || !laws::all_finite(&self.blocks)
    }
}

// Refusal 10: channel 0's history, and channel 1's too where both are used. A server asks it of a history that it keeps: where the answer is
// true, `render` would refuse the next granule, and a fresh history is needed.
pub fn history_not_finite(both: bool, h: &History) -> bool
    ensures { result ≡ history_not_finite both h.now }
{
    h.left.not_finite() || both && h.right.not_finite()
}
