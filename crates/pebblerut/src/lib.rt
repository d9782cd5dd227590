// What a playback server links: one history per listener, kept by the server, lent and changed in place. Each function is a thin one on a reference to
// the history; what it promises is what the function by value promises. include/pebblerut.h says the same in C.

#![tactic(auto)]

ghost use Rattle.std.specs.Prelude.{◌≡◌, true};
ghost use Rattle.history.specs.History.{fresh_history, history_not_finite};
ghost use Rattle.render_record.specs.RecordAnswer.{record_answer, InPlace};

use history::History;

// Makes a listener's history fresh: all +0.0.
#[unsafe(no_mangle)]
pub extern "C" fn pebblerut_fresh(h: &mut History)
    ensures { h.new ≡ fresh_history }
{
    *h = history::fresh();
}

// Renders one record of 2,448 bytes into the room at the edition that is named, leaves the listener's next history in place and answers each channel's peak: 0 where
// the channel is not used, and both at a refusal, which answers its number and changes nothing else.
// A channel's history is changed only where its 576 outputs are written: at a refusal no byte of it is touched, and with one channel none of channel 1's.
// The promise has numbers, and one NaN among them: it does not say that a NaN's other bits stay, and a byte that is never stored keeps them.
fn in_place(
    h: &mut History,
    edition: u8,
    bytes: &[u8],
    out: &mut [f32],
    left_peak: &mut u32,
    right_peak: &mut u32,
) -> u8
    ensures { InPlace (record_answer edition bytes.now out.old h.old) result h.new out.new left_peak.new right_peak.new }
{
    match render_record::render_in_place(h, edition, bytes, out) {
        Ok(told) => {
            *left_peak = told.peaks.left;
            *right_peak = told.peaks.right;
            0
        }
        Err(refusal) => {
            *left_peak = 0;
            *right_peak = 0;
            refusal.number()
        }
    }
}

// That, as a server calls it.
#[unsafe(no_mangle)]
pub extern "C" fn pebblerut_render_edition(
    h: &mut History,
    edition: u8,
    bytes: &[u8],
    out: &mut [f32],
    left_peak: &mut u32,
    right_peak: &mut u32,
) -> u8
    ensures { InPlace (record_answer edition bytes.now out.old h.old) result h.new out.new left_peak.new right_peak.new }
{
    in_place(h, edition, bytes, out, left_peak, right_peak)
}

// The same at edition 1.
#[unsafe(no_mangle)]
pub extern "C" fn pebblerut_render(
    h: &mut History,
    bytes: &[u8],
    out: &mut [f32],
    left_peak: &mut u32,
    right_peak: &mut u32,
) -> u8
    ensures { InPlace (record_answer 1 bytes.now out.old h.old) result h.new out.new left_peak.new right_peak.new }
{
    pebblerut_render_edition(h, 1, bytes, out, left_peak, right_peak)
}

// Whether a history holds a number that is infinite or not a number, in either channel: a granule that uses that channel would be refused, 10, until the
// history is made fresh.
#[unsafe(no_mangle)]
pub extern "C" fn pebblerut_not_finite(h: &History) -> bool
    ensures { result ≡ history_not_finite true h.now }
{
    history::history_not_finite(true, h)
}
