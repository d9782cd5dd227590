// A record rendered.

#![tactic(auto)]

ghost use Rattle.std.specs.Prelude.{◌≡◌};
ghost use Rattle.backend.specs.Calls.{as_answer, told_answer};
ghost use Rattle.render_record.specs.RecordAnswer.{record_answer};

use backend::{Rendered, Told};
use history::History;
use refusals::Refusal;

// A record rendered at the edition that the caller names: from a history, the room's first 576 or 1,152 numbers, each channel's peak and the
// next history. A refusal leaves the room as it was.
pub fn render_record(
    h: History,
    edition: u8,
    s: &[u8],
    out: &mut [f32],
) -> Result<Rendered, Refusal>
    ensures { as_answer h result out.new ≡ record_answer edition s.now out.old h }
{
    let g = records::read_record(edition, s)?;
    backend::render(h, &g, out)
}

// A record rendered with the history in place (what is answered beside it is another type, so this is no instance of the function above): the next one stands then where the one before it stood. The arrays of a channel whose outputs are not
// written are not touched, and at a refusal none is.
pub fn render_in_place(
    h: &mut History,
    edition: u8,
    s: &[u8],
    out: &mut [f32],
) -> Result<Told, Refusal>
    ensures { told_answer result h.new out.new ≡ record_answer edition s.now out.old h.old }
{
    let granule = records::read_record(edition, s)?;
    backend::render_in_place(h, &granule, out)
}
