// Writing a message at the start of the bytes offered; a refusal leaves them as they were.
// Format: docs/FRAMES.md. What a message's bytes are: `form` in the specs of crate wire.
#![tactic(auto)]

ghost use Rattle.wire.specs.Messages.{meaning};
ghost use Rattle.writer.specs.Writes.{Writes};

use layout::lay::lay_out;
use wire::message::Message;

mod put;
mod room;

use put::put_layout;
use room::needed;

// Why nothing is written: no bytes spell the value, or fewer bytes are offered than the message has.
#[derive(Clone, Copy, PartialEq, Eq)]
pub enum Unwritten {
    NoMessage,
    Out,
}

// Writes a message, and answers how many bytes it has.
pub fn write(m: &Message<'_>, out: &mut [u8]) -> Result<usize, Unwritten>
    ensures { Writes (meaning m.now) out.old result out.new }
{
    let layout = lay_out(m).ok_or(Unwritten::NoMessage)?;
    if out.len() < needed(&layout) {
        return Err(Unwritten::Out);
    }
    Ok(put_layout(out, &layout))
}
