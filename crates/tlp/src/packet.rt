// A completion's packet: a header with its payload.
ghost use Rattle.std.specs.Prelude.{◌≡◌, cond, ◌+◌, ◌*◌, eqb, Ok, Err};
ghost use Rattle.refusals.specs.declared.Refusal.TheVariants.{Malformed};
ghost use Rattle.tlp.specs.Packet.{completion_of};

use crate::completion::{Completion, read_completion};
use refusals::Refusal;

// With a header's words behind it, the packet is whole.
pub fn with_payload(room: usize, h: Completion) -> Result<Completion, Refusal>
    ensures { result ≡ cond (eqb room (12 + 4 * h.length)) (Ok h) (Err Malformed) }
{
    if room == 12 + 4 * h.length as usize {
        Ok(h)
    } else {
        Err(Refusal::Malformed)
    }
}

// The header of a packet, whose payload has its length.
#[tactic(auto, unfolding(crate::specs::Packet::completion_of, crate::specs::Completion::read_completion, crate::specs::Completion::completion_reserved))]
pub fn completion_of(packet: &[u8]) -> Result<Completion, Refusal>
    ensures { result ≡ completion_of packet.now }
{
    let header = packet.get(..12).ok_or(Refusal::Malformed)?;
    with_payload(packet.len(), read_completion(header)?)
}
