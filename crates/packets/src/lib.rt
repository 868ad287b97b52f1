// Packets of a range: what a control says, and their validation against a stride.
#![tactic(auto)]

ghost use Rattle.std.specs.Prelude.{◌≡◌, ◌-◌, ◌<◌, ◌≤◌, length};
ghost use Rattle.checks.specs.Checks.{verdict};
ghost use Rattle.packets.specs.Packets.{room_of, packet_checks, range_checks};
ghost use Rattle.packets.specs.Inner.{PacketIs, Says};

use checks::Refusal;

// A control, how many bytes its packet stands for, and how many of the range follow it.
#[derive(Clone, Copy, Debug, PartialEq, Eq)]
pub struct Packet {
    pub control: usize,
    pub len: usize,
    pub payload: usize,
}

// What a control says.
fn packet_of(control: u8) -> Packet
    ensures { Says control result.control result.len result.payload }
{
    let control = usize::from(control);
    if control < 128 {
        Packet {
            control,
            len: control,
            payload: control,
        }
    } else {
        Packet {
            control,
            len: control - 126,
            payload: 1,
        }
    }
}

// What the control at a place says.
pub fn packet_at(p: &[u8], at: usize) -> Packet
    requires { at < length p.now }
    ensures { PacketIs p.now at result.control result.len result.payload }
{
    packet_of(p[at])
}

// What is left to the boundary of the stride before the first packet.
#[tactic(auto, using(crate::proofs::Laws::rooms))]
fn first_room(stride: usize, needed: usize) -> usize
    requires { 0 < stride }
    ensures { result ≡ room_of stride needed }
{
    let part = needed % stride;
    if part == 0 { stride } else { part }
}

// The same after a packet that does not pass it: no division, as the boundary only moves when it is met.
#[tactic(auto, using(crate::proofs::Laws::rooms))]
fn next_room(stride: usize, left: usize, room: usize, len: usize) -> usize
    requires { (0 < stride) × (room ≡ room_of stride left) × (len ≤ room) × (len ≤ left) }
    ensures { result ≡ room_of stride (left - len) }
{
    let rest = room - len;
    if rest == 0 { stride } else { rest }
}

// The packets of a range, checked one after the other.
#[tactic(auto, using(crate::proofs::Laws::scanned_none))]
pub fn check_part(p: &[u8], stride: usize, needed: usize) -> Result<(), Refusal>
    requires { 0 < stride }
    ensures { result ≡ verdict (packet_checks stride p.now 0 needed) }
{
    let mut rest = p;
    let mut left = needed;
    let mut room = first_room(stride, needed);
    while let Some((control, after)) = rest.split_first() {
        let Packet { len, payload, .. } = packet_of(*control);
        if after.len() < payload {
            return Err(Refusal::Truncated);
        }
        if left < len || room < len {
            return Err(Refusal::Invalid);
        }
        room = next_room(stride, left, room, len);
        left -= len;
        rest = &after[payload..];
    }
    if left == 0 {
        Ok(())
    } else {
        Err(Refusal::Truncated)
    }
}

// Refused, in this order: a stride of 0 with 2, a range outside the file with 1, its packets with 1 or 2.
#[tactic(auto, using(crate::proofs::Laws::ranges), unfolding(crate::specs::Packets::range_checks))]
pub fn validate(
    s: &[u8],
    start: usize,
    count: usize,
    stride: usize,
    needed: usize,
) -> Result<(), Refusal>
    ensures { result ≡ verdict (range_checks s.now start count stride needed) }
{
    if stride == 0 {
        return Err(Refusal::Invalid);
    }
    if s.len() < start || s.len() - start < count {
        return Err(Refusal::Truncated);
    }
    check_part(&s[start..start + count], stride, needed)
}
