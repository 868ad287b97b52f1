// Accepted packets of a range expanded: the cursor over them, and decode into a lent buffer.
#![tactic(auto)]

ghost use Rattle.std.specs.Prelude.{◌≡◌, ◌<◌, ◌≤◌, length};
ghost use Rattle.lists.specs.Lists.{overlay};
ghost use Rattle.checks.specs.Checks.{verdict};
ghost use Rattle.checks.specs.Buffers.{afterwards};
ghost use Rattle.packets.specs.Packets.{expand, part, range_decode_checks};
ghost use Rattle.packets.specs.Inner.{Accepted};
ghost use Rattle.logluv.specs.Inner.{Ranged, start_cursor, ahead, SoundCursor, Opened, Ready, Stepped};

use checks::Refusal;

// A place in a range of accepted packets: where the next packet starts, and what is left of the one at hand.
// No `Iterator`: who calls knows how many bytes there are, so an Option of each would be made only to be taken apart.
#[derive(Clone, Copy)]
struct Cursor {
    at: usize,
    place: usize,
    run: usize,
    repeat: bool,
}

impl Cursor {
    fn new() -> Self
        ensures { result ≡ start_cursor }
    {
        Self {
            at: 0,
            place: 0,
            run: 0,
            repeat: false,
        }
    }

    // To the packet after one that is used up.
    #[tactic(auto, using(crate::proofs::Steps::steps))]
    fn next_packet(&mut self, p: &[u8])
        requires { SoundCursor p.now self.old × (self.old.run ≡ 0) × (0 < length (ahead p.now self.old)) }
        ensures { Opened p.now self.old self.new }
    {
        let packet = packets::packet_at(p, self.at);
        let place = self.at + 1;
        *self = Self {
            at: place + packet.payload,
            place,
            run: packet.len,
            repeat: 128 <= packet.control,
        };
    }

    // To a packet that has a byte to give: those of control 0 have none.
    fn ready(&mut self, p: &[u8])
        requires { SoundCursor p.now self.old × (0 < length (ahead p.now self.old)) }
        ensures { Ready p.now self.old self.new }
    {
        while self.run == 0 {
            self.next_packet(p);
        }
    }

    // The next byte.
    #[tactic(auto, using(crate::proofs::Steps::steps))]
    fn next(&mut self, p: &[u8]) -> u8
        requires { SoundCursor p.now self.old × (0 < length (ahead p.now self.old)) }
        ensures { Stepped p.now self.old result self.new }
    {
        self.ready(p);
        let byte = p[self.place];
        self.run -= 1;
        if !self.repeat {
            self.place += 1;
        }
        byte
    }
}

// What accepted packets stand for, over the front of a buffer, one byte a step.
#[tactic(auto, using(crate::proofs::Steps::steps))]
pub fn expand_part(p: &[u8], needed: usize, out: &mut [u8])
    requires { Accepted p.now needed × (needed ≤ length out.old) }
    ensures { out.new ≡ overlay (expand p.now 0) out.old }
{
    let mut cursor = Cursor::new();
    for place in out[..needed].iter_mut() {
        *place = cursor.next(p);
    }
}

// What an accepted range of a file stands for, over the front of a buffer.
fn expand_range(s: &[u8], start: usize, count: usize, needed: usize, out: &mut [u8])
    requires { Ranged s.now start count needed × (needed ≤ length out.old) }
    ensures { out.new ≡ overlay (expand (part s.now start count) 0) out.old }
{
    expand_part(&s[start..start + count], needed, out);
}

// Refused as by validate, then a short buffer with 6.
#[tactic(auto, using(checks::proofs::Rules::verdict_calls))]
pub fn decode(
    s: &[u8],
    start: usize,
    count: usize,
    stride: usize,
    needed: usize,
    out: &mut [u8],
) -> Result<(), Refusal>
    ensures answer { result ≡ verdict (range_decode_checks s.now start count stride needed (length out.old)) }
    ensures buffer { out.new ≡ afterwards result (expand (part s.now start count) 0) out.old }
{
    packets::validate(s, start, count, stride, needed)?;
    if out.len() < needed {
        return Err(Refusal::OutputTooSmall);
    }
    expand_range(s, start, count, needed, out);
    Ok(())
}
