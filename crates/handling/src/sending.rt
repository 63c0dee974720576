// The packet: written last, so that nothing but a taken event's message reaches the buffer.
ghost use Rattle.std.specs.Prelude.{◌≡◌, length};
ghost use Rattle.handling.specs.Sending.{length_left, buffer_left};

use sent::Message;

// How many bytes are sent; told where nothing is. What cannot be written is not sent and leaves the buffer as it is; behind
// the port's gate there is no such message. What is handed over is the message alone and not the answer, which would be
// copied on the way in and out.
#[tactic(auto, unfolding(crate::specs::Sending::length_left, crate::specs::Sending::buffer_left, writing::specs::Writing::left_of))]
pub fn send(packet: &mut [u8], message: Option<Message>, told: usize) -> usize
    ensures { (result ≡ length_left message told (length packet.old)) × (packet.new ≡ buffer_left message packet.old) }
{
    let Some(m) = message else {
        return told;
    };
    match writing::write(packet, m.header, m.body) {
        Ok(n) => n,
        Err(_) => told,
    }
}
