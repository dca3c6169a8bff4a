//! Packets in rings.
ghost use Rattle.std.specs.Prelude.{◌≡◌, ◌<◌, length};
ghost use Rattle.frame_store.specs.Pages.{after_put, page_at};
ghost use Rattle.packet_ring.specs.Ring.{is_full as is_full_buffer, with_packet};

use crate::buffer::Buffer;
use filter_core::Packet;
use frame_store::Frames;

/// The bytes of a buffer's first word, which is the length of its packet.
const LENGTH_SIZE: u32 = 4;

/// Whether a buffer of a ring, which is this page of physical memory, has a packet that wasn't given back.
pub fn is_full(frames: &Frames, page: u32, buffer: Buffer) -> bool
    requires { page < length frames.now }
    ensures { result ≡ is_full_buffer (page_at frames.now page) buffer }
{
    frames.word(page, buffer.offset()) != 0
}

/// Puts a packet into a buffer of a ring, which is this page of physical memory: its length, and behind it its bytes.
/// All else of the page stays.
pub fn deliver(frames: &mut Frames, page: u32, buffer: Buffer, packet: &Packet<'_>)
    requires { page < length frames.old }
    ensures frames { frames.new ≡ after_put frames.old page 0 (with_packet (page_at frames.old page) buffer packet.now) }
    ensures size { length frames.new ≡ length frames.old }
{
    // Reads the page, and with it that it has its size.
    let _page = frames.page(page);
    let bytes = packet.bytes();
    frames.set_word(page, buffer.offset(), bytes.len() as u32);
    frames.put(page, buffer.offset() + LENGTH_SIZE, bytes);
}
