//! A copy of a ring page.
ghost use Rattle.std.specs.Prelude.{◌≡◌, ◌<◌, ◌≤◌, ◌+◌, length};
ghost use Rattle.aegis_limits.specs.Limits.{page_size};
ghost use Rattle.frame_store.specs.Pages.{page_at, with_bytes};
ghost use Rattle.packet_ring.specs.Ring.{with_packet};

use aegis_limits::PAGE_SIZE;
use external_event::PacketBytes;
use frame_store::Frames;
use packet_ring::Buffer;

/// The bytes of a buffer's first word, which is the length of its packet.
const LENGTH_SIZE: usize = 4;

/// The bytes of a page.
pub(crate) fn copy_of(frames: &Frames, page: u32) -> [u8; PAGE_SIZE]
    requires { page < length frames.now }
    ensures { result ≡ page_at frames.now page }
{
    let mut copy = [0; PAGE_SIZE];
    copy.copy_from_slice(frames.page(page));
    copy
}

/// Puts bytes into a page from an offset on.
fn put(page: &mut [u8; PAGE_SIZE], offset: usize, bytes: &[u8])
    requires { offset + length bytes.now ≤ page_size }
    ensures { page.new ≡ with_bytes page.old offset bytes.now }
{
    page[offset..offset + bytes.len()].copy_from_slice(bytes);
}

/// Puts a packet into a buffer of a ring page: its length, and behind it its bytes. All else of the page stays.
pub(crate) fn put_packet(page: &mut [u8; PAGE_SIZE], buffer: Buffer, packet: &PacketBytes)
    ensures { page.new ≡ with_packet page.old buffer packet.now }
{
    let bytes = packet.bytes();
    let start = buffer.offset() as usize;
    put(page, start, &(bytes.len() as u32).to_le_bytes());
    put(page, start + LENGTH_SIZE, bytes);
}
