//! What a handler reaches.
ghost use Rattle.std.specs.Prelude.{◌≡◌};
ghost use Rattle.std.specs.Option.{option_map};
ghost use Rattle.handler_rules.specs.Memory.{bytes_at, readable_at};

/// Where the packet begins.
const PACKET_START: u32 = 0;

/// Where the ring page begins.
pub(crate) const PAGE_START: u32 = 0x1000;

/// So many bytes from an address on of what begins at a start, if they lie in it.
pub(crate) fn bytes_at(start: u32, memory: &[u8], address: u32, size: u32) -> Option<&[u8]>
    ensures { option_map (λ bytes. bytes.now) result ≡ bytes_at start memory.now address size }
{
    let place = address.checked_sub(start)? as usize;
    memory.get(place..place + size as usize)
}

/// So many bytes that may be read: those of the packet, and those of the ring page.
pub(crate) fn readable_at<'a>(
    packet: &'a [u8],
    page: &'a [u8],
    address: u32,
    size: u32,
) -> Option<&'a [u8]>
    ensures { option_map (λ bytes. bytes.now) result ≡ readable_at packet.now page.now address size }
{
    if let Some(bytes) = bytes_at(PACKET_START, packet, address, size) {
        return Some(bytes);
    }
    bytes_at(PAGE_START, page, address, size)
}
