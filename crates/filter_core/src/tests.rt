//! A small language of filters against all packets of a few bytes, counted; and a pair worked out by hand.
use super::*;
use external_event::MOST_PACKET_SIZE;
use std::alloc::{AllocError, Global};
use std::test::Fail;

/// The bytes of the longest packet that is counted. Its bytes have their low two bits alone.
const LENGTH: u32 = 3;

/// The twelve bytes of an atom in memory.
fn spelled(atom: &Atom) -> [u8; 12] {
    let o = atom.offset.to_le_bytes();
    let m = atom.mask.to_le_bytes();
    let v = atom.value.to_le_bytes();
    [
        o[0], o[1], atom.width, 0, m[0], m[1], m[2], m[3], v[0], v[1], v[2], v[3],
    ]
}

/// The atoms of one and of two bytes in three that ask for some of the low two bits of each.
fn language(alloc: Global) -> Result<Vec<Atom>, AllocError> {
    let mut atoms = Vec::new(alloc);
    for (width, offset) in [(1u8, 0u16), (1, 1), (1, 2), (2, 0), (2, 1)] {
        let most: u32 = if width == 1 { 4 } else { 16 };
        for mask in 0..most {
            for value in 0..most {
                if value & mask == value {
                    atoms.push(Atom {
                        offset,
                        width,
                        mask: spread(mask),
                        value: spread(value),
                    })?;
                }
            }
        }
    }
    Ok(atoms)
}

/// Four bits, as the low two of two bytes.
fn spread(bits: u32) -> u32 {
    (bits & 3) | ((bits >> 2) & 3) << 8
}

/// A field's bits, where the three bytes of a packet are one number.
fn in_packet(atom: &Atom, bits: u32) -> u32 {
    let behind = LENGTH.wrapping_sub(end(atom));
    bits.wrapping_shl(behind.wrapping_mul(8))
}

/// Where an atom's field ends.
fn end(atom: &Atom) -> u32 {
    u32::from(atom.offset) + u32::from(atom.width)
}

/// How many packets of one to three bytes both atoms match, by the bits for which they ask.
fn counted(left: &Atom, right: &Atom) -> u32 {
    let masks = (in_packet(left, left.mask), in_packet(right, right.mask));
    let values = (in_packet(left, left.value), in_packet(right, right.value));
    if (values.0 ^ values.1) & masks.0 & masks.1 != 0 {
        return 0;
    }
    let fixed = (masks.0 | masks.1).count_ones();
    let mut count = 0u32;
    for length in 1..=LENGTH {
        if length >= end(left) && length >= end(right) {
            count = count.wrapping_add(1u32.wrapping_shl(
                length.wrapping_mul(2).wrapping_sub(fixed),
            ));
        }
    }
    count
}

/// How many of them a filter of both atoms would match: each packet is tried.
fn matched(left: &Filter, right: &Filter) -> u32 {
    let mut count = 0u32;
    for length in 1..=LENGTH {
        for number in 0..1u32.wrapping_shl(length.wrapping_mul(2)) {
            let bytes = [number, number >> 2, number >> 4].map(|bits| (bits & 3) as u8);
            if let Some(packet) = Packet::view(&bytes[..length as usize])
                && left.matches(&packet)
                && right.matches(&packet)
            {
                count = count.wrapping_add(1);
            }
        }
    }
    count
}

#[test]
fn pairs_of_a_small_language_match_as_counted(rt: HostRuntime) -> Result<(), Fail> {
    let atoms = language(rt.alloc())?;
    assert_eq!(rt; atoms.len(), 189);
    for left in &atoms {
        for right in &atoms {
            let wanted = counted(left, right);
            let (Ok(one), Ok(other)) = (read_filter(&spelled(left)), read_filter(&spelled(right)))
            else {
                panic!(rt; "an atom is no filter");
            };
            assert_eq!(rt; matched(&one, &other), wanted);
            assert_eq!(rt; overlaps(&one, &other), wanted > 0);
            let mut both = Vec::from_slice(rt.alloc(), &spelled(left))?;
            both.extend_from_slice(&spelled(right))?;
            assert_eq!(rt; read_filter(&both).is_ok(), wanted > 0);
        }
    }
    Ok(())
}

#[test]
fn halves_of_a_byte_overlap_and_values_of_one_do_not(rt: HostRuntime) {
    let atoms = [
        (1u8, 0xf0u32, 0x10u32),
        (1, 0x0f, 0x02),
        (2, 0xff00, 0x2000),
    ]
    .map(|(width, mask, value)| {
        spelled(&Atom {
            offset: 0,
            width,
            mask,
            value,
        })
    });
    let (Ok(high), Ok(low), Ok(other)) = (
        read_filter(&atoms[0]),
        read_filter(&atoms[1]),
        read_filter(&atoms[2]),
    ) else {
        panic!(rt; "an atom is no filter");
    };
    let mut out = [0xff; MOST_PACKET_SIZE];
    assert!(rt; common_packet(&high, &low, &mut out));
    assert_eq!(rt; out[0], 0x12);
    assert!(rt; !overlaps(&high, &other));
}
