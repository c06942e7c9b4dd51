//! Frames that are made of numbers.
ghost use Rattle.std.specs.Prelude.{◌≤◌};

use addresses::Ip;
use byteorder::{BigEndian, ByteOrder};
use cases_words::Case;
use std::alloc::{AllocError, Global};
use sums::sum;

/// The most bytes of a frame that are printed one by one.
const SHORT: usize = 120;

/// Prints a word and a frame: its bytes, or where there are many its first 34, how many there are, and their sum.
pub fn tell_frame(case: &mut Case, word: &str, frame: &[u8]) {
    case.put(word);
    if frame.len() <= SHORT {
        case.hex(" ", frame);
        return;
    }
    let (head, _rest) = frame.split_at(34);
    case.hex(" ", head);
    case.say("..", frame.len());
    case.hex_short(" sum ", sum(frame));
}

/// A fragment of a datagram of UDP to 198.51.100.7 whose bytes are their places modulo 251.
#[derive(Clone, Copy)]
pub struct Part {
    source: Ip,
    identification: u16,
    place: u64,
    count: u64,
}

impl Part {
    /// Reads `SOURCE ID PLACE COUNT`.
    pub fn read(case: &mut Case) -> Part {
        let source = case.hex_ip();
        let identification = case.short();
        let place = case.within(0, 65_528);
        let count = case.within(0, 1480);
        Part {
            source,
            identification,
            place,
            count,
        }
    }

    /// Returns the fragment that carries as many bytes behind this one.
    pub fn next(&self) -> Part {
        Part {
            place: self.place.saturating_add(self.count),
            ..*self
        }
    }

    /// Returns the frame, from a host inside to virtual router 11.
    pub fn frame(&self, case: &mut Case, more: bool) -> Vec<u8> {
        let made = self.made(case.alloc, more);
        case.or_none(made)
    }

    fn made(&self, alloc: Global, more: bool) -> Result<Vec<u8>, AllocError> {
        let mut frame = Vec::new(alloc);
        frame.extend_from_slice(&ETHERNET)?;
        frame.extend_from_slice(&self.header(more))?;
        for byte in 0..self.count {
            let value = self.place.saturating_add(byte) % 251;
            frame.push(value as u8)?;
        }
        Ok(frame)
    }

    fn header(&self, more: bool) -> [u8; 20] {
        let mut header = [
            0x45, 0, 0, 0, 0, 0, 0, 0, 64, 17, 0, 0, 0, 0, 0, 0, 198, 51, 100, 7,
        ];
        let flags = if more { 0x2000 } else { 0 };
        let total = self.count.saturating_add(20) % 65536;
        BigEndian::write_u16(&mut header[2..4], total as u16);
        BigEndian::write_u16(&mut header[4..6], self.identification);
        BigEndian::write_u16(&mut header[6..8], flags + (self.place / 8 % 8192) as u16);
        BigEndian::write_u32(&mut header[12..16], self.source.0);
        let checksum = 65535 - sum(&header);
        BigEndian::write_u16(&mut header[10..12], checksum);
        header
    }
}

/// The Ethernet header of a host's frame to virtual router 11.
const ETHERNET: [u8; 14] = [
    0x00, 0x00, 0x5e, 0x00, 0x01, 0x0b, 0x02, 0x00, 0x00, 0x00, 0x00, 0x0a, 0x08, 0x00,
];

/// Reads `TOTAL HEX`. Returns a frame to virtual router 11 with a packet of so many bytes, with these options, whose payload's
/// bytes are their places modulo 251.
pub fn long_frame(case: &mut Case) -> Vec<u8> {
    let total = case.within(20, 65_535) as u16;
    let options = case.bytes();
    let made = long_made(case.alloc, total, options.as_slice());
    case.or_none(made)
}

fn long_made(alloc: Global, total: u16, options: &[u8]) -> Result<Vec<u8>, AllocError> {
    let words = (options.len() / 4 % 11) as u8;
    let mut header = [
        0x45 + words,
        0,
        0,
        0,
        0x12,
        0x34,
        0,
        0,
        64,
        17,
        0,
        0,
        192,
        168,
        1,
        10,
        198,
        51,
        100,
        7,
    ];
    BigEndian::write_u16(&mut header[2..4], total);
    let checksum = 65535 - sums::add(sum(&header), sum(options));
    BigEndian::write_u16(&mut header[10..12], checksum);
    let mut frame = Vec::new(alloc);
    frame.extend_from_slice(&ETHERNET)?;
    frame.extend_from_slice(&header)?;
    frame.extend_from_slice(options)?;
    let payload = usize::from(total).saturating_sub(options.len().saturating_add(20));
    for byte in 0..payload {
        frame.push((byte % 251) as u8)?;
    }
    Ok(frame)
}
