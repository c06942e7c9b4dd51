//! The way by which each place of a box is reached.

use crate::{End, Ends, LoopbackPorts, Network, Peer};
use mio::net::UdpSocket;
use platform::Inherited;
use std::io::ErrorKind;
use std::net::{Net, SocketAddr};
use thiserror::Error;

/// The way by which a place is reached.
#[derive(Clone, Copy, Debug, PartialEq, Eq)]
pub enum Way {
    /// UDP between two ports of the loopback address, which are in the settings.
    Loopback,
    /// UDP between two ends, each frame a datagram.
    Udp(Ends),
    /// UDP between two ends, each frame behind a header of VXLAN with this network.
    Vxlan(Ends, Network),
    /// An inherited descriptor, each frame a read or a write.
    Descriptor(u16),
}

impl Way {
    /// Reads `loopback`, `udp:OWN,OTHER`, `vxlan:OWN,OTHER,NETWORK` or `descriptor:N`. An end is as `10.1.0.1:7000`, and N is
    /// above 2. Returns `None` where the text is none of these.
    pub fn read(text: &str) -> Option<Way> {
        if text == "loopback" {
            return Some(Way::Loopback);
        }
        if let Some(ends) = text.strip_prefix("udp:") {
            return Some(Way::Udp(Ends::read(ends)?));
        }
        if let Some(rest) = text.strip_prefix("vxlan:") {
            let (ends, digits) = rest.rsplit_once(',')?;
            let network = Network::new(digits.parse::<u32>().ok()?)?;
            return Some(Way::Vxlan(Ends::read(ends)?, network));
        }
        match text.strip_prefix("descriptor:")?.parse::<u16>().ok()? {
            0..=2 => None,
            number => Some(Way::Descriptor(number)),
        }
    }

    /// Returns what a place is attached to by the way. The ports are those of `Way::Loopback`: the own one, and the other.
    /// Returns None for loopback without ports.
    pub(crate) fn attachment(self, ports: Option<(u16, u16)>) -> Option<Attachment> {
        match self {
            Way::Loopback => match ports {
                Some(ports) => Some(Attachment::Udp(Ends::on_loopback(ports))),
                None => None,
            },
            Way::Udp(ends) => Some(Attachment::Udp(ends)),
            Way::Vxlan(ends, network) => Some(Attachment::Vxlan(ends, network)),
            Way::Descriptor(number) => Some(Attachment::Descriptor(number)),
        }
    }
}

/// What a place is attached to: a way whose ends are all known. Loopback is UDP between two of its ports.
#[derive(Clone, Copy)]
pub(crate) enum Attachment {
    Udp(Ends),
    Vxlan(Ends, Network),
    Descriptor(u16),
}

impl Attachment {
    /// Returns the peer of a place.
    pub(crate) fn peer(self) -> Peer {
        match self {
            Attachment::Udp(ends) => Peer::Udp(ends.other),
            Attachment::Vxlan(ends, network) => Peer::Vxlan(ends.other.address, network),
            Attachment::Descriptor(_) => Peer::Interface,
        }
    }
}

/// The ways of a box's three places.
#[derive(Clone, Copy, Debug, PartialEq, Eq)]
pub struct Ways {
    pub inside: Way,
    pub outside: Way,
    pub link: Way,
}

/// The descriptor of this number isn't open.
#[derive(Clone, Copy, Debug, PartialEq, Eq, Error)]
#[error("way 2 NoDescriptor {0}")]
pub struct NoDescriptor(pub u16);

impl Ways {
    /// Checks that the descriptors of the ways are open, and makes them non-blocking. To be called before the box opens
    /// anything: else a descriptor of its own could be taken for an inherited one.
    ///
    /// # Errors
    ///
    /// The first descriptor that isn't open, of the inside, the outside and the link.
    pub fn check_descriptors(&self) -> Result<(), NoDescriptor> {
        for way in [self.inside, self.outside, self.link] {
            if let Way::Descriptor(number) = way {
                if Inherited::open(number).is_err() {
                    return Err(NoDescriptor(number));
                }
            }
        }
        Ok(())
    }
}

/// Returns the first of a box's own ends at which no socket can be bound, of the link, the inside and the outside.
pub fn first_unbound<R: Net>(
    rt: &R,
    ways: &Ways,
    ports: LoopbackPorts,
) -> Option<(End, ErrorKind)> {
    let places = [
        (ways.link, ports.link),
        (ways.inside, ports.inside),
        (ways.outside, ports.outside),
    ];
    for (way, ports) in places {
        let end = match way.attachment(ports) {
            Some(Attachment::Udp(ends) | Attachment::Vxlan(ends, _)) => ends.own,
            Some(Attachment::Descriptor(_)) | None => continue,
        };
        if let Err(error) = UdpSocket::bind(rt, SocketAddr::from(end)) {
            return Some((end, error.kind()));
        }
    }
    None
}
