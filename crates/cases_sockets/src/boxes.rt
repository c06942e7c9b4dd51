//! The boxes of the cases: two boxes, the hub at the other end of gateway 0's wires, and a box
//! whose ways the cases say.

use anyhow::{Context, Result};
use cases_words::Case;
use control::{Control, ControlPath};
use sockets::{CONTROL_TOKEN, LoopbackPorts, Sockets, Way, Ways};
use std::net::UdpSocket;
use std::os::fd::AsRawFd;

/// The ways of a box that has all three places on the loopback address.
const ON_LOOPBACK: Ways = Ways {
    inside: Way::Loopback,
    outside: Way::Loopback,
    link: Way::Loopback,
};

/// The ports of the boxes, in the order of their list, and of a box whose settings leave them out. The hub's link leads
/// nowhere.
const PORTS: [LoopbackPorts; 5] = [
    LoopbackPorts {
        link: Some((27_001, 27_002)),
        inside: Some((27_011, 27_101)),
        outside: Some((27_021, 27_102)),
    },
    LoopbackPorts {
        link: Some((27_002, 27_001)),
        inside: Some((27_012, 27_101)),
        outside: Some((27_022, 27_102)),
    },
    LoopbackPorts {
        link: Some((27_003, 27_004)),
        inside: Some((27_101, 27_011)),
        outside: Some((27_102, 27_021)),
    },
    LoopbackPorts {
        link: Some((27_005, 27_006)),
        inside: Some((27_015, 27_016)),
        outside: Some((27_025, 27_026)),
    },
    LoopbackPorts {
        link: None,
        inside: None,
        outside: None,
    },
];

/// The boxes of the cases, and what an inherited descriptor stands for.
#[derive(Drop)]
pub(crate) struct Boxes {
    /// Box zero, box one, the hub, and the box with ways of its own, once it is opened.
    pub(crate) sockets: Vec<Sockets>,
    /// The socket that is used as an inherited descriptor: port 27321, connected to 27322.
    inherited: UdpSocket,
}

impl Boxes {
    /// Opens box zero, box one and the hub, and the socket for an inherited descriptor.
    pub(crate) fn open(rt: &HostRuntime) -> Result<Boxes> {
        let inherited = UdpSocket::bind(rt, "127.0.0.1:27321")?;
        inherited.connect("127.0.0.1:27322")?;
        Ok(Boxes {
            sockets: all_on_loopback(rt)?,
            inherited,
        })
    }

    /// Opens the box with ways of its own, in place of the one before; `descriptor` in its ways is
    /// the inherited one.
    pub(crate) fn open_other(&mut self, rt: &HostRuntime, case: &mut Case) {
        self.sockets.truncate(3);
        let descriptor = u16::try_from(self.inherited.as_raw_fd()).ok();
        let ways = ways_in(case, descriptor);
        let opened = self.add(rt, &ways);
        case.done(opened, "opened");
    }

    fn add(&mut self, rt: &HostRuntime, ways: &Ways) -> Result<()> {
        ways.check_descriptors()?;
        self.sockets.push(opened(rt, 3, "other", ways)?)?;
        Ok(())
    }
}

/// Returns the ways that the next three words say, in which `descriptor` is this descriptor, if
/// there is one.
pub(crate) fn ways_in(case: &mut Case, descriptor: Option<u16>) -> Ways {
    Ways {
        inside: way_in(case, descriptor),
        outside: way_in(case, descriptor),
        link: way_in(case, descriptor),
    }
}

fn way_in(case: &mut Case, descriptor: Option<u16>) -> Way {
    let text = case.word();
    let read = match descriptor {
        Some(number) if text == "descriptor" => Some(Way::Descriptor(number)),
        _ => Way::read(text),
    };
    case.or(read, Way::Loopback)
}

/// Returns the place of a box in the list of ports.
pub(crate) fn number_of(name: &str) -> usize {
    match name {
        "zero" => 0,
        "one" => 1,
        "hub" => 2,
        "other" => 3,
        "portless" => 4,
        _ => usize::MAX,
    }
}

fn all_on_loopback(rt: &HostRuntime) -> Result<Vec<Sockets>> {
    let mut sockets = Vec::new(rt.alloc());
    for name in ["zero", "one", "hub"] {
        add_on_loopback(rt, name, &mut sockets)?;
    }
    Ok(sockets)
}

fn add_on_loopback(rt: &HostRuntime, name: &str, sockets: &mut Vec<Sockets>) -> Result<()> {
    sockets.push(on_loopback(rt, number_of(name), name)?)?;
    Ok(())
}

/// Opens a box on the loopback address, with a control socket of this name.
pub(crate) fn on_loopback(rt: &HostRuntime, number: usize, control: &str) -> Result<Sockets> {
    opened(rt, number, control, &ON_LOOPBACK)
}

fn opened(rt: &HostRuntime, number: usize, control: &str, ways: &Ways) -> Result<Sockets> {
    let ports = *PORTS.get(number).context("no box of that name")?;
    let control = control_at(rt, control)?;
    Ok(Sockets::open(rt, ways, ports, control)?)
}

/// Opens the control socket of a box of this name.
pub(crate) fn control_at(rt: &HostRuntime, name: &str) -> Result<Control> {
    let path = ControlPath::beside(rt.alloc(), name)?;
    Ok(Control::open(rt, &path, CONTROL_TOKEN)?)
}
