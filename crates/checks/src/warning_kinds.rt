//! The warnings of settings, and their texts.

use crate::PortWarning;
use settings_file::Key;
use std::fmt;

/// The kind of a warning: a value that is likely a mistake, though a pair can run with it.
#[derive(Clone, Copy)]
pub enum WarningKind {
    /// Something of the ports.
    Ports(PortWarning),
    /// The network has addresses that no host has.
    Martian,
    /// The network takes less than the longest packets, and the gateways don't cut them.
    Uncut,
    /// Both sides have this virtual router's number.
    SameNumber,
    /// The address is that of the network itself.
    NetworkAddress,
    /// The router is no static neighbour.
    LearntRouter,
    /// Advertisements of all stations count.
    AnyAdvertisement,
    /// The box has this MAC on its other side too.
    SameMac,
    /// The interval is as short as a round of a box.
    ShortInterval,
    /// The path is empty.
    EmptyPath,
    /// The path of the control socket beside the boot file is too long.
    LongPath,
    /// Both boxes have this priority.
    SamePriority,
    /// The boxes advertise at different intervals.
    OtherInterval,
    /// One box alone takes over from one of lower priority.
    OtherPreempt,
    /// Both boxes have this path.
    SamePath,
    /// The neighbour is in the list before.
    Twice,
    /// Another key before it has this loopback port.
    SamePort,
    /// The loopback port is left out, and another one of its place isn't.
    PortLeftOut,
}

/// Writes the text for the user.
impl fmt::Display for WarningKind {
    fn fmt<W: fmt::Write>(&self, f: &mut fmt::Formatter<W>) -> fmt::Result {
        let text = match self {
            WarningKind::Ports(warning) => return f.write(warning),
            WarningKind::Martian =>
                "in 0/8, 127/8, 224/4 and 240/4 no host has an address; nothing is translated",
            WarningKind::Uncut =>
                "below 1500, and fragments.pass isn't true: what is longer and may be cut is lost",
            WarningKind::SameNumber =>
                "as on the inside: right only where the two networks are apart",
            WarningKind::NetworkAddress => "this is the address of the network itself",
            WarningKind::LearntRouter =>
                "no [[neighbour]]: a forged ARP packet can lead its packets elsewhere",
            WarningKind::AnyAdvertisement =>
                "false or left out: any station's advertisement can make a side Backup",
            WarningKind::SameMac =>
                "as on the inside: a switch of both networks would learn it now here, now there",
            WarningKind::ShortInterval =>
                "a box looks only each centisecond: an advertisement that is late moves a side",
            WarningKind::EmptyPath => "the path is empty",
            WarningKind::LongPath =>
                "over 92 bytes: the control socket beside it has no room, and gate doesn't start",
            WarningKind::SamePriority =>
                "as the other box's: the one with the greater address is Active",
            WarningKind::OtherInterval =>
                "not the other box's: each notices the other's end by its own measure",
            WarningKind::OtherPreempt =>
                "not the other box's: which box is Active depends on which began first",
            WarningKind::SamePath => "as the other box's: right only on two machines",
            WarningKind::Twice => "this neighbour stands there before; the first counts",
            WarningKind::SamePort =>
                "another key has this port: loop refuses it, and gate with both on loopback",
            WarningKind::PortLeftOut =>
                "left out, and another port of its place isn't: loop refuses it, and gate with the place on loopback",
        };
        f.write_str(text)
    }
}

/// A warning at a key of settings.
#[derive(Clone, Copy)]
pub struct Warning {
    pub key: Key,
    pub kind: WarningKind,
}
