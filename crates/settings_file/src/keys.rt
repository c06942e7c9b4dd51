//! The keys of settings, and their texts.
ghost use Rattle.std.specs.Prelude.{◌≡◌};
ghost use Rattle.settings_file.specs.Keys.{section_text, name_text, key, whole};

use std::fmt;

/// A table of the settings, or the list of static neighbours.
#[derive(Clone, Copy)]
pub enum Section {
    Ports,
    Inside,
    Outside,
    Icmp,
    Fragments,
    Vrrp,
    GatewayZero,
    GatewayOne,
    Neighbour,
}

impl Section {
    /// Returns the name of the table, as `gateway_0`.
    pub fn as_str(self) -> &'static str
        ensures { result.now ≡ section_text self }
    {
        match self {
            Section::Ports => "ports",
            Section::Inside => "inside",
            Section::Outside => "outside",
            Section::Icmp => "icmp",
            Section::Fragments => "fragments",
            Section::Vrrp => "vrrp",
            Section::GatewayZero => "gateway_0",
            Section::GatewayOne => "gateway_1",
            Section::Neighbour => "neighbour",
        }
    }
}

/// A key within a table of the settings.
#[derive(Clone, Copy)]
pub enum Name {
    Zero,
    One,
    HostLimit,
    Alone,
    InwardRefresh,
    Choice,
    Ahead,
    Virtual,
    Prefix,
    Vrid,
    Wire,
    Router,
    Mtu,
    Echo,
    Errors,
    Pass,
    PeerOnly,
    InsideIp,
    InsideMac,
    OutsideIp,
    OutsideMac,
    Priority,
    Interval,
    Preempt,
    BootFile,
    Link,
    InsidePort,
    OutsidePort,
    Side,
    Ip,
    Mac,
}

impl Name {
    /// Returns the text of the key, as `inside_ip`.
    pub fn as_str(self) -> &'static str
        ensures { result.now ≡ name_text self }
    {
        match self {
            Name::Zero => "zero",
            Name::One => "one",
            Name::HostLimit => "host_limit",
            Name::Alone => "alone",
            Name::InwardRefresh => "inward_refresh",
            Name::Choice => "choice",
            Name::Ahead => "ahead",
            Name::Virtual => "virtual",
            Name::Prefix => "prefix",
            Name::Vrid => "vrid",
            Name::Wire => "wire",
            Name::Router => "router",
            Name::Mtu => "mtu",
            Name::Echo => "echo",
            Name::Errors => "errors",
            Name::Pass => "pass",
            Name::PeerOnly => "peer_only",
            Name::InsideIp => "inside_ip",
            Name::InsideMac => "inside_mac",
            Name::OutsideIp => "outside_ip",
            Name::OutsideMac => "outside_mac",
            Name::Priority => "priority",
            Name::Interval => "interval",
            Name::Preempt => "preempt",
            Name::BootFile => "boot_file",
            Name::Link => "link",
            Name::InsidePort => "inside_port",
            Name::OutsidePort => "outside_port",
            Name::Side => "side",
            Name::Ip => "ip",
            Name::Mac => "mac",
        }
    }
}

/// A key of the settings, or a section as a whole where there is no name.
#[derive(Clone, Copy)]
pub struct Key {
    pub section: Section,
    pub name: Option<Name>,
}

impl Key {
    /// Returns the key of this name in a section.
    pub fn new(section: Section, name: Name) -> Key
        ensures { result ≡ key section name }
    {
        Key {
            section,
            name: Some(name),
        }
    }

    /// Returns the key of a whole section, or of the whole list of neighbours.
    pub fn whole(section: Section) -> Key
        ensures { result ≡ whole section }
    {
        Key {
            section,
            name: None,
        }
    }
}

/// Prints the path of the key, as `inside.prefix`, or `neighbour` for the whole list.
impl fmt::Display for Key {
    fn fmt<W: fmt::Write>(&self, f: &mut fmt::Formatter<W>) -> fmt::Result {
        f.write_str(self.section.as_str())?;
        match self.name {
            Some(name) => {
                f.write_str(".")?;
                f.write_str(name.as_str())
            }
            None => Ok(()),
        }
    }
}
