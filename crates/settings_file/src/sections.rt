//! The sections of a document: ports, the two networks with the router, ICMP, fragments and VRRP. The errors are the first
//! keys whose values are bad.
ghost use Rattle.std.specs.Prelude.{◌≡◌, IsTrue, ◌<◌, ◌≤◌, Some, IfOk};
ghost use Rattle.std.specs.Option.{ForSome};
ghost use Rattle.toml.specs.View.{table_view};
ghost use Rattle.settings_file.specs.declared.keys.Section.TheVariants.{Inside, Outside};
ghost use Rattle.settings_file.specs.declared.keys.Name.TheVariants.{Zero, One, Router};
ghost use Rattle.settings_file.specs.Document.{address_at, is_apart, is_section, IsApart};
ghost use Rattle.settings_file.specs.Faults.{FindsBad};
ghost use Rattle.settings_file.specs.Rows.{bad_ports, bad_inside, bad_outside, bad_icmp, bad_fragments, bad_vrrp, network_at};
ghost use Rattle.settings_file.specs.Values.{IsRange, IsLimit, IsAlone, IsRefreshed, IsChoice, IsAhead, IsInterface, IsIcmp, IsFragments, IsVrrp};

use crate::{Key, Name, Section, choices, fields, limits};
use addresses::{Ip, Prefix};
use settings::{
    Choice, FragmentSettings, IcmpSettings, InterfaceSettings, PortRange, VrrpSettings,
};
use toml::Table;

/// The values of `[ports]`.
#[derive(Clone, Copy)]
pub(crate) struct PortValues {
    pub(crate) zero: PortRange,
    pub(crate) one: PortRange,
    pub(crate) host_limit: Option<u16>,
    pub(crate) alone: u16,
    pub(crate) inward_refresh: bool,
    pub(crate) choice: Choice,
    pub(crate) ahead: u16,
    ghost limited: { ForSome host_limit (λ most. 0 < most) },
    ghost alone_late: { alone < 50 → alone ≡ 0 },
    ghost most_ahead: { ahead ≤ 1024 },
}

/// Returns the port ranges of gateway 0 and of gateway 1, the limit of each inside host, where there is one, after how
/// many centiseconds without an answer a gateway makes pairs alone, whether packets inward keep their pairs, how a port
/// is chosen, and how many are asked for ahead.
#[tactic(auto, unfolding(crate::specs::Rows::bad_ports))]
pub(crate) fn ports(document: &Table) -> Result<PortValues, Key>
    ensures zero { IfOk result (λ r. IsRange (table_view document.now) Zero r.zero) }
    ensures one { IfOk result (λ r. IsRange (table_view document.now) One r.one) }
    ensures limit { IfOk result (λ r. IsLimit (table_view document.now) r.host_limit) }
    ensures alone { IfOk result (λ r. IsAlone (table_view document.now) r.alone) }
    ensures refresh { IfOk result
        (λ r. IsRefreshed (table_view document.now) r.inward_refresh) }
    ensures choice { IfOk result (λ r. IsChoice (table_view document.now) r.choice) }
    ensures ahead { IfOk result (λ r. IsAhead (table_view document.now) r.ahead) }
    ensures bad { FindsBad (bad_ports (table_view document.now)) result }
{
    let zero = fields::required_range(document, Section::Ports, Name::Zero)?;
    let one = fields::required_range(document, Section::Ports, Name::One)?;
    let host_limit = limits::host_limit(document)?;
    let alone = limits::alone(document)?;
    let inward_refresh = fields::flag_or(document, Section::Ports, Name::InwardRefresh, true)?;
    let choice = choices::choice(document, Section::Ports, Name::Choice)?;
    let ahead = limits::ahead(document)?;
    Ok(PortValues {
        zero,
        one,
        host_limit,
        alone,
        inward_refresh,
        choice,
        ahead,
    })
}

/// Returns the settings of the inside network.
#[tactic(auto, unfolding(crate::specs::Rows::bad_inside))]
pub(crate) fn inside(document: &Table) -> Result<InterfaceSettings, Key>
    ensures ok { IfOk result (IsInterface (table_view document.now) Inside) }
    ensures bad { FindsBad (bad_inside (table_view document.now)) result }
{
    Ok(InterfaceSettings {
        virtual_ip: fields::required_address(document, Section::Inside, Name::Virtual)?,
        prefix_length: limits::prefix_length(document, Section::Inside)?,
        virtual_router: limits::virtual_router(document, Section::Inside)?,
        wire: limits::port(document, Section::Inside, Name::Wire)?,
        mtu: limits::mtu(document, Section::Inside)?,
    })
}

/// Whether the network of an address and a prefix's length shares no address with another network.
pub(crate) fn is_apart(network: Prefix, address: Ip, length: u8) -> bool
    requires { length ≤ 30 }
    ensures test { result ≡ is_apart (Some (network.address.0, network.length)) (Some address.0)
        (Some length) }
    ensures apart { IsTrue result → IsApart network address.0 length }
{
    let shorter = network.length.min(length);
    !fields::is_in(address, Prefix::new(network.address, shorter))
}

/// Returns the settings of the outside network, which shares no address with the inside one, and the router in it.
#[tactic(auto, unfolding(crate::specs::Rows::bad_outside, crate::specs::Rows::network_at))]
pub(crate) fn outside(document: &Table, inside: Prefix) -> Result<(InterfaceSettings, Ip), Key>
    ensures ok { IfOk result (λ r. IsInterface (table_view document.now) Outside r.0) }
    ensures apart { IfOk result
        (λ r. IsApart inside r.0.virtual_ip.0 r.0.prefix_length) }
    ensures router { IfOk result
        (λ r. address_at (table_view document.now) Outside Router ≡ Some r.1.0) }
    ensures bad { FindsBad (bad_outside (Some (inside.address.0, inside.length))
        (network_at (table_view document.now) Outside) (table_view document.now)) result }
{
    let virtual_ip = fields::required_address(document, Section::Outside, Name::Virtual)?;
    let prefix_length = limits::prefix_length(document, Section::Outside)?;
    if !is_apart(inside, virtual_ip, prefix_length) {
        return Err(Key::new(Section::Outside, Name::Prefix));
    }
    let virtual_router = limits::virtual_router(document, Section::Outside)?;
    let wire = limits::port(document, Section::Outside, Name::Wire)?;
    let network = Prefix::new(virtual_ip, prefix_length);
    let router = fields::required_host(document, Section::Outside, Name::Router, network)?;
    let mtu = limits::mtu(document, Section::Outside)?;
    let outside = InterfaceSettings {
        virtual_ip,
        prefix_length,
        virtual_router,
        wire,
        mtu,
    };
    Ok((outside, router))
}

/// Whether a section is a table or left out.
#[tactic(auto, unfolding(crate::specs::Document::is_section))]
pub(crate) fn is_section(document: &Table, section: Section) -> bool
    ensures { result ≡ is_section (table_view document.now) section }
{
    match fields::entry(document, section.as_str()) {
        Some(value) => value.is_table(),
        None => true,
    }
}

/// Returns which ICMP messages the gateways send.
#[tactic(auto, unfolding(crate::specs::Rows::bad_icmp))]
pub(crate) fn icmp(document: &Table) -> Result<IcmpSettings, Key>
    ensures ok { IfOk result (IsIcmp (table_view document.now)) }
    ensures bad { FindsBad (bad_icmp (table_view document.now)) result }
{
    if !is_section(document, Section::Icmp) {
        return Err(Key::whole(Section::Icmp));
    }
    let echo = fields::flag_or(document, Section::Icmp, Name::Echo, false)?;
    let errors = fields::flag_or(document, Section::Icmp, Name::Errors, false)?;
    Ok(IcmpSettings { echo, errors })
}

/// Returns whether the gateways take packets in fragments.
#[tactic(auto, unfolding(crate::specs::Rows::bad_fragments))]
pub(crate) fn fragments(document: &Table) -> Result<FragmentSettings, Key>
    ensures ok { IfOk result (IsFragments (table_view document.now)) }
    ensures bad { FindsBad (bad_fragments (table_view document.now)) result }
{
    if !is_section(document, Section::Fragments) {
        return Err(Key::whole(Section::Fragments));
    }
    let pass = fields::flag_or(document, Section::Fragments, Name::Pass, false)?;
    Ok(FragmentSettings { pass })
}

/// Returns whose advertisements a gateway takes.
#[tactic(auto, unfolding(crate::specs::Rows::bad_vrrp))]
pub(crate) fn vrrp(document: &Table) -> Result<VrrpSettings, Key>
    ensures ok { IfOk result (IsVrrp (table_view document.now)) }
    ensures bad { FindsBad (bad_vrrp (table_view document.now)) result }
{
    if !is_section(document, Section::Vrrp) {
        return Err(Key::whole(Section::Vrrp));
    }
    let peer_only = fields::flag_or(document, Section::Vrrp, Name::PeerOnly, false)?;
    Ok(VrrpSettings { peer_only })
}
