//! The values of a document, from which settings are made.
ghost use Rattle.std.specs.Prelude.{◌≡◌, ◌<◌, ◌≤◌, vec_len};
ghost use Rattle.std.specs.Option.{ForSome};
ghost use Rattle.settings.specs.Placed.{AreApart, LiesIn};

use crate::gateways::gateway;
use crate::ids::{overlap, same_ids};
use crate::neighbours::neighbours;
use crate::{Section, SettingFault, sections};
use addresses::Ip;
use settings::{
    Choice, FragmentSettings, GatewaySettings, IcmpSettings, InterfaceSettings, Neighbour,
    PortRange, PortRanges, Settings, VrrpSettings,
};
use std::alloc::Global;
use toml::Table;

/// The values of a document. The two gateways may still share ports and addresses.
#[derive(Drop)]
pub(crate) struct Values {
    pub(crate) zero_ports: PortRange,
    pub(crate) one_ports: PortRange,
    pub(crate) host_limit: Option<u16>,
    pub(crate) alone: u16,
    pub(crate) inward_refresh: bool,
    pub(crate) choice: Choice,
    pub(crate) ahead: u16,
    pub(crate) inside: InterfaceSettings,
    pub(crate) outside: InterfaceSettings,
    pub(crate) router: Ip,
    pub(crate) icmp: IcmpSettings,
    pub(crate) fragments: FragmentSettings,
    pub(crate) vrrp: VrrpSettings,
    pub(crate) zero: GatewaySettings,
    pub(crate) one: GatewaySettings,
    pub(crate) neighbours: Vec<Neighbour>,
    ghost limited: { ForSome host_limit (λ most. 0 < most) },
    ghost alone_late: { alone < 50 → alone ≡ 0 },
    ghost most_ahead: { ahead ≤ 1024 },
    ghost few_neighbours: { vec_len neighbours ≤ 64 },
    ghost apart: { AreApart inside outside },
    ghost zero_inside: { LiesIn zero.inside_ip.0 inside },
    ghost zero_outside: { LiesIn zero.outside_ip.0 outside },
    ghost one_inside: { LiesIn one.inside_ip.0 inside },
    ghost one_outside: { LiesIn one.outside_ip.0 outside },
}

impl Values {
    ghost use Rattle.std.specs.Prelude.{IfErr, IfOk};
    ghost use Rattle.toml.specs.View.{table_view};
    ghost use Rattle.settings_file.specs.Assembled.{AreValues, IsAssembled, TellsValues};
    ghost use Rattle.settings_file.specs.Faults.{FindsBadValue};
    ghost use Rattle.settings_file.specs.Settings.{first_bad_value};

    /// Reads the values in the order of the text.
    ///
    /// # Errors
    ///
    /// `BadValue` of the first key whose value is bad; `NoMemory`.
    #[tactic(auto, unfolding(crate::specs::Settings::first_bad_value, crate::specs::Rows::network_at))]
    pub(crate) fn read(alloc: Global, document: &Table) -> Result<Values, SettingFault>
        ensures ok { IfOk result (AreValues (table_view document.now)) }
        ensures bad { FindsBadValue (first_bad_value (table_view document.now)) result }
    {
        let ports = sections::ports(document)?;
        let inside = sections::inside(document)?;
        let (outside, router) = sections::outside(document, inside.network())?;
        let icmp = sections::icmp(document)?;
        let fragments = sections::fragments(document)?;
        let vrrp = sections::vrrp(document)?;
        let inner = inside.network();
        let outer = outside.network();
        let zero = gateway(alloc, document, Section::GatewayZero, inner, outer)?;
        let one = gateway(alloc, document, Section::GatewayOne, inner, outer)?;
        let neighbours = neighbours(alloc, document, inner, outer)?;
        Ok(Values {
            zero_ports: ports.zero,
            one_ports: ports.one,
            host_limit: ports.host_limit,
            alone: ports.alone,
            inward_refresh: ports.inward_refresh,
            choice: ports.choice,
            ahead: ports.ahead,
            inside,
            outside,
            router,
            icmp,
            fragments,
            vrrp,
            zero,
            one,
            neighbours,
        })
    }

    /// Returns the settings of these values.
    ///
    /// # Errors
    ///
    /// `RangesOverlap` where the gateways' port ranges share a port; `SameIds` where the gateways share an address, a
    /// MAC or a loopback port, or one has a virtual address.
    pub(crate) fn assemble(self) -> Result<Settings, SettingFault>
        ensures ok { IfOk result (IsAssembled self) }
        ensures err { IfErr result (TellsValues self) }
    {
        if overlap(self.zero_ports, self.one_ports) {
            return Err(SettingFault::RangesOverlap);
        }
        let inside = self.inside.virtual_ip;
        let outside = self.outside.virtual_ip;
        if same_ids(&self.zero, &self.one, inside, outside) {
            return Err(SettingFault::SameIds);
        }
        let ports = PortRanges {
            zero: self.zero_ports,
            one: self.one_ports,
            host_limit: self.host_limit,
        };
        Ok(Settings {
            ports,
            alone: self.alone,
            inward_refresh: self.inward_refresh,
            choice: self.choice,
            ahead: self.ahead,
            inside: self.inside,
            outside: self.outside,
            router: self.router,
            icmp: self.icmp,
            fragments: self.fragments,
            vrrp: self.vrrp,
            zero: self.zero,
            one: self.one,
            neighbours: self.neighbours,
        })
    }
}
