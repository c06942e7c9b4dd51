//! The settings of one gateway in a document.
ghost use Rattle.std.specs.Prelude.{◌≡◌, Some, IfOk};
ghost use Rattle.toml.specs.View.{table_view};
ghost use Rattle.addresses.specs.Address.{IsIn};
ghost use Rattle.settings_file.specs.Faults.{FindsBadValue};
ghost use Rattle.settings_file.specs.Rows.{bad_gateway};
ghost use Rattle.settings_file.specs.Values.{IsGateway};

use crate::{Name, Section, SettingFault, fields, limits};
use addresses::Prefix;
use settings::GatewaySettings;
use std::alloc::Global;
use toml::Table;

/// Returns the settings of a gateway, whose addresses lie in the two networks.
///
/// # Errors
///
/// `BadValue` of the first key whose value is bad; `NoMemory`.
#[tactic(auto, unfolding(crate::specs::Rows::bad_gateway))]
pub(crate) fn gateway(
    alloc: Global,
    document: &Table,
    section: Section,
    inside: Prefix,
    outside: Prefix,
) -> Result<GatewaySettings, SettingFault>
    ensures ok { IfOk result (IsGateway (table_view document.now) section) }
    ensures inside_lies { IfOk result
        (λ g. IsIn g.inside_ip.0 inside.address.0 inside.length) }
    ensures outside_lies { IfOk result
        (λ g. IsIn g.outside_ip.0 outside.address.0 outside.length) }
    ensures bad { FindsBadValue (bad_gateway (Some (inside.address.0, inside.length))
        (Some (outside.address.0, outside.length)) (table_view document.now) section) result }
{
    let inside_ip = fields::required_host(document, section, Name::InsideIp, inside)?;
    let inside_mac = fields::required_mac(document, section, Name::InsideMac)?;
    let outside_ip = fields::required_host(document, section, Name::OutsideIp, outside)?;
    let outside_mac = fields::required_mac(document, section, Name::OutsideMac)?;
    let priority = limits::priority(document, section)?;
    let interval = limits::interval(document, section)?;
    let preempt = fields::flag_or(document, section, Name::Preempt, true)?;
    let boot_file = fields::required_text(document, section, Name::BootFile)?;
    let link = limits::port(document, section, Name::Link)?;
    let inside_port = limits::port(document, section, Name::InsidePort)?;
    let outside_port = limits::port(document, section, Name::OutsidePort)?;
    Ok(GatewaySettings {
        inside_ip,
        inside_mac,
        outside_ip,
        outside_mac,
        priority,
        interval,
        preempt,
        boot_file: String::from_str(alloc, boot_file)?,
        link,
        inside_port,
        outside_port,
    })
}
