//! The findings on a box's interfaces and its address on the link.

use crate::CheckOptions;
use crate::findings::Findings;
use addresses::Ip;
use faults::{Fault, read_text};
use nat_types::Side;
use settings::Settings;
use std::alloc::AllocError;
use std::fs::Files;
use std::net::Ipv4Addr;

/// The least MTU with which an interface takes each frame of a box: 1,514 bytes, less the 14 of the Ethernet header.
const MIN_MTU: u32 = 1500;

/// Reports what is wrong with the interfaces and the address of the options.
pub(crate) fn report_places<R: Files + AllocGlobal>(
    rt: &R,
    settings: &Settings,
    options: &CheckOptions<'_>,
    findings: &mut Findings,
) -> Result<(), AllocError> {
    report_interface(rt, Side::Inside, options.inside, findings)?;
    report_interface(rt, Side::Outside, options.outside, findings)?;
    match options.link {
        Some(text) => report_link(settings, text, findings),
        None => Ok(()),
    }
}

/// Reports what is wrong with the interface of a side, where one is named.
fn report_interface<R: Files + AllocGlobal>(
    rt: &R,
    side: Side,
    name: Option<&str>,
    findings: &mut Findings,
) -> Result<(), AllocError> {
    let Some(name) = name else {
        return Ok(());
    };
    match mtu_of(rt, name)? {
        Some(mtu) if mtu >= MIN_MTU => Ok(()),
        Some(mtu) => findings.warning(format_args!(
            "{side} {name}: its MTU is {mtu}, and frames need 1500"
        )),
        None => findings.warning(format_args!("{side} {name}: no such interface")),
    }
}

/// Returns the MTU of the interface of this name, or None where there is none.
fn mtu_of<R: Files + AllocGlobal>(rt: &R, name: &str) -> Result<Option<u32>, AllocError> {
    let path = format!(in rt.alloc(); "/sys/class/net/{name}/mtu")?;
    match read_text(rt, path.as_str()) {
        Ok(text) => Ok(text.as_str().trim().parse().ok()),
        Err(Fault::NoMemory) => Err(AllocError),
        Err(_) => Ok(None),
    }
}

/// Reports what is wrong with a text as the box's address on the link.
fn report_link(settings: &Settings, text: &str, findings: &mut Findings) -> Result<(), AllocError> {
    let Ok(address) = text.parse::<Ipv4Addr>() else {
        return findings.fault(format_args!("link {text}: no IPv4 address"));
    };
    for side in [Side::Inside, Side::Outside] {
        if settings
            .interface(side)
            .network()
            .contains(Ip(address.to_bits()))
        {
            findings.warning(format_args!(
                "link {text}: it lies in the network of the {side}, whose cable it goes down with"
            ))?;
        }
    }
    Ok(())
}
