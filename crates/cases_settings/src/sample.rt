//! The text of the built-in settings.

use addresses::Ip;
use cases_words::Case;
use settings::{
    Choice, FragmentSettings, GatewaySettings, IcmpSettings, InterfaceSettings, Neighbour,
    PortRange, Settings, VrrpSettings,
};

/// Prints the built-in settings as a settings file spells them.
pub(crate) fn print(case: &mut Case, settings: &Settings) {
    case.put("[ports]\n");
    range(case, "zero", settings.ports.zero);
    range(case, "one", settings.ports.one);
    case.say("alone = ", settings.alone);
    case.say("\ninward_refresh = ", settings.inward_refresh);
    case.say("\nchoice = ", word(settings.choice));
    case.say("\nahead = ", settings.ahead);
    case.end();
    interface(case, "\n[inside", &settings.inside, None);
    interface(case, "\n[outside", &settings.outside, Some(settings.router));
    icmp(case, settings.icmp);
    fragments(case, settings.fragments);
    vrrp(case, settings.vrrp);
    gateway(case, 0, &settings.zero);
    gateway(case, 1, &settings.one);
    for host in &settings.neighbours {
        neighbour(case, host);
    }
}

fn range(case: &mut Case, name: &str, range: PortRange) {
    case.put(name);
    case.say(" = [", range.lowest.0);
    case.say(", ", range.highest.0);
    case.put("]\n");
}

/// Returns the word for a choice, in quotes.
fn word(choice: Choice) -> &'static str {
    match choice {
        Choice::Lowest => "\"lowest\"",
        Choice::Drawn => "\"drawn\"",
    }
}

fn interface(case: &mut Case, text: &str, it: &InterfaceSettings, router: Option<Ip>) {
    case.put(text);
    case.say("]\nvirtual = \"", it.virtual_ip);
    case.say("\"\nprefix = ", it.prefix_length);
    case.say("\nvrid = ", it.virtual_router);
    port(case, "\nwire = ", it.wire);
    if let Some(router) = router {
        case.say("\nrouter = \"", router);
        case.put("\"");
    }
    case.say("\nmtu = ", it.mtu);
    case.end();
}

fn icmp(case: &mut Case, it: IcmpSettings) {
    case.say("\n[icmp]\necho = ", it.echo);
    case.say("\nerrors = ", it.errors);
    case.end();
}

fn fragments(case: &mut Case, it: FragmentSettings) {
    case.say("\n[fragments]\npass = ", it.pass);
    case.end();
}

fn vrrp(case: &mut Case, it: VrrpSettings) {
    case.say("\n[vrrp]\npeer_only = ", it.peer_only);
    case.end();
}

fn gateway(case: &mut Case, number: u8, it: &GatewaySettings) {
    case.say("\n[gateway_", number);
    case.say("]\ninside_ip = \"", it.inside_ip);
    case.say("\"\ninside_mac = \"", it.inside_mac);
    case.say("\"\noutside_ip = \"", it.outside_ip);
    case.say("\"\noutside_mac = \"", it.outside_mac);
    case.say("\"\npriority = ", it.priority);
    case.say("\ninterval = ", it.interval);
    case.say("\npreempt = ", it.preempt);
    places(case, it);
}

fn places(case: &mut Case, it: &GatewaySettings) {
    case.say("\nboot_file = \"", it.boot_file.as_str());
    case.put("\"");
    port(case, "\nlink = ", it.link);
    port(case, "\ninside_port = ", it.inside_port);
    port(case, "\noutside_port = ", it.outside_port);
    case.end();
}

/// Prints a port behind a text, or nothing where there is none.
fn port(case: &mut Case, text: &str, it: Option<u16>) {
    if let Some(port) = it {
        case.say(text, port);
    }
}

fn neighbour(case: &mut Case, host: &Neighbour) {
    case.say("\n[[neighbour]]\nside = \"", host.side);
    case.say("\"\nip = \"", host.ip);
    case.say("\"\nmac = \"", host.mac);
    case.put("\"\n");
}
