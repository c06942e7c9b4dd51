//! The settings and the gateway that the lines of a file set up.

use crate::any_gateway::AnyGateway;
use crate::test_gateway::TestGateway;
use anyhow::Result;
use cases_words::{Actor, Case};
use settings::Settings;
use std::{fs, mem};

/// The settings and the gateway of the lines so far. They are dropped by `end`.
pub(crate) struct Setup<G> {
    rt: HostRuntime,
    settings: Option<Settings>,
    gateway: Option<TestGateway<G>>,
}

impl<G: AnyGateway> Setup<G> {
    pub(crate) fn new(rt: HostRuntime) -> Setup<G> {
        Setup {
            rt,
            settings: None,
            gateway: None,
        }
    }

    pub(crate) fn end(self) {
        let Setup {
            rt: _,
            settings,
            gateway,
        } = self;
        drop(settings);
        end_if_there(gateway);
    }

    fn set_up(&mut self, case: &mut Case) {
        match read_settings(&self.rt, case.word()) {
            Ok(settings) => self.settings = Some(settings),
            Err(_) => case.fault(),
        }
    }

    /// Starts a gateway, by the settings of the last line `settings`, in place of the one before.
    fn start(&mut self, case: &mut Case) {
        match self.settings.as_ref() {
            Some(settings) => {
                let gateway = TestGateway::new(settings, case);
                end_if_there(mem::replace(&mut self.gateway, gateway));
            }
            None => case.fault(),
        }
    }
}

impl<G: AnyGateway> Actor for Setup<G> {
    /// Does what a line says.
    ///
    /// - `settings FILE`: the settings of the gateways that follow
    /// - `gateway I boot N`, `gateway 0 boot N founded`: a gateway starts, in place of the one before
    /// - all else happens to the gateway (`TestGateway::happen`)
    fn act(&mut self, case: &mut Case) {
        case.title("", "\n");
        match case.word() {
            "settings" => self.set_up(case),
            "gateway" => self.start(case),
            _ => match self.gateway.as_mut() {
                Some(gateway) => gateway.happen(case),
                None => case.fault(),
            },
        }
    }
}

/// Drops a gateway, if there is one.
fn end_if_there<G: AnyGateway>(gateway: Option<TestGateway<G>>) {
    if let Some(gateway) = gateway {
        gateway.end();
    }
}

/// Returns the settings of a file.
pub(crate) fn read_settings(rt: &HostRuntime, name: &str) -> Result<Settings> {
    let text = fs::read_to_string(rt, name)?;
    Ok(settings_file::read(rt.alloc(), text.as_str())?)
}
