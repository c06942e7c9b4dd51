//! Reading the records that gateways send to each other.

use crate::Case;
use nat_types::{Granted, Record};

impl Case {
    /// Reads a record, as `put udp 20000 192.168.1.10 5000`, `owner 20000 20001`, `begin`, `grant 20003 20001`. A grant
    /// has the ports of all words that are left.
    pub fn record(&mut self) -> Record {
        match self.word() {
            "begin" => Record::Begin,
            "done" => Record::Done,
            "want" => Record::Want,
            "grant" => self.grant(),
            "put" => Record::Put(self.pair()),
            "install" => Record::Install(self.pair()),
            "tell" => Record::Tell(self.pair()),
            "owner" => self.owner(),
            _ => self.record_of_key(),
        }
    }

    fn owner(&mut self) -> Record {
        let first = self.port();
        let last = self.port();
        Record::Owner { first, last }
    }

    fn grant(&mut self) -> Record {
        let mut granted = Granted::new();
        for _ in 0..self.left() {
            let port = self.port();
            if port.0 == 0 || granted.ports().len() >= 16 {
                self.fault();
            } else {
                granted.push(port);
            }
        }
        Record::Grant(granted)
    }

    fn record_of_key(&mut self) -> Record {
        self.back();
        match self.word() {
            "accept" => Record::Accept(self.key()),
            "refuse" => Record::Refuse(self.key()),
            "ask" => Record::Ask(self.key()),
            "yes" => Record::Yes(self.key()),
            "no" => Record::No(self.key()),
            _ => {
                self.fault();
                Record::Want
            }
        }
    }
}
