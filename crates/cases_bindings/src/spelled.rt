//! Which records and endpoints have a spelling on the link.
ghost use Rattle.std.specs.Prelude.{◌≡◌, true};
ghost use Rattle.link.specs.Grammar.{IsWellFormedGrant, IsWellFormedKey, IsWellFormedPair, IsWellFormedRecord};
ghost use Rattle.spec_binding.specs.WellFormed.{IsWellFormedEndpoint};

use link::limits_law;
use nat_types::{Endpoint, Granted, Key, Pair, Record};

/// Whether the ports of a pair aren't 0.
pub(crate) fn is_spelled_pair(pair: Pair) -> bool
    ensures { result ≡ true → IsWellFormedPair pair }
{
    pair.recall();
    pair.key.port.0 > 0 && pair.endpoint.port.0 > 0
}

fn is_spelled_key(key: Key) -> bool
    ensures { result ≡ true → IsWellFormedKey key }
{
    key.port.0 > 0
}

fn is_spelled_grant(granted: Granted) -> bool
    ensures { result ≡ true → IsWellFormedGrant granted }
{
    limits_law();
    granted.recall();
    true
}

/// Whether a record has a spelling on the link.
pub(crate) fn is_spelled(item: &Record) -> bool
    ensures { result ≡ true → IsWellFormedRecord item.now }
{
    match *item {
        Record::Install(pair) | Record::Put(pair) | Record::Tell(pair) => is_spelled_pair(pair),
        Record::Accept(key)
        | Record::Refuse(key)
        | Record::Ask(key)
        | Record::Yes(key)
        | Record::No(key) => is_spelled_key(key),
        Record::Begin | Record::Done | Record::Want => true,
        Record::Grant(granted) => is_spelled_grant(granted),
        Record::Owner { first, last } => first.0 > 0 && last.0 > 0 && first.0 <= last.0,
    }
}

/// Whether an endpoint's port isn't 0.
pub(crate) fn is_spelled_endpoint(endpoint: Endpoint) -> bool
    ensures { result ≡ true → IsWellFormedEndpoint endpoint }
{
    endpoint.port.0 > 0
}
