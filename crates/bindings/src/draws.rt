//! The numbers by which an endpoint's port is drawn.
ghost use Rattle.std.specs.Prelude.{◌≡◌, ◌+◌, ◌≤◌};
ghost use Rattle.bindings.specs.Numbers.{hash_of, number_at, numbers_of};

use nat_types::Endpoint;
use sha2::{Digest, Sha256};

/// Returns the SHA-256 of a key and an endpoint: its protocol, its inside address and its inside port.
fn hash(key: &[u8; 32], endpoint: Endpoint) -> [u8; 32]
    ensures { result ≡ hash_of key.now endpoint }
{
    let mut hasher = Sha256::new();
    hasher.update(key);
    hasher.update([endpoint.protocol.number()]);
    hasher.update(endpoint.address.0.to_be_bytes());
    hasher.update(endpoint.port.0.to_be_bytes());
    hasher.finalize()
}

/// Returns the four bytes from a place on as a number.
fn number_at(bytes: &[u8; 32], place: usize) -> u32
    requires { place + 4 ≤ 32 }
    ensures { result ≡ number_at bytes.now place }
{
    u32::from_be_bytes([
        bytes[place],
        bytes[place + 1],
        bytes[place + 2],
        bytes[place + 3],
    ])
}

/// Returns the two numbers by which an endpoint's port is drawn: the first and the second four bytes of the SHA-256 over
/// the gateway's secret key and the endpoint's protocol, inside address and inside port (RFC 6056, section 3.3.3).
pub fn numbers(key: &[u8; 32], endpoint: Endpoint) -> (u32, u32)
    ensures { result ≡ numbers_of key.now endpoint }
{
    let hash = hash(key, endpoint);
    (number_at(&hash, 0), number_at(&hash, 4))
}
