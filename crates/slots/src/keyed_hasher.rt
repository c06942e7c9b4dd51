//! A hasher that takes one multiplication for a packet, and whose hashes collide rarely, whoever picks the numbers
//! without having seen the keys.
ghost use Rattle.std.specs.Prelude.{◌≡◌, ℕ, ◌%◌, ◌*◌, ◌+◌, IfErr, IfOk};
ghost use Rattle.slots.specs.Draws.{AreDrawn, LacksKeys};
ghost use Rattle.slots.specs.KeyedHashing.{finished, fixed_keys, new_hasher, written, written_from};
ghost use Rattle.slots.specs.KeyedHashing.{AreCollisionsRare};

use crate::draws::Draws;
use std::hash::Hasher;
use std::io;

/// The keys of a hasher: a factor and a summand.
#[derive(Clone, Copy)]
pub struct Keys {
    factor: u128,
    summand: u128,
}

impl Keys {
    /// Returns fixed keys: the digits of pi after the point, in base 16.
    pub(crate) fn fixed() -> Keys
        ensures { result ≡ fixed_keys }
    {
        Keys {
            factor: 0x243f_6a88_85a3_08d3_1319_8a2e_0370_7344,
            summand: 0xa409_3822_299f_31d0_082e_fa98_ec4e_6c89,
        }
    }

    /// Draws keys: the factor, then the summand. An Err is that of the draw that failed.
    pub(crate) fn drawn<D: Draws>(draws: &mut D) -> io::Result<Keys>
        ensures keys { IfOk result (λ keys. AreDrawn D.drew draws.old keys draws.new) }
        ensures refused { IfErr result
            (λ why. LacksKeys D.drew D.refused draws.old why draws.new) }
    {
        let factor = draws.draw()?;
        let summand = draws.draw()?;
        Ok(Keys { factor, summand })
    }
}

/// A hasher that takes what is written to it as one number, of which the last 64 bits count. The hash is the upper 32
/// of the 128 bits of factor times number plus summand (multiply-shift hashing). A map uses no more than 32.
#[derive(Clone, Copy)]
pub struct KeyedHasher {
    keys: Keys,
    number: u64,
}

impl KeyedHasher {
    #[inline(always)]
    pub(crate) fn new(keys: Keys) -> KeyedHasher
        ensures { result ≡ new_hasher keys }
    {
        KeyedHasher { keys, number: 0 }
    }
}

impl Hasher for KeyedHasher {
    ghost write = { written };

    ghost finish = { finished };

    #[inline(always)]
    fn finish(&self) -> u64 {
        let product = self.keys.factor.wrapping_mul(u128::from(self.number));
        (product.wrapping_add(self.keys.summand) >> 96) as u64
    }

    #[inline(always)]
    fn write(&mut self, bytes: &[u8]) {
        let mut number = self.number;
        for byte in bytes {
            number = number.wrapping_mul(256).wrapping_add(u64::from(*byte));
        }
        self.number = number;
    }
}

/// States that collisions are rare. Of a power of two of buckets, two numbers x and y fall into one under at most one
/// factor of buckets / 2 - 1, whatever the summand, and whoever picked the numbers without having seen the keys. In a
/// stretch of factors in which factor times y - x grows by 2^96 for each bucket but two, the factors under which x and
/// y fall together are within a growth of 2^97.
pub fn collisions_are_rare()
    ensures { AreCollisionsRare }
{}
