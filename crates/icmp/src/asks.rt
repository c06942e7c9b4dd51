//! Echos that are asked of the box itself (RFC 792; RFC 1122, section 3.2.2.6). An Echo's layout is in
//! `src/queries.rt`; here its checksum counts, and its identifier may be 0.
ghost use Rattle.std.specs.Prelude.{◌≡◌, ◌↔◌, IsOk, IfOk, None, List, ℕ};
ghost use Rattle.std.specs.Result.{result_err};
ghost use Rattle.icmp.specs.Ask.{IsAsk, has_no_ask, ask_refusal};
ghost use Rattle.icmp.specs.Query.{query_of, query_data};

use crate::queries::{checksum, field, identifier, is_begun, sequence_number};
use crate::{IcmpFault, Kind};
use addresses::Port;
use sums::is_right;

/// A reading view of an Echo to the box, which is the whole payload of its packet.
#[derive(Clone, Copy)]
pub struct AskView<'a> {
    pub bytes: &'a [u8],
    ghost right: { IsAsk bytes.now },
}

impl<'a> AskView<'a> {
    /// Returns a view of an Echo, or NotAsked where its type, its code, its length or its checksum is wrong.
    pub fn parse(message: &'a [u8]) -> Result<AskView<'a>, IcmpFault>
        ensures refusal { result_err result ≡ ask_refusal message.now }
        ensures ok { IsOk result ↔ IsAsk message.now }
        ensures bytes { IfOk result (λ v. v.bytes.now ≡ message.now) }
    {
        if no_ask(message) {
            return Err(IcmpFault::NotAsked);
        }
        Ok(AskView { bytes: message })
    }

    pub fn checksum(&self) -> u16
        ensures { result ≡ (query_of self.now.bytes.now).checksum }
    {
        checksum(self.bytes)
    }

    /// Returns the identifier, which may be 0.
    pub fn identifier(&self) -> Port
        ensures { result.0 ≡ (query_of self.now.bytes.now).identifier }
    {
        identifier(self.bytes)
    }

    pub fn sequence_number(&self) -> u16
        ensures { result ≡ (query_of self.now.bytes.now).sequence_number }
    {
        sequence_number(self.bytes)
    }

    pub fn data(&self) -> &'a [u8]
        ensures { result.now ≡ query_data self.now.bytes.now }
    {
        &self.bytes[field::HEADER..]
    }
}

fn no_ask(message: &[u8]) -> bool
    ensures { result ≡ has_no_ask message.now }
{
    message.len() < field::HEADER || !is_begun(Kind::Echo, message) || !is_right(message)
}

/// The messages that [`AskView::parse`] accepts are exactly those of the grammar `IsAsk`.
pub fn ask_grammar()
    ensures { (message : List ℕ) → (ask_refusal message ≡ None) ↔ IsAsk message }
{}
