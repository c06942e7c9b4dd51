//! ICMP queries that are translated, an Echo and its Reply (RFC 792): 8 bytes, and data.
//!
//! ```text
//!  0      1      2          4            6                 8
//! +------+------+----------+------------+-----------------+------+
//! | type | code | checksum | identifier | sequence number | data |
//! +------+------+----------+------------+-----------------+------+
//! ```
//!
//! The checksum is over the whole message, with no pseudo-header in front. `ping` from the identifier
//! 5000:
//!
//! ```text
//! 08   00   05a6     1388 0007 70696e67
//! Echo code checksum 5000 7    "ping"
//! ```
ghost use Rattle.std.specs.Prelude.{◌≡◌, ◌≤◌, ◌↔◌, length, IsOk, IfOk, IfErr, None, Some, List, ℕ};
ghost use Rattle.std.specs.Result.{result_err};
ghost use Rattle.byteorder.specs.Endian.{big_bytes};
ghost use Rattle.frames.specs.Bytes.{Puts};
ghost use Rattle.icmp.specs.Query.{query_of, query_data, begins_with, code_of, IsQuery, has_no_identifier, query_refusal};
ghost use Rattle.icmp.specs.declared.kinds.Kind.{Kind as KindValue};
ghost use Rattle.icmp.specs.declared.queries.field.TheConstants.{HEADER};

use crate::{IcmpFault, Kind};
use addresses::Port;
use byteorder::{BigEndian, ByteOrder};
use frames::Refused;

/// The places of the message's fields.
pub(crate) mod field {
    use std::ops::Range;

    pub const KIND: usize = 0;

    pub const CODE: usize = 1;

    pub const CHECKSUM: Range<usize> = 2..4;

    pub const IDENTIFIER: Range<usize> = 4..6;

    pub const SEQUENCE_NUMBER: Range<usize> = 6..8;
    /// The bytes before the data.
    pub const HEADER: usize = 8;
}

/// A reading view of a query of one kind, which is the whole payload of its packet.
#[derive(Clone, Copy)]
pub struct QueryView<'a> {
    pub kind: Kind,
    pub bytes: &'a [u8],
    ghost right: { IsQuery kind bytes.now },
}

impl<'a> QueryView<'a> {
    /// Returns a view of a query. Answers NotQuery where the message has no type, another one than the kind's, or a
    /// code other than 0; and else BadQuery where the header is cut off or the identifier is 0. The checksum isn't
    /// tested.
    pub fn parse(kind: Kind, message: &'a [u8]) -> Result<QueryView<'a>, IcmpFault>
        ensures refusal { result_err result ≡ query_refusal kind message.now }
        ensures ok { IsOk result ↔ IsQuery kind message.now }
        ensures kind { IfOk result (λ v. v.kind ≡ kind) }
        ensures bytes { IfOk result (λ v. v.bytes.now ≡ message.now) }
    {
        if !is_begun(kind, message) {
            return Err(IcmpFault::NotQuery);
        }
        if no_identifier(message) {
            return Err(IcmpFault::BadQuery);
        }
        Ok(QueryView {
            kind,
            bytes: message,
        })
    }

    pub fn checksum(&self) -> u16
        ensures { result ≡ (query_of self.now.bytes.now).checksum }
    {
        checksum(self.bytes)
    }

    /// Returns the identifier, which a translation treats as a port, and which is never 0.
    pub fn identifier(&self) -> Port
        ensures { result.0 ≡ (query_of self.now.bytes.now).identifier }
    {
        identifier(self.bytes)
    }

    pub fn sequence_number(&self) -> u16
        ensures { result ≡ (query_of self.now.bytes.now).sequence_number }
    {
        sequence_number(self.bytes)
    }

    pub fn data(&self) -> &'a [u8]
        ensures { result.now ≡ query_data self.now.bytes.now }
    {
        &self.bytes[field::HEADER..]
    }
}

pub(crate) fn checksum(bytes: &[u8]) -> u16
    requires { 8 ≤ length bytes.now }
    ensures { result ≡ (query_of bytes.now).checksum }
{
    BigEndian::read_u16(&bytes[field::CHECKSUM])
}

pub(crate) fn identifier(bytes: &[u8]) -> Port
    requires { 8 ≤ length bytes.now }
    ensures { result.0 ≡ (query_of bytes.now).identifier }
{
    Port(BigEndian::read_u16(&bytes[field::IDENTIFIER]))
}

pub(crate) fn sequence_number(bytes: &[u8]) -> u16
    requires { 8 ≤ length bytes.now }
    ensures { result ≡ (query_of bytes.now).sequence_number }
{
    BigEndian::read_u16(&bytes[field::SEQUENCE_NUMBER])
}

/// Returns the code, or 0 where the message ends before it.
fn code(message: &[u8]) -> u8
    ensures { result ≡ code_of message.now }
{
    match message.get(field::CODE) {
        Some(code) => *code,
        None => 0,
    }
}

/// Whether a message begins as one of this kind does. An empty one doesn't, and the code counts only where it is there.
pub(crate) fn is_begun(kind: Kind, message: &[u8]) -> bool
    ensures { result ≡ begins_with kind message.now }
{
    match message.get(field::KIND) {
        Some(number) => *number == kind.number() && code(message) == 0,
        None => false,
    }
}

fn no_identifier(message: &[u8]) -> bool
    ensures { result ≡ has_no_identifier message.now }
{
    if message.len() < field::HEADER {
        return true;
    }
    identifier(message).0 == 0
}

/// The messages that [`QueryView::parse`] accepts are exactly those of the grammar `IsQuery`. The number that the
/// definitions take from the code is the RFC's.
pub fn query_grammar()
    ensures grammar { (kind : KindValue) (message : List ℕ)
        → (query_refusal kind message ≡ None) ↔ IsQuery kind message }
    ensures header { HEADER ≡ 8 }
{}

/// A writing view of the beginning of a query in borrowed bytes.
#[derive(Drop)]
pub struct QueryViewMut<'a> {
    pub bytes: &'a mut [u8],
    ghost long: { 8 ≤ length bytes.now },
}

impl<'a> QueryViewMut<'a> {
    /// Returns a writing view of a query, or refuses the message as [`QueryView::parse`] does and gives it back as it
    /// was. A caller that needs to know the bytes after the loan tests them with [`QueryView::parse`] and calls
    /// [`QueryViewMut::new`].
    pub fn parse(
        kind: Kind,
        message: &'a mut [u8],
    ) -> Result<QueryViewMut<'a>, Refused<'a, IcmpFault>>
        ensures ok { IsOk result ↔ IsQuery kind message.old }
        ensures fault { IfErr result (λ r. Some r.fault ≡ query_refusal kind message.old) }
        ensures bytes { IfOk result (λ v. v.bytes.now ≡ message.old) }
        ensures same_reference { IfOk result
            (λ v. v.bytes.ghost_name ≡ message.entry.ghost_name) }
        ensures err { IfErr result (λ r. r.bytes.now ≡ message.old) }
        ensures err_reference { IfErr result
            (λ r. r.bytes.ghost_name ≡ message.entry.ghost_name) }
    {
        match QueryView::parse(kind, message) {
            Ok(_) => Ok(QueryViewMut { bytes: message }),
            Err(fault) => Err(Refused {
                fault,
                bytes: message,
            }),
        }
    }

    /// Returns a writing view of bytes that begin with type, code, checksum, identifier and sequence number, without a
    /// test.
    pub fn new(bytes: &'a mut [u8]) -> QueryViewMut<'a>
        requires { 8 ≤ length bytes.old }
        ensures bytes { result.bytes.now ≡ bytes.old }
        ensures same_reference { result.bytes.ghost_name ≡ bytes.entry.ghost_name }
    {
        QueryViewMut { bytes }
    }

    pub fn checksum(&self) -> u16
        ensures { result ≡ (query_of self.now.bytes.now).checksum }
    {
        checksum(self.bytes)
    }

    /// Returns the identifier, which a translation treats as a port.
    pub fn identifier(&self) -> Port
        ensures { result.0 ≡ (query_of self.now.bytes.now).identifier }
    {
        identifier(self.bytes)
    }

    pub fn sequence_number(&self) -> u16
        ensures { result ≡ (query_of self.now.bytes.now).sequence_number }
    {
        sequence_number(self.bytes)
    }

    pub fn set_checksum(&mut self, checksum: u16)
        ensures written { Puts 2 (big_bytes 2 checksum) self.old.bytes.now self.new.bytes.now }
        ensures query { query_of self.new.bytes.now
            ≡ record (query_of self.old.bytes.now) { checksum = checksum } }
        ensures same_reference { self.new.bytes.ghost_name ≡ self.old.bytes.ghost_name }
    {
        BigEndian::write_u16(&mut self.bytes[field::CHECKSUM], checksum);
    }

    pub fn set_identifier(&mut self, identifier: Port)
        ensures written { Puts 4 (big_bytes 2 identifier.0)
            self.old.bytes.now self.new.bytes.now }
        ensures query { query_of self.new.bytes.now
            ≡ record (query_of self.old.bytes.now) { identifier = identifier.0 } }
        ensures same_reference { self.new.bytes.ghost_name ≡ self.old.bytes.ghost_name }
    {
        BigEndian::write_u16(&mut self.bytes[field::IDENTIFIER], identifier.0);
    }
}
