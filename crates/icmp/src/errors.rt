//! ICMP errors (RFC 792): 8 bytes, and the packet that the error is about, as much of it as was
//! sent.
//!
//! ```text
//!  0      1      2          4           8
//! +------+------+----------+-----------+---------------+
//! | type | code | checksum | parameter | packet inside |
//! +------+------+----------+-----------+---------------+
//! ```
//!
//! The checksum is over the whole message. Bytes 4 to 7 are carried unchanged, whatever the type
//! makes of them: a path's MTU, or the place of the fault. An unreachable port, about `hi` from
//! 192.0.2.1 port 20000 to 198.51.100.7 port 53:
//!
//! ```text
//! 03          03   e954     00000000 4500001e..
//! unreachable port checksum --       the packet inside
//! ```
ghost use Rattle.std.specs.Prelude.{◌≡◌, ◌≤◌, ◌↔◌, length, IsOk, IfOk, IfErr, None, Some, List, ℕ};
ghost use Rattle.std.specs.Result.{result_err};
ghost use Rattle.byteorder.specs.Endian.{big_bytes};
ghost use Rattle.frames.specs.Bytes.{Puts};
ghost use Rattle.icmp.specs.Error.{message_of, inside_of, IsError, is_error, has_error_kind, has_no_error, error_refusal};
ghost use Rattle.icmp.specs.declared.errors.TheConstants.{PROTOCOL as ICMP, UNREACHABLE, TIME_EXCEEDED, PARAMETER_PROBLEM};
ghost use Rattle.icmp.specs.declared.errors.field.TheConstants.{HEADER};

use crate::quoted::no_packet;
use crate::{IcmpFault, QuotedView};
use byteorder::{BigEndian, ByteOrder};
use frames::Refused;
use sums::is_right;

/// The number of ICMP in an IPv4 header.
pub const PROTOCOL: u8 = 1;

/// The places of the message's fields.
mod field {
    use std::ops::Range;

    pub const KIND: usize = 0;

    pub const CODE: usize = 1;

    pub const CHECKSUM: Range<usize> = 2..4;

    pub const PARAMETER: Range<usize> = 4..8;
    /// The bytes before the packet inside.
    pub const HEADER: usize = 8;
}

/// The type Destination Unreachable; Fragmentation Needed is one of its codes.
pub(crate) const UNREACHABLE: u8 = 3;

pub(crate) const TIME_EXCEEDED: u8 = 11;

const PARAMETER_PROBLEM: u8 = 12;

/// A reading view of an ICMP error, which is the whole payload of its packet.
#[derive(Clone, Copy)]
pub struct ErrorView<'a> {
    pub bytes: &'a [u8],
    ghost right: { IsError bytes.now },
}

impl<'a> ErrorView<'a> {
    /// Returns a view of an error. Answers NotError where the message has no type, or another one
    /// than an error's, and else BadError where anything is wrong with the message or with the
    /// packet inside.
    pub fn parse(message: &'a [u8]) -> Result<ErrorView<'a>, IcmpFault>
        ensures refusal { result_err result ≡ error_refusal message.now }
        ensures ok { IsOk result ↔ IsError message.now }
        ensures bytes { IfOk result (λ v. v.bytes.now ≡ message.now) }
    {
        if !is_error_message(message) {
            return Err(IcmpFault::NotError);
        }
        if no_error(message) {
            return Err(IcmpFault::BadError);
        }
        Ok(ErrorView { bytes: message })
    }

    /// Returns the type: 3, 11 or 12.
    pub fn kind(&self) -> u8
        ensures { result ≡ (message_of self.now.bytes.now).kind }
    {
        kind(self.bytes)
    }

    pub fn code(&self) -> u8
        ensures { result ≡ (message_of self.now.bytes.now).code }
    {
        code(self.bytes)
    }

    pub fn checksum(&self) -> u16
        ensures { result ≡ (message_of self.now.bytes.now).checksum }
    {
        checksum(self.bytes)
    }

    /// Returns the 4 bytes that are carried unchanged, as one number.
    pub fn parameter(&self) -> u32
        ensures { result ≡ (message_of self.now.bytes.now).parameter }
    {
        parameter(self.bytes)
    }

    /// Returns the packet that the error is about.
    pub fn inside(&self) -> QuotedView<'a>
        ensures { result.bytes.now ≡ inside_of self.now.bytes.now }
    {
        QuotedView {
            bytes: &self.bytes[field::HEADER..],
        }
    }
}

fn kind(bytes: &[u8]) -> u8
    requires { 8 ≤ length bytes.now }
    ensures { result ≡ (message_of bytes.now).kind }
{
    bytes[field::KIND]
}

fn code(bytes: &[u8]) -> u8
    requires { 8 ≤ length bytes.now }
    ensures { result ≡ (message_of bytes.now).code }
{
    bytes[field::CODE]
}

fn checksum(bytes: &[u8]) -> u16
    requires { 8 ≤ length bytes.now }
    ensures { result ≡ (message_of bytes.now).checksum }
{
    BigEndian::read_u16(&bytes[field::CHECKSUM])
}

fn parameter(bytes: &[u8]) -> u32
    requires { 8 ≤ length bytes.now }
    ensures { result ≡ (message_of bytes.now).parameter }
{
    BigEndian::read_u32(&bytes[field::PARAMETER])
}

/// Whether a type is an error's.
fn is_error_type(kind: u8) -> bool
    ensures { result ≡ is_error kind }
{
    kind == UNREACHABLE || kind == TIME_EXCEEDED || kind == PARAMETER_PROBLEM
}

/// Whether a message begins with an error's type. An empty one doesn't.
pub fn is_error_message(message: &[u8]) -> bool
    ensures { result ≡ has_error_kind message.now }
{
    match message.get(field::KIND) {
        Some(kind) => is_error_type(*kind),
        None => false,
    }
}

fn no_error(message: &[u8]) -> bool
    ensures { result ≡ has_no_error message.now }
{
    if message.len() < field::HEADER {
        return true;
    }
    !is_right(message) || no_packet(&message[field::HEADER..])
}

/// The messages that [`ErrorView::parse`] accepts are exactly those of the grammar `IsError`. The
/// numbers that the definitions take from the code are the RFC's.
pub fn error_grammar()
    ensures grammar { (message : List ℕ) → (error_refusal message ≡ None) ↔ IsError message }
    ensures protocol { ICMP ≡ 1 }
    ensures unreachable { UNREACHABLE ≡ 3 }
    ensures time_exceeded { TIME_EXCEEDED ≡ 11 }
    ensures parameter_problem { PARAMETER_PROBLEM ≡ 12 }
    ensures header { HEADER ≡ 8 }
{}

/// A writing view of the beginning of an ICMP error in borrowed bytes.
#[derive(Drop)]
pub struct ErrorViewMut<'a> {
    pub bytes: &'a mut [u8],
    ghost long: { 8 ≤ length bytes.now },
}

impl<'a> ErrorViewMut<'a> {
    /// Returns a writing view of an error, or refuses the message as [`ErrorView::parse`] does and
    /// gives it back as it was. A caller that needs to know the bytes after the loan tests them
    /// with [`ErrorView::parse`] and calls [`ErrorViewMut::new`].
    pub fn parse(message: &'a mut [u8]) -> Result<ErrorViewMut<'a>, Refused<'a, IcmpFault>>
        ensures ok { IsOk result ↔ IsError message.old }
        ensures fault { IfErr result (λ r. Some r.fault ≡ error_refusal message.old) }
        ensures bytes { IfOk result (λ v. v.bytes.now ≡ message.old) }
        ensures same_reference { IfOk result
            (λ v. v.bytes.ghost_name ≡ message.entry.ghost_name) }
        ensures err { IfErr result (λ r. r.bytes.now ≡ message.old) }
        ensures err_reference { IfErr result
            (λ r. r.bytes.ghost_name ≡ message.entry.ghost_name) }
    {
        match ErrorView::parse(message) {
            Ok(_) => Ok(ErrorViewMut { bytes: message }),
            Err(fault) => Err(Refused {
                fault,
                bytes: message,
            }),
        }
    }

    /// Returns a writing view of bytes that begin with type, code, checksum and parameter, without
    /// a test.
    pub fn new(bytes: &'a mut [u8]) -> ErrorViewMut<'a>
        requires { 8 ≤ length bytes.old }
        ensures bytes { result.bytes.now ≡ bytes.old }
        ensures same_reference { result.bytes.ghost_name ≡ bytes.entry.ghost_name }
    {
        ErrorViewMut { bytes }
    }

    pub fn kind(&self) -> u8
        ensures { result ≡ (message_of self.now.bytes.now).kind }
    {
        kind(self.bytes)
    }

    pub fn code(&self) -> u8
        ensures { result ≡ (message_of self.now.bytes.now).code }
    {
        code(self.bytes)
    }

    pub fn checksum(&self) -> u16
        ensures { result ≡ (message_of self.now.bytes.now).checksum }
    {
        checksum(self.bytes)
    }

    /// Returns the 4 bytes that are carried unchanged, as one number.
    pub fn parameter(&self) -> u32
        ensures { result ≡ (message_of self.now.bytes.now).parameter }
    {
        parameter(self.bytes)
    }

    pub fn set_checksum(&mut self, checksum: u16)
        ensures written { Puts 2 (big_bytes 2 checksum) self.old.bytes.now self.new.bytes.now }
        ensures message { message_of self.new.bytes.now
            ≡ record (message_of self.old.bytes.now) { checksum = checksum } }
        ensures same_reference { self.new.bytes.ghost_name ≡ self.old.bytes.ghost_name }
    {
        BigEndian::write_u16(&mut self.bytes[field::CHECKSUM], checksum);
    }
}
