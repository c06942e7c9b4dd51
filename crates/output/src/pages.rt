//! The buffer that a step fills with its output.
ghost use Rattle.std.specs.Prelude.{◌≡◌, ◌≤◌, ◌<◌, ◌+◌, ◌-◌, ◌^◌, ◌++◌, Some, length, slice_get, vec_len, vec_capacity};
ghost use Rattle.std.specs.Prelude.{IfSome, OnOk, OnErr, IsOk};
ghost use Rattle.output.specs.Output.{none_told, no_room, with_frame, with_frames, with_datagram, with_note};
ghost use Rattle.output.specs.Output.{changed_at, octet_count, without_notes, IsWithin};
ghost use Rattle.output.specs.Readers.{sent_of};
ghost use Rattle.output.specs.Memory.{LacksPage};

use crate::growing::reserve;
use crate::piles::Pile;
use crate::readers::{ByteStrings, Frame, Frames};
use crate::writing::{ChangeBytes, WriteBytes};
use nat_types::{Note, Side};
use std::alloc::{AllocError, Global};
use std::marker::Model;
use std::{mem, slice};

/// The most bytes of a frame for which the number of frames in a [`Room`] has capacity.
const LONGEST_FRAME: usize = 1514;

/// The most bytes of a datagram: a header of 38 and 64 records of at most 34.
const LONGEST_DATAGRAM: usize = 2232;

/// A capacity: numbers of frames of up to 1,514 bytes each, of datagrams of up to 2,232 bytes each,
/// and of notes; and for frames that are longer the number of bytes beyond these.
#[derive(Clone, Copy, Debug, PartialEq, Eq, Default)]
pub struct Room {
    pub frames: usize,
    /// The bytes of frames beyond 1,514 each, of all frames together.
    pub octets: usize,
    pub datagrams: usize,
    pub notes: usize,
}

/// The output so far, and the capacity that is left. `ready` takes the memory; what is added
/// afterwards takes none.
#[derive(Debug, Drop)]
pub struct OutputBuffer {
    sides: Vec<Side>,
    frames: Pile,
    datagrams: Pile,
    notes: Vec<Note>,
    room: Room,
}

impl Model for OutputBuffer {
    ghost use Rattle.std.specs.Prelude.{◌≡◌, ◌≤◌, ◌+◌, ◌*◌, length, vec_len, vec_capacity};
    ghost use Rattle.output.specs.Output.{Paged, HasRoom, sent};

    ghost Value = { Paged };

    ghost view = { λ p. record {
      told = record {
        frames = sent p.sides.items p.frames.strings;
        datagrams = p.datagrams.strings;
        notes = p.notes.items;
      };
      room = p.room;
    } };

    ghost invariant = { λ p. (length p.sides.items ≡ length p.frames.strings)
        × (vec_len p.sides + p.room.frames ≤ vec_capacity p.sides)
        × HasRoom p.room.frames 1514 p.room.octets p.frames.places p.frames.octets
        × HasRoom p.room.datagrams 2232 0 p.datagrams.places p.datagrams.octets
        × (vec_len p.notes + p.room.notes ≤ vec_capacity p.notes) };
}

fn note_reserved(list: &mut Vec<Note>, notes: &[Note])
    requires { vec_len list.old + length notes.now ≤ vec_capacity list.old }
    ensures items { list.new.items ≡ list.old.items ++ notes.now }
    ensures len { vec_len list.new ≡ vec_len list.old + length notes.now }
    ensures capacity { vec_capacity list.old ≤ vec_capacity list.new }
{
    match list.extend_from_slice(notes) {
        Ok(()) => {}
        Err(_full) => unreachable!(),
    }
}

impl OutputBuffer {
    /// Returns an empty buffer without capacity.
    pub fn new(alloc: Global) -> OutputBuffer
        ensures told { result.told ≡ none_told }
        ensures room { result.room ≡ no_room }
    {
        OutputBuffer {
            sides: Vec::new(alloc),
            frames: Pile::new(alloc),
            datagrams: Pile::new(alloc),
            notes: Vec::new(alloc),
            room: Room {
                frames: 0,
                octets: 0,
                datagrams: 0,
                notes: 0,
            },
        }
    }

    /// Sets the capacity that is left to this one, and takes the memory for it. Fails where there
    /// isn't enough; output and capacity are then as before.
    #[inline(always)]
    pub fn ready(&mut self, room: Room) -> Result<(), AllocError>
        requires few_frames { room.frames ≤ 4096 }
        requires few_octets { room.octets ≤ 16777216 }
        requires few_datagrams { room.datagrams ≤ 4096 }
        ensures ok { OnOk result (self.new ≡ record self.old { room = room }) }
        ensures err { OnErr result (self.new ≡ self.old) }
        ensures enough { IsWithin room self.old.room → IsOk result }
        ensures refused { OnErr result (LacksPage room) }
    {
        reserve(&mut self.sides, room.frames)?;
        self.frames
            .ready(room.frames, LONGEST_FRAME * room.frames + room.octets)?;
        self.datagrams
            .ready(room.datagrams, LONGEST_DATAGRAM * room.datagrams)?;
        reserve(&mut self.notes, room.notes)?;
        self.room = room;
        Ok(())
    }

    /// Removes all output, and keeps the memory.
    pub fn clear(&mut self)
        ensures told { self.new.told ≡ none_told }
        ensures room { self.new.room ≡ self.old.room }
    {
        self.sides.clear();
        self.frames.clear();
        self.datagrams.clear();
        self.notes.clear();
    }

    /// Appends a frame of up to 1,514 bytes for this side. The frame writes its bytes directly into
    /// the buffer.
    #[inline(always)]
    pub fn make_frame<W: WriteBytes>(&mut self, side: Side, frame: &W)
        requires ready { W.can_write frame.now }
        requires room { 0 < self.old.room.frames }
        requires short { W.room frame.now ≤ 1514 }
        ensures told { self.new.told ≡ with_frame self.old.told side (W.bytes frame.now) }
        ensures room { self.old.room
            ≡ record self.new.room { frames = self.new.room.frames + 1 } }
    {
        self.sides.push_reserved(side);
        self.frames.write(frame);
        self.room.frames -= 1;
    }

    /// Appends a frame for this side that may have more than 1,514 bytes. The frame writes its bytes
    /// directly into the buffer.
    #[inline(always)]
    pub fn make_whole_frame<W: WriteBytes>(&mut self, side: Side, frame: &W)
        requires ready { W.can_write frame.now }
        requires room { 0 < self.old.room.frames }
        requires octets { W.room frame.now ≤ 1514 + self.old.room.octets }
        ensures told { self.new.told ≡ with_frame self.old.told side (W.bytes frame.now) }
        ensures room { self.old.room ≡ record self.new.room {
          frames = self.new.room.frames + 1;
          octets = self.old.room.octets;
        } }
        // What the frame has beyond 1,514 bytes is taken of the octets.
        ensures octets { self.old.room.octets
            ≤ self.new.room.octets + (W.room frame.now - 1514) }
    {
        self.sides.push_reserved(side);
        let size = self.frames.write(frame);
        self.room.frames -= 1;
        if size > LONGEST_FRAME {
            self.room.octets -= size - LONGEST_FRAME;
        }
    }

    /// Changes the bytes of the frame at an index in place.
    pub fn change_frame<C: ChangeBytes>(&mut self, k: usize, change: &C)
        requires there { k < length self.old.told.frames }
        requires ready { IfSome (slice_get self.old.told.frames k)
            (λ f. C.can_change change.now f.bytes) }
        ensures told { self.new.told ≡ with_frames self.old.told
            (changed_at k (C.changed change.now) self.old.told.frames) }
        ensures room { self.new.room ≡ self.old.room }
    {
        self.frames.change(k, change);
    }

    /// Appends a datagram, which writes its bytes directly into the buffer.
    pub fn make_datagram<W: WriteBytes>(&mut self, datagram: &W)
        requires ready { W.can_write datagram.now }
        requires room { 0 < self.old.room.datagrams }
        requires short { W.room datagram.now ≤ 2232 }
        ensures told { self.new.told ≡ with_datagram self.old.told (W.bytes datagram.now) }
        ensures room { self.old.room
            ≡ record self.new.room { datagrams = self.new.room.datagrams + 1 } }
    {
        self.datagrams.write(datagram);
        self.room.datagrams -= 1;
    }

    /// Appends a note.
    pub fn note(&mut self, note: &Note)
        requires { 0 < self.old.room.notes }
        ensures told { self.new.told ≡ with_note self.old.told note.now }
        ensures room { self.old.room ≡ record self.new.room { notes = self.new.room.notes + 1 } }
    {
        note_reserved(&mut self.notes, slice::from_ref(note));
        self.room.notes -= 1;
    }

    /// Takes the list of notes out of the buffer, for a call that appends notes to a list with
    /// capacity; `put_notes` puts it back.
    pub fn take_notes(&mut self) -> Vec<Note>
        ensures notes { result.items ≡ self.old.told.notes }
        ensures room { vec_len result + self.old.room.notes ≤ vec_capacity result }
        ensures rest { self.new ≡ without_notes self.old }
    {
        self.room.notes = 0;
        let alloc = *self.notes.allocator();
        mem::replace(&mut self.notes, Vec::new(alloc))
    }

    /// Puts a list of notes in place of the present one; the capacity for notes is then the list's.
    pub fn put_notes(&mut self, notes: Vec<Note>)
        ensures told { self.new.told ≡ record self.old.told { notes = notes.items } }
        ensures room { self.new.room
            ≡ record self.old.room { notes = vec_capacity notes - vec_len notes } }
    {
        self.room.notes = notes.capacity() - notes.len();
        self.notes = notes;
    }

    /// Returns the frames, in order.
    pub fn frames(&self) -> Frames<'_>
        ensures { result ≡ self.now.told.frames }
    {
        Frames::of(&self.sides, self.frames.strings())
    }

    /// Returns how many frames there are.
    #[inline(always)]
    pub fn frame_count(&self) -> usize
        ensures { result ≡ length self.now.told.frames }
    {
        self.sides.len()
    }

    /// Returns how many bytes all frames have together.
    #[inline(always)]
    pub fn frame_octets(&self) -> usize
        ensures count { result ≡ octet_count self.now.told.frames }
        ensures few { result < 2 ^ 63 }
    {
        self.frames.octet_count()
    }

    /// Returns the frame at an index.
    pub fn frame(&self, k: usize) -> Frame<'_>
        requires { k < length self.now.told.frames }
        ensures { slice_get self.now.told.frames k ≡ Some (sent_of result) }
    {
        Frame {
            side: self.sides[k],
            bytes: self.frames.string(k),
        }
    }

    /// Returns how many datagrams there are.
    pub fn datagram_count(&self) -> usize
        ensures { result ≡ length self.now.told.datagrams }
    {
        self.datagrams.count()
    }

    /// Returns the datagrams, in order.
    pub fn datagrams(&self) -> ByteStrings<'_>
        ensures { result ≡ self.now.told.datagrams }
    {
        self.datagrams.strings()
    }

    /// Returns the notes, in order.
    pub fn notes(&self) -> &[Note]
        ensures { result.now ≡ self.now.told.notes }
    {
        self.notes.as_slice()
    }
}
