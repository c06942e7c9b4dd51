//! The batch that is promised to a peer that begins anew.
ghost use Rattle.std.specs.Prelude.{◌≡◌, ◌≤◌, ℕ, [], length, drop, take, List};
ghost use Rattle.link.specs.Link.{free_places, occupied, wanted, with_fed, with_promised};
ghost use Rattle.resync.specs.Batch.{HasNoPending, batch_of};
ghost use Rattle.nat_types.specs.declared.records.Record.{Record as Rec};
ghost use Rattle.spec_binding.specs.Machine.{Stands, Works};
ghost use Rattle.bind_core.specs.Cores.{book_of};

use crate::Core;
use arrayvec::ArrayVec;
use link::Link;
use resync::batch_len;
use spec_binding::{books_keep, feed_works};

impl Core {
    /// Promises the table's batch to the link. No pair may wait for its answer.
    pub(crate) fn promise(&self, link: &mut Link)
        requires settled { HasNoPending self.now.table.entries }
        requires begins { occupied link.old ≡ 0 }
        requires room { length (batch_of self.now.table.owned self.now.table.entries)
            ≤ free_places link.old }
        ensures { link.new ≡ with_promised link.old (length (batch_of self.now.table.owned
            self.now.table.entries)) }
    {
        self.recall();
        link.promise(batch_len(&self.table));
    }

    /// Passes those records of the promised batch to the link that it needs for its next datagram.
    /// Afterwards the link needs none.
    #[inline(always)]
    pub fn hand_in(&mut self, link: &mut Link)
        requires promised { length self.old.coming ≡ link.old.promised }
        ensures core { self.new ≡ record self.old {
          coming = drop (wanted link.old) self.old.coming;
        } }
        ensures link { link.new ≡ with_fed link.old (take (wanted link.old) self.old.coming) }
        ensures enough { wanted link.new ≡ 0 }
        ensures works { (now : ℕ) (h : List Rec) (n : ℕ)
            → Stands (book_of self.old) link.old h
            → Works now [] [] (book_of self.old) link.old n (book_of self.new) link.new n [] h }
    {
        books_keep();
        feed_works();
        if link.wanted() > 0 {
            self.draw_for(link);
        }
    }

    /// Draws as many records of the promised batch as the link needs, and passes them to it. The
    /// buffer is cleared in each call, so callers leave the call out where none is needed.
    fn draw_for(&mut self, link: &mut Link)
        requires promised { length self.old.coming ≡ link.old.promised }
        ensures core { self.new ≡ record self.old {
          coming = drop (wanted link.old) self.old.coming;
        } }
        ensures link { link.new ≡ with_fed link.old (take (wanted link.old) self.old.coming) }
        ensures enough { wanted link.new ≡ 0 }
        ensures works { (now : ℕ) (h : List Rec) (n : ℕ)
            → Stands (book_of self.old) link.old h
            → Works now [] [] (book_of self.old) link.old n (book_of self.new) link.new n [] h }
    {
        books_keep();
        feed_works();
        let mut records = ArrayVec::new();
        self.cursor.draw(&self.table, link.wanted(), &mut records);
        link.feed(records.as_slice());
    }
}
