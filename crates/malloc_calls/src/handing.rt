//! Blocks go from one thread to another by trays.

ghost use Rattle.std.specs.Prelude.{◌≡◌, ◌<◌, false, None, Some, IfSome, length, IsTrue};
ghost use Rattle.chunk_tags.specs.declared.tunables.Tunables.{Tunables};
ghost use Rattle.arena_core.specs.declared.journal.Who.{Who};
ghost use Rattle.consolidate_trim.specs.Outside.{means};
ghost use Rattle.arena_holds.specs.Going.{Does};
ghost use Rattle.arena_holds.specs.Places.{setting, standing, tray_count};
ghost use Rattle.arena_holds.specs.Returning.{IsUnseen};
ghost use Rattle.block_names.specs.Names.{has_place, block_at};
ghost use Rattle.own_blocks.specs.Own.{in_own};
ghost use Rattle.malloc_calls.specs.Threads.{own_of, names_of, number_of, space_of};
ghost use Rattle.malloc_calls.specs.Trays.{post_call, take_call};
ghost use Rattle.own_blocks.specs.declared.reply.Reply.TheVariants.{NotYours};

use crate::thread::Thread;
use address_space::Kernel;
use arena_holds::Places;
use own_blocks::Reply;

impl<K: Kernel> Thread<K> {
    /// Posts a name's block to a tray. `NotYours` exactly where the name holds nothing; `Missed` where the tray isn't empty, and
    /// then the name keeps its block.
    #[tactic(auto, using(block_names::proofs::Tables::place_left, block_names::proofs::Tables::without_none))]
    pub fn post<P: Places>(&mut self, p: &mut P, name: u32, tray: u32) -> Reply
        requires tray { tray < tray_count }
        requires served { P.ways.serves false p.old (in_own (own_of self.old)) }
        ensures does { (t : Tunables) (who : Who) →
            Does (setting P.ways (means P.Hold.fast P.Hold.dials K.port) P.Dial.dials) t who
            (post_call name tray (own_of self.old)) (standing p.old (space_of self.old))
            (result, own_of self.new) (standing p.new (space_of self.new)) }
        ensures none { block_at (names_of self.old) name ≡ None → result ≡ NotYours }
        ensures unseen { IsUnseen P.ways p.old (in_own (own_of self.old))
            (in_own (own_of self.new)) p.new }
        ensures space { space_of self.new ≡ space_of self.old }
        ensures number { number_of self.new ≡ number_of self.old }
    {
        let Some(_named) = self.own.names.get(name) else {
            return Reply::NotYours;
        };
        let block = self.own.names.take(name).unwrap();
        match p.post(tray, block) {
            Ok(()) => Reply::Posted,
            Err(full) => {
                self.own.names.put(name, full.block);
                Reply::Missed(full.seen)
            }
        }
    }

    /// Takes a tray's block under a name that holds nothing. `Missed` where the tray has none.
    pub fn take<P: Places>(&mut self, p: &mut P, name: u32, tray: u32) -> Reply
        requires room { IsTrue (has_place (names_of self.old) name) }
        requires empty { block_at (names_of self.old) name ≡ None }
        requires tray { tray < tray_count }
        requires whole { P.ways.whole p.old }
        ensures does { (t : Tunables) (who : Who) →
            Does (setting P.ways (means P.Hold.fast P.Hold.dials K.port) P.Dial.dials) t who
            (take_call name tray (own_of self.old)) (standing p.old (space_of self.old))
            (result, own_of self.new) (standing p.new (space_of self.new)) }
        ensures unseen { IsUnseen P.ways p.old (in_own (own_of self.old))
            (in_own (own_of self.new)) p.new }
        ensures space { space_of self.new ≡ space_of self.old }
        ensures number { number_of self.new ≡ number_of self.old }
    {
        match p.take(tray) {
            Ok(block) => {
                let reply = Reply::Taken {
                    addr: block.addr,
                    size: block.size,
                };
                self.own.names.put(name, block);
                reply
            }
            Err(empty) => Reply::Missed(empty.seen),
        }
    }
}
