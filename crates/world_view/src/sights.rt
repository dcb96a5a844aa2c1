//! What is seen of chunks.

ghost use Rattle.std.specs.Prelude.{◌≡◌, OnOk};
ghost use Rattle.world_view.specs.Sights.{seen_in, nothing_seen, put_seen};

use crate::finds::Find;
use crate::table::PlaceList;
use chunk_tags::NoMemory;
use stats_text::TileView;
use std::alloc::Global;
use std::collections::BTreeMap;

/// The chunks that were seen (this project's own).
#[derive(Drop)]
pub struct Sights {
    /// Where each chunk is found.
    pub found: PlaceList,
    /// The mapped chunks by address.
    pub mapped: BTreeMap<u64, TileView>,
}

impl Sights {
    /// None was seen.
    #[tactic(auto, unfolding(crate::specs::Sights::seen_in))]
    pub fn new(alloc: Global) -> Sights
        ensures { seen_in result ≡ nothing_seen }
    {
        Sights {
            found: PlaceList::new(alloc),
            mapped: BTreeMap::new(alloc),
        }
    }

    /// A chunk is seen. After `NoMemory` it may stand in one of the two.
    #[tactic(auto, unfolding(crate::specs::Sights::seen_in))]
    pub fn put(&mut self, find: &Find) -> Result<(), NoMemory>
        ensures { OnOk result (seen_in self.new ≡ put_seen (seen_in self.old) find.now) }
    {
        self.found.put(find.tile.addr, find.tile.place)?;
        if find.mapped {
            self.mapped.insert(find.tile.addr.0, find.tile)?;
        }
        Ok(())
    }
}
