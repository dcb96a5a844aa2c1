//! The places of far names.

ghost use Rattle.std.specs.Prelude.{◌≡◌, [], false, None, Some, is_some, length, OnOk, OnErr};
ghost use Rattle.std.specs.BTreeMap.{insert_entry};
ghost use Rattle.std.specs.List.Sorted.{IsStrictlySortedBy};
ghost use Rattle.std.specs.Map.{keys_of, set_value, remove_entry};
ghost use Rattle.std.specs.Option.{unwrap_or};
ghost use Rattle.std.specs.Ordering.{nat_cmp};
ghost use Rattle.block_names.specs.Names.{is_name, far_place};

use crate::near::block_in;
use chunk_tags::{Block, NoMemory};
use std::alloc::Global;
use std::collections::BTreeMap;
use std::collections::btree_map::Keys;
use std::marker::Model;

/// Places by rising name, each empty or with a block.
#[derive(Debug, Drop)]
pub struct FarNames {
    places: BTreeMap<u32, Option<Block>, Global>,
}

impl Model for FarNames {
    ghost use Rattle.std.specs.Prelude.{ℕ, List, Option};
    ghost use Rattle.chunk_tags.specs.declared.block.Block.{Block as Piece};

    ghost Value = { List (ℕ × Option Piece) };

    ghost view = { λ f. f.places.entries };
}

impl FarNames {
    /// No places.
    pub fn new(alloc: Global) -> FarNames
        ensures { result ≡ [] }
    {
        FarNames {
            places: BTreeMap::new(alloc),
        }
    }

    /// How many places there are.
    pub fn len(&self) -> usize
        ensures { result ≡ length self.now }
    {
        self.places.len()
    }

    /// The names, rising.
    pub fn names(&self) -> Keys<'_, u32, Option<Block>>
        ensures names { result ≡ keys_of self.now }
        ensures rising { IsStrictlySortedBy nat_cmp (keys_of self.now) }
    {
        self.places.keys()
    }

    /// Whether a name has a place.
    pub fn contains(&self, name: u32) -> bool
        ensures { result ≡ is_some (far_place name self.now) }
    {
        self.places.contains_key(&name)
    }

    /// The block of a name.
    pub fn get(&self, name: u32) -> Option<Block>
        ensures { result ≡ unwrap_or (far_place name self.now) None }
    {
        block_in(self.places.get(&name)?)
    }

    /// Makes a place for a name that has none. After `NoMemory` nothing changed.
    pub fn make(&mut self, name: u32) -> Result<(), NoMemory>
        requires { is_some (far_place name self.old) ≡ false }
        ensures ok { OnOk result (self.new ≡ insert_entry nat_cmp self.old name None) }
        ensures err { OnErr result (self.new ≡ self.old) }
    {
        self.places.insert(name, None)?;
        Ok(())
    }

    /// Puts a block into the place of a name, where it has one.
    #[tactic(auto, using(crate::proofs::Keyed::set_none))]
    pub fn put(&mut self, name: u32, block: Block)
        ensures { self.new ≡ set_value (is_name name) self.old (Some block) }
    {
        let Some(place) = self.places.get_mut(&name) else {
            return;
        };
        *place = Some(block);
    }

    /// Takes the block of a name out of its place.
    pub fn take(&mut self, name: u32) -> Option<Block>
        ensures was { result ≡ unwrap_or (far_place name self.old) None }
        ensures rest { self.new ≡ set_value (is_name name) self.old None }
    {
        self.places.get_mut(&name)?.take()
    }

    /// Lets the place of a name go, where it has one.
    pub fn remove(&mut self, name: u32)
        ensures { self.new ≡ remove_entry (is_name name) self.old }
    {
        self.places.remove(&name);
    }
}
