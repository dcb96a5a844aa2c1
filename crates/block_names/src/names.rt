//! The blocks of a thread, by name.

ghost use Rattle.std.specs.Prelude.{◌≡◌, length, IsTrue, false, None, is_some, IfSome, OnOk, OnErr, slice_index_or};
ghost use Rattle.block_names.specs.Blocks.{IsHeld};
ghost use Rattle.block_names.specs.Names.{IsTable, FarNamesRise, no_names, has_place, block_at, with_place, with_block, without_block, tidied};

use crate::far::FarNames;
use crate::near::{append_places, copy_at, take_at};
use chunk_tags::{Block, NoMemory};
use std::alloc::Global;
use std::marker::Model;

/// The names below this have their places in a row (this project's own).
const NEAR_NAMES: u32 = 1_048_576;

/// The blocks of a thread, each under a name; a name is a number. Below 2^20 the table has a place for each up to the
/// largest that was made ready, and of the others one for each that was (this project's own).
#[derive(Debug, Drop)]
pub struct Names {
    near: Vec<Option<Block>>,
    far: FarNames,
}

impl Model for Names {
    ghost use Rattle.block_names.specs.Names.{NameTable, IsTable};

    ghost Value = { NameTable };

    ghost view = { λ n. record { near = n.near.items; far = n.far } };

    ghost invariant = { λ n. IsTable (record { near = n.near.items; far = n.far }) };
}

impl Names {
    /// A table without a place.
    #[tactic(auto, unfolding(crate::specs::Names::no_names, crate::specs::Names::block_at))]
    pub fn new(alloc: Global) -> Names
        ensures { result ≡ no_names }
    {
        Names {
            near: Vec::new(alloc),
            far: FarNames::new(alloc),
        }
    }

    /// Laws; the call does nothing. Each name that holds something holds a chunk, and no name has two places.
    pub fn laws(&self)
        ensures table { IsTable self.now }
        ensures rising { FarNamesRise self.now }
    {
        let _ = &self.near;
        let _ = self.far.names();
    }

    /// Whether a name has a place.
    #[tactic(auto, unfolding(crate::specs::Names::has_place))]
    pub fn has_room(&self, name: u32) -> bool
        ensures { result ≡ has_place self.now name }
    {
        if name < NEAR_NAMES {
            (name as usize) < self.near.len()
        } else {
            self.far.contains(name)
        }
    }

    /// Makes a place for a name, a near one's with those of all names below it. After `NoMemory` nothing changed.
    #[tactic(auto, unfolding(crate::specs::Names::has_place, crate::specs::Names::block_at, crate::specs::Names::with_place))]
    pub fn ready(&mut self, name: u32) -> Result<(), NoMemory>
        ensures ok { OnOk result (self.new ≡ with_place name self.old) }
        ensures err { OnErr result (self.new ≡ self.old) }
        ensures full { OnErr result (has_place self.old name ≡ false) }
    {
        if self.has_room(name) {
            return Ok(());
        }
        if name < NEAR_NAMES {
            let missing = name as usize + 1 - self.near.len();
            append_places(&mut self.near, missing)
        } else {
            self.far.make(name)?;
            Ok(())
        }
    }

    /// The places of the far names, by name.
    pub fn far(&self) -> &FarNames
        ensures { result.now ≡ self.now.far }
    {
        &self.far
    }

    /// How many names have their places in the row: those below this.
    pub fn row(&self) -> u32
        ensures { result ≡ length self.now.near }
    {
        self.near.len() as u32
    }

    /// A copy of the block of a name in the row; `None` where the name holds nothing, and where it isn't in the row.
    pub fn in_row(&self, name: u32) -> Option<Block>
        ensures { result ≡ slice_index_or self.now.near name None }
    {
        copy_at(&self.near, name)
    }

    /// A copy of the block of a name. `None` exactly where the name holds nothing.
    #[inline(always)]
    #[tactic(auto, unfolding(crate::specs::Names::block_at))]
    pub fn get(&self, name: u32) -> Option<Block>
        ensures block { result ≡ block_at self.now name }
        ensures held { IfSome result IsHeld }
    {
        if name < NEAR_NAMES {
            copy_at(&self.near, name)
        } else {
            self.far.get(name)
        }
    }

    /// Gives a block a name that holds nothing.
    #[tactic(auto, unfolding(crate::specs::Names::has_place, crate::specs::Names::block_at, crate::specs::Names::with_at))]
    pub fn put(&mut self, name: u32, block: Block)
        requires room { IsTrue (has_place self.old name) }
        requires empty { block_at self.old name ≡ None }
        requires held { IsHeld block }
        ensures { self.new ≡ with_block name block self.old }
    {
        if name < NEAR_NAMES {
            self.near[name as usize] = Some(block);
        } else {
            self.far.put(name, block);
        }
    }

    /// The block of a name, which then holds nothing. `None` exactly where it held nothing.
    #[inline(always)]
    #[tactic(auto, unfolding(crate::specs::Names::block_at, crate::specs::Names::with_at))]
    pub fn take(&mut self, name: u32) -> Option<Block>
        ensures block { result ≡ block_at self.old name }
        ensures rest { self.new ≡ without_block name self.old }
        ensures held { IfSome result IsHeld }
    {
        if name < NEAR_NAMES {
            take_at(&mut self.near, name)
        } else {
            self.far.take(name)
        }
    }

    /// Lets the place of a name go, where that is one of its own and empty; nothing else changes.
    #[tactic(auto, unfolding(crate::specs::Names::tidied))]
    pub fn tidy(&mut self, name: u32)
        ensures { self.new ≡ tidied name self.old }
    {
        if name < NEAR_NAMES || self.get(name).is_some() {
            return;
        }
        self.laws();
        self.far.remove(name);
    }
}
