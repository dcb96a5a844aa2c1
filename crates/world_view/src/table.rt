//! What is found at addresses.

ghost use Rattle.std.specs.Prelude.{◌≡◌, ◌+◌, ◌<◌, ◌≤◌, true, length, slice_index_or, IfOk, OnOk, OnErr};
ghost use Rattle.world_view.specs.Places.{Placed, found_by_address, nothing_found, put_found};
ghost use Rattle.world_view.specs.Tables.{IsByAddress, IsEnd};

use chunk_tags::{Addr, NoMemory};
use stats_text::Place;
use std::alloc::Global;
use std::marker::Model;

/// What is found at addresses, in the order in which it was put there (this project's own).
#[derive(Drop)]
pub struct PlaceList {
    found: Vec<(Addr, Place)>,
}

impl Model for PlaceList {
    ghost use Rattle.std.specs.Prelude.{List};
    ghost use Rattle.world_view.specs.Places.{Placed};

    ghost Value = { List Placed };

    ghost view = { λ l. l.found.items };
}

impl PlaceList {
    /// Nothing is found anywhere.
    #[tactic(auto, unfolding(crate::specs::Places::found_by_address))]
    pub fn new(alloc: Global) -> PlaceList
        ensures { found_by_address result ≡ nothing_found }
    {
        PlaceList {
            found: Vec::new(alloc),
        }
    }

    /// Puts something at an address, where it is found from now on. After `NoMemory` nothing changed.
    pub fn put(&mut self, at: Addr, place: Place) -> Result<(), NoMemory>
        ensures ok { OnOk result (found_by_address self.new
            ≡ put_found (found_by_address self.old) (at, place)) }
        ensures err { OnErr result (self.new ≡ self.old) }
    {
        self.found.push((at, place))?;
        Ok(())
    }

    /// The same by address. The sort needs a buffer as long as the list.
    pub fn sorted(self) -> Result<PlaceTable, NoMemory>
        ensures { IfOk result (λ table. found_by_address table ≡ found_by_address self) }
    {
        let PlaceList { mut found } = self;
        found.sort_by_key(|placed| placed.0.0)?;
        Ok(PlaceTable { found })
    }
}

/// What is found at each address: the last that was put there (this project's own).
#[derive(Drop)]
pub struct PlaceTable {
    /// By address. Of two at one address the one that was put there later stands behind.
    found: Vec<(Addr, Place)>,
}

impl Model for PlaceTable {
    ghost use Rattle.std.specs.Prelude.{List};
    ghost use Rattle.world_view.specs.Places.{Placed};
    ghost use Rattle.world_view.specs.Tables.{IsByAddress};

    ghost Value = { List Placed };

    ghost view = { λ t. t.found.items };

    ghost invariant = { λ t. IsByAddress t.found.items };
}

impl PlaceTable {
    /// What is found at an address. It is looked for at the index `next` first, which is behind it then: chunks that are asked
    /// for by address are found at once, and others by halves.
    pub fn at(&self, at: Addr, next: &mut usize) -> Option<Place>
        ensures { result ≡ found_by_address self.now at }
    {
        let found = self.found.as_slice();
        let end = end_of(found, at, *next);
        *next = end;
        if end == 0 {
            return None;
        }
        let (last, place) = found[end - 1];
        if last == at { Some(place) } else { None }
    }
}

/// The address at an index.
fn addr_at(found: &[(Addr, Place)], index: usize) -> u64
    requires { index < length found.now }
    ensures { (f : Placed) → result ≡ (slice_index_or found.now index f).0 }
{
    let (at, _) = found[index];
    at.0
}

/// Whether what stands at an index is the last that is found up to an address.
fn is_last(found: &[(Addr, Place)], at: Addr, index: usize) -> bool
    requires { IsByAddress found.now }
    ensures within { result ≡ true → index + 1 ≤ length found.now }
    ensures end { result ≡ true → IsEnd found.now at (index + 1) }
{
    if index >= found.len() || at.0 < addr_at(found, index) {
        return false;
    }
    index + 1 == found.len() || at.0 < addr_at(found, index + 1)
}

/// Where what is found up to an address ends.
fn end_of(found: &[(Addr, Place)], at: Addr, next: usize) -> usize
    requires { IsByAddress found.now }
    ensures within { result ≤ length found.now }
    ensures end { IsEnd found.now at result }
{
    if is_last(found, at, next) {
        return next + 1;
    }
    found.partition_point(|placed| placed.0.0 <= at.0)
}
