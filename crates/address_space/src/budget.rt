//! A port with a budget of bytes and a list of asks to refuse.

ghost use Rattle.std.specs.Prelude.{◌≡◌, ◌+◌, nat_lt};
ghost use Rattle.address_space.specs.declared.asks.Ask.{Ask};
ghost use Rattle.address_space.specs.declared.asks.Back.{Back};
ghost use Rattle.address_space.specs.Budgets.{BudgetState, new_budget, budget_port, new_bytes, shrunk_bytes, returned_bytes};

use crate::asks::{Answer, Ask, Back};
use crate::kernel::Kernel;
use std::marker::Model;

/// A port that numbers its asks from 1, and refuses those whose number is in a list and those whose new
/// bytes would take what is held past a budget.
#[derive(Drop)]
pub struct Budget {
    bytes: u64,
    refuse_at: Vec<u64>,
    asks: u64,
    held: u64,
    refusals: u64,
}

impl Model for Budget {
    ghost use Rattle.address_space.specs.Budgets.{BudgetState};

    ghost Value = { BudgetState };

    ghost view = { λ b. record {
      bytes = b.bytes;
      refuse_at = b.refuse_at.items;
      asks = b.asks;
      held = b.held;
      refusals = b.refusals;
    } };
}

impl Budget {
    /// A port with a budget of `bytes`, which refuses the asks with these numbers.
    pub fn new(bytes: u64, refuse_at: Vec<u64>) -> Budget
        ensures { result ≡ new_budget bytes refuse_at.items }
    {
        Budget {
            bytes,
            refuse_at,
            asks: 0,
            held: 0,
            refusals: 0,
        }
    }
}

/// The bytes that an ask adds to what is held.
fn added_bytes(ask: Ask) -> u64
    ensures { result ≡ new_bytes ask }
{
    match ask {
        Ask::Break { old, new } => new.saturating_sub(old),
        Ask::Piece { len, .. } | Ask::NewHeap { len, .. } | Ask::Map { len, .. } => len,
        Ask::GrowHeap {
            old_len,
            new_len,
            ..
        }
        | Ask::Remap {
            old_len,
            new_len,
            ..
        } => new_len.saturating_sub(old_len),
    }
}

/// The bytes that a granted ask gives back: a remap to a smaller length does.
fn dropped_bytes(ask: Ask) -> u64
    ensures { result ≡ shrunk_bytes ask }
{
    match ask {
        Ask::Remap {
            old_len,
            new_len,
            ..
        } => old_len.saturating_sub(new_len),
        _ => 0,
    }
}

/// The bytes that come back.
fn given_bytes(back: Back) -> u64
    ensures { result ≡ returned_bytes back }
{
    match back {
        Back::Break { old, new } => old.saturating_sub(new),
        Back::ShrinkHeap {
            old_len,
            new_len,
            ..
        } => old_len.saturating_sub(new_len),
        Back::DropHeap { len, .. } | Back::Unmap { len, .. } => len,
    }
}

/// Whether what is held and what is added are together above the budget.
fn passes(held: u64, added: u64, bytes: u64) -> bool
    ensures { result ≡ nat_lt bytes (held + added) }
{
    held.checked_add(added).is_none_or(|sum| sum > bytes)
}

impl Kernel for Budget {
    ghost port = { budget_port };

    fn ask(&mut self, ask: Ask) -> Answer {
        let added = added_bytes(ask);
        let number = self.asks.saturating_add(1);
        let listed = self.refuse_at.contains(&number);
        let over = passes(self.held, added, self.bytes);
        self.asks = number;
        if listed || over {
            self.refusals = self.refusals.saturating_add(1);
            Answer::Refused
        } else {
            self.held = (self.held + added).saturating_sub(dropped_bytes(ask));
            Answer::Granted
        }
    }

    fn back(&mut self, back: Back) {
        self.held = self.held.saturating_sub(given_bytes(back));
    }
}
