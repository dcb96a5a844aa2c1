//! Ports with budgets, as the words say them.

ghost use Rattle.std.specs.Prelude.{◌≡◌, vec_len, IfOk};

use address_space::Budget;
use chunk_tags::NoMemory;
use std::alloc::Global;
use trace_replay::THREADS;

/// What a word says of a port.
#[derive(Drop)]
pub struct Limit {
    pub port: usize,
    /// The most bytes that it grants.
    pub bytes: u64,
    /// The numbers of the asks that it refuses.
    pub refused: Vec<u64>,
}

/// Adds the numbers of one part of a list, as `2` or `4-6`. Says whether it is one.
fn add_numbers(part: &str, numbers: &mut Vec<u64>) -> Result<bool, NoMemory> {
    let (first, last) = part.split_once('-').unwrap_or((part, part));
    let (Ok(first), Ok(last)) = (first.parse::<u64>(), last.parse::<u64>()) else {
        return Ok(false);
    };
    for number in first..=last {
        numbers.push(number)?;
    }
    Ok(true)
}

/// The numbers of a list, where it is one; an empty list has none.
fn numbers_of(alloc: Global, list: &str) -> Result<Option<Vec<u64>>, NoMemory> {
    let mut numbers = Vec::new(alloc);
    if list.is_empty() {
        return Ok(Some(numbers));
    }
    for part in list.split(',') {
        if !add_numbers(part, &mut numbers)? {
            return Ok(None);
        }
    }
    Ok(Some(numbers))
}

/// What `PORT:BYTES:LIST` says, where it says that.
pub fn limit_of(alloc: Global, text: &str) -> Result<Option<Limit>, NoMemory> {
    let Some((port, rest)) = text.split_once(':') else {
        return Ok(None);
    };
    let Some((bytes, list)) = rest.split_once(':') else {
        return Ok(None);
    };
    let (Ok(port), Ok(bytes)) = (port.parse::<usize>(), bytes.parse::<u64>()) else {
        return Ok(None);
    };
    Ok(numbers_of(alloc, list)?.map(|refused| Limit {
        port,
        bytes,
        refused,
    }))
}

/// Ports that grant each ask.
fn ample_ports(alloc: Global) -> Result<Vec<Budget>, NoMemory>
    ensures { IfOk result (λ ports. vec_len ports ≡ 64) }
{
    let mut ports = Vec::new(alloc);
    for _ in 0..usize::from(THREADS) {
        ports.push(Budget::new(u64::MAX, Vec::new(alloc)))?;
    }
    Ok(ports)
}

/// A port for each thread, with these limits. A limit on a port that isn't there is passed over.
pub fn ports(alloc: Global, limits: Vec<Limit>) -> Result<Vec<Budget>, NoMemory>
    ensures { IfOk result (λ ports. vec_len ports ≡ 64) }
{
    let mut ports = ample_ports(alloc)?;
    for limit in limits {
        let Limit {
            port,
            bytes,
            refused,
        } = limit;
        if let Some(slot) = ports.get_mut(port) {
            *slot = Budget::new(bytes, refused);
        }
    }
    Ok(ports)
}
