//! The commands of a trace, and the calls that they ask for.

ghost use Rattle.std.specs.Prelude.{◌≡◌, ◌<◌, IfOk};
ghost use Rattle.trace_text.specs.Grammar.{threads, thread_of, command_of, name_at, tray_read, highest_name, one_number, two_numbers, three_numbers, name_alone, name_and_size, name_and_tray, name_and_sizes, end_of, call_read};

use crate::fault::BadWhy;
use crate::fields::Fields;
use crate::numbers::parse_number;
use crate::trace::{Call, THREADS};

/// What a line asks for: the second of its fields.
#[derive(Clone, Copy, Debug, PartialEq, Eq)]
pub(crate) enum Command {
    Malloc,
    Calloc,
    Realloc,
    Align,
    Free,
    Post,
    Take,
    Exit,
}

#[tactic(auto, unfolding(crate::specs::Grammar::command_of))]
pub(crate) fn read_command(field: &[u8]) -> Result<Command, BadWhy>
    ensures { result ≡ command_of field.now }
{
    let [letter] = field else {
        return Err(BadWhy::Command);
    };
    match *letter {
        b'm' => Ok(Command::Malloc),
        b'c' => Ok(Command::Calloc),
        b'r' => Ok(Command::Realloc),
        b'a' => Ok(Command::Align),
        b'f' => Ok(Command::Free),
        b'p' => Ok(Command::Post),
        b't' => Ok(Command::Take),
        b'x' => Ok(Command::Exit),
        _ => Err(BadWhy::Command),
    }
}

#[tactic(auto, unfolding(crate::specs::Grammar::thread_of))]
pub(crate) fn read_thread(field: &[u8]) -> Result<u8, BadWhy>
    ensures exact { result ≡ thread_of field.now }
    ensures below { IfOk result (λ thread. thread < threads) }
{
    let thread = parse_number(field).ok_or(BadWhy::Thread)?;
    if thread >= u64::from(THREADS) {
        return Err(BadWhy::Thread);
    }
    Ok(thread as u8)
}

fn highest_name(version: u8) -> u32
    ensures { result ≡ highest_name version }
{
    if version == 1 { 65_535 } else { u32::MAX }
}

#[tactic(auto, unfolding(crate::specs::Grammar::name_at))]
fn name_from(version: u8, number: u64) -> Result<u32, BadWhy>
    ensures { result ≡ name_at version number }
{
    if number < 1 || number > u64::from(highest_name(version)) {
        return Err(BadWhy::Name);
    }
    Ok(number as u32)
}

#[tactic(auto, unfolding(crate::specs::Grammar::tray_read))]
fn tray_from(number: u64) -> Result<u32, BadWhy>
    ensures { result ≡ tray_read number }
{
    if number > 65_535 {
        return Err(BadWhy::Tray);
    }
    Ok(number as u32)
}

#[tactic(auto, unfolding(crate::specs::Grammar::one_number, crate::specs::Grammar::number_at))]
fn read_one(mut fields: Fields<'_>) -> Result<u64, BadWhy>
    ensures { result ≡ one_number fields.entry }
{
    let first = fields.take_number()?;
    fields.end()?;
    first.ok_or(BadWhy::Number)
}

#[tactic(auto, unfolding(crate::specs::Grammar::two_numbers, crate::specs::Grammar::number_at))]
fn read_two(mut fields: Fields<'_>) -> Result<(u64, u64), BadWhy>
    ensures { result ≡ two_numbers fields.entry }
{
    let first = fields.take_number()?;
    let second = fields.take_number()?;
    fields.end()?;
    Ok((first.ok_or(BadWhy::Number)?, second.ok_or(BadWhy::Number)?))
}

#[tactic(auto, unfolding(crate::specs::Grammar::three_numbers, crate::specs::Grammar::number_at))]
fn read_three(mut fields: Fields<'_>) -> Result<(u64, u64, u64), BadWhy>
    ensures { result ≡ three_numbers fields.entry }
{
    let first = fields.take_number()?;
    let second = fields.take_number()?;
    let third = fields.take_number()?;
    fields.end()?;
    Ok((
        first.ok_or(BadWhy::Number)?,
        second.ok_or(BadWhy::Number)?,
        third.ok_or(BadWhy::Number)?,
    ))
}

fn read_name(version: u8, fields: Fields<'_>) -> Result<u32, BadWhy>
    ensures { result ≡ name_alone version fields.entry }
{
    name_from(version, read_one(fields)?)
}

fn read_name_and_size(version: u8, fields: Fields<'_>) -> Result<(u32, u64), BadWhy>
    ensures { result ≡ name_and_size version fields.entry }
{
    let (name, size) = read_two(fields)?;
    Ok((name_from(version, name)?, size))
}

fn read_name_and_tray(version: u8, fields: Fields<'_>) -> Result<(u32, u32), BadWhy>
    ensures { result ≡ name_and_tray version fields.entry }
{
    let (name, tray) = read_two(fields)?;
    Ok((name_from(version, name)?, tray_from(tray)?))
}

fn read_name_and_sizes(version: u8, fields: Fields<'_>) -> Result<(u32, u64, u64), BadWhy>
    ensures { result ≡ name_and_sizes version fields.entry }
{
    let (name, first, second) = read_three(fields)?;
    Ok((name_from(version, name)?, first, second))
}

fn read_end(thread: u8, fields: Fields<'_>) -> Result<(), BadWhy>
    ensures { result ≡ end_of thread fields.entry }
{
    fields.end()?;
    if thread == 0 {
        return Err(BadWhy::MainExit);
    }
    Ok(())
}

/// The call of a thread in a trace of a version, by its command and the fields behind it.
#[tactic(auto, unfolding(crate::specs::Grammar::call_read))]
pub(crate) fn read_call(
    version: u8,
    thread: u8,
    command: Command,
    fields: Fields<'_>,
) -> Result<Call, BadWhy>
    ensures { result ≡ call_read version thread command fields.entry }
{
    match command {
        Command::Malloc => {
            let (name, size) = read_name_and_size(version, fields)?;
            Ok(Call::Malloc { name, size })
        }
        Command::Calloc => {
            let (name, n, size) = read_name_and_sizes(version, fields)?;
            Ok(Call::Calloc { name, n, size })
        }
        Command::Realloc => {
            let (name, size) = read_name_and_size(version, fields)?;
            Ok(Call::Realloc { name, size })
        }
        Command::Align => {
            let (name, align, size) = read_name_and_sizes(version, fields)?;
            Ok(Call::Align { name, align, size })
        }
        Command::Free => {
            let name = read_name(version, fields)?;
            Ok(Call::Free { name })
        }
        Command::Post => {
            let (name, tray) = read_name_and_tray(version, fields)?;
            Ok(Call::Post { name, tray })
        }
        Command::Take => {
            let (name, tray) = read_name_and_tray(version, fields)?;
            Ok(Call::Take { name, tray })
        }
        Command::Exit => {
            read_end(thread, fields)?;
            Ok(Call::Exit)
        }
    }
}
