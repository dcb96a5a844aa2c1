//! Writing a trace.

ghost use Rattle.std.specs.Prelude.{◌≡◌, ◌+◌, ◌<◌, ◌≤◌, [], ◌∷◌, ◌++◌, length, codes, drop, vec_capacity, IfOk, OnOk, OnErr};
ghost use Rattle.std.specs.Fmt.{decimal};
ghost use Rattle.trace_text.specs.Grammar.{header, whole, reading_of};
ghost use Rattle.trace_text.specs.Spelling.{spaced, call_spelling, spelling_of, spelling, Allows};

use crate::trace::{Call, Line, Trace};
use chunk_tags::NoMemory;
use itoa::write_digits;
use std::alloc::Global;

/// Puts a letter before `end`, and gives its place.
fn put_letter(text: &mut [u8], end: usize, letter: u8) -> usize
    requires { (1 ≤ end) × (end ≤ length text.old) }
    ensures start { result + 1 ≡ end }
    ensures written { drop result text.new ≡ letter ∷ drop end text.old }
{
    let start = end - 1;
    text[start] = letter;
    start
}

/// Puts a number before `end`, and gives the place where it begins.
#[tactic(auto, using(crate::proofs::Digits::decimal_lengths))]
fn put_digits(text: &mut [u8], end: usize, n: u64) -> usize
    requires { (20 ≤ end) × (end ≤ length text.old) }
    ensures start { end ≤ result + 20 }
    ensures below { result ≤ end }
    ensures written { drop result text.new ≡ decimal n ++ drop end text.old }
{
    write_digits(n, text, end)
}

/// Puts a space and a number before `end`, and gives the place where they begin.
fn put_number(text: &mut [u8], end: usize, n: u64) -> usize
    requires { (21 ≤ end) × (end ≤ length text.old) }
    ensures start { end ≤ result + 21 }
    ensures below { result ≤ end }
    ensures written { drop result text.new ≡ spaced n ++ drop end text.old }
{
    let start = put_digits(text, end, n);
    put_letter(text, start, b' ')
}

/// Puts a command with two numbers at the end.
fn put_two(text: &mut [u8], letter: u8, first: u32, second: u64) -> usize
    requires { 64 ≤ length text.old }
    ensures start { length text.old ≤ result + 64 }
    ensures below { result ≤ length text.old }
    ensures written { drop result text.new ≡ (letter ∷ []) ++ spaced first ++ spaced second }
{
    let end = text.len();
    let end = put_number(text, end, second);
    let end = put_number(text, end, u64::from(first));
    put_letter(text, end, letter)
}

/// Puts a command with three numbers at the end.
fn put_three(text: &mut [u8], letter: u8, first: u32, second: u64, third: u64) -> usize
    requires { 64 ≤ length text.old }
    ensures start { length text.old ≤ result + 64 }
    ensures below { result ≤ length text.old }
    ensures written { drop result text.new ≡ (letter ∷ []) ++ spaced first ++ spaced second ++ spaced third }
{
    let end = text.len();
    let end = put_number(text, end, third);
    let end = put_number(text, end, second);
    let end = put_number(text, end, u64::from(first));
    put_letter(text, end, letter)
}

/// Puts a call at the end.
fn put_call(text: &mut [u8], call: &Call) -> usize
    requires { 64 ≤ length text.old }
    ensures start { length text.old ≤ result + 64 }
    ensures below { result ≤ length text.old }
    ensures written { drop result text.new ≡ call_spelling call.now }
{
    match *call {
        Call::Malloc { name, size } => put_two(text, b'm', name, size),
        Call::Calloc { name, n, size } => put_three(text, b'c', name, n, size),
        Call::Realloc { name, size } => put_two(text, b'r', name, size),
        Call::Align { name, align, size } => put_three(text, b'a', name, align, size),
        Call::Free { name } => {
            let end = text.len();
            let end = put_number(text, end, u64::from(name));
            put_letter(text, end, b'f')
        }
        Call::Post { name, tray } => put_two(text, b'p', name, u64::from(tray)),
        Call::Take { name, tray } => put_two(text, b't', name, u64::from(tray)),
        Call::Exit => {
            let end = text.len();
            put_letter(text, end, b'x')
        }
    }
}

/// Puts a line at the end.
fn put_line(text: &mut [u8], line: &Line) -> usize
    requires { 96 ≤ length text.old }
    ensures below { result ≤ length text.old }
    ensures written { drop result text.new ≡ spelling_of line.now }
{
    let end = put_call(text, &line.call);
    let end = put_letter(text, end, b' ');
    put_digits(text, end, u64::from(line.thread))
}

/// Puts the one spelling of a line at the end, without its newline. Want of memory comes only where the room that is left is
/// less, and leaves the bytes as they were.
pub fn append_line(out: &mut Vec<u8>, line: &Line) -> Result<(), NoMemory>
    ensures ok { OnOk result (out.new.items ≡ out.old.items ++ spelling_of line.now) }
    ensures err { OnErr result (out.new.items ≡ out.old.items) }
    ensures full { OnErr result
        (vec_capacity out.old < length out.old.items + length (spelling_of line.now)) }
{
    let mut text = [0u8; 96];
    let start = put_line(&mut text, line);
    out.extend_from_slice(&text[start..])?;
    Ok(())
}

/// The header of a version, with its newline.
fn header_line(version: u8) -> &'static [u8]
    ensures { result.now ≡ header version ++ codes "\n" }
{
    if version == 1 {
        b"ptmtrace 1\n".as_slice()
    } else {
        b"ptmtrace 2\n".as_slice()
    }
}

/// The one spelling of a trace: the header of its version, and a line for each line.
pub fn print_trace(alloc: Global, t: &Trace) -> Result<Vec<u8>, NoMemory>
    ensures spelled { IfOk result (λ text. text.items ≡ spelling t.now.version t.now.lines) }

    // What is written is read again as that trace.
    ensures again { IfOk result (λ text. Allows t.now.version t.now.lines →
        reading_of text.items ≡ whole t.now.version t.now.lines) }
{
    let mut text = Vec::from_slice(alloc, header_line(t.version))?;
    for index in 0..t.lines.len() {
        append_line(&mut text, &t.lines.get(index))?;
        text.push(b'\n')?;
    }
    Ok(text)
}
