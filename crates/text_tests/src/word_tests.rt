//! Words that are read.

use chunk_tags::{Mode, NoMemory, Tunables};
use command_words::{Generated, read_words};
use std::alloc::Global;
use std::test::Fail;

/// These words.
fn words_of(alloc: Global, list: &[&str]) -> Result<Vec<String>, NoMemory> {
    let mut words = Vec::new(alloc);
    for word in list {
        words.push(String::from_str(alloc, word)?)?;
    }
    Ok(words)
}

#[test]
fn words_are_read(rt: HostRuntime) -> Result<(), Fail> {
    let words = words_of(
        rt.alloc(),
        &["ptmreplay", "--gen", "7", "--lines=20", "--top-pad=0"],
    )?;
    let asked = read_words(&words).ok_or("refused")?;
    let generated = Some(Generated { seed: 7, lines: 20 });
    assert_eq!(rt; (asked.mode, asked.generated), (Mode::Serial, generated));
    let mut t = Tunables::defaults(Mode::Serial);
    t.top_pad = 0;
    t.dynamic = false;
    assert_eq!(rt; asked.tunables, t);
    Ok(())
}

#[test]
fn a_word_that_comes_twice_is_refused(rt: HostRuntime) -> Result<(), Fail> {
    let words = words_of(
        rt.alloc(),
        &[
            "ptmreplay",
            "--gen",
            "7",
            "--lines=20",
            "--top-pad=0",
            "--top-pad=0",
        ],
    )?;
    assert_eq!(rt; read_words(&words), None);
    Ok(())
}
