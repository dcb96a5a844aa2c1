//! The words that are taken are those that clap takes, the kit's reader of command lines, as words of the same command.
//! Values are numbers of their ranges here, so that only the form of the words decides.

use chunk_tags::NoMemory;
use clap::{Arg, ArgAction, Command};
use command_words::read_words;
use std::alloc::Global;
use std::test::Fail;

const SETTINGS: [&str; 15] = [
    "mxfast",
    "trim-threshold",
    "top-pad",
    "mmap-threshold",
    "mmap-max",
    "arena-test",
    "arena-max",
    "tcache-count",
    "tcache-max",
    "cores",
    "records",
    "heap-max",
    "heaps",
    "main-max",
    "polls",
];

/// Lists of words behind the program's name, each word behind a space.
const LISTS: [&str; 42] = [
    "",
    " --mxfast 0",
    " --mxfast=0",
    " --trim-threshold 1 --top-pad 2 --mmap-threshold 3 --mmap-max 4",
    " --arena-test=1 --arena-max=2 --tcache-count 3 --tcache-max 4",
    " --cores 1 --records 2 --heap-max 65536 --heaps 4 --main-max 4096 --polls 6",
    " --polls 6 --cores=1 --mxfast 2",
    " --threads",
    " --summary",
    " --mxfast 0 --threads",
    " --",
    " --mxfast 0 --",
    " -- --mxfast=0",
    " -- --",
    " --mxfast 0 -- 1",
    " --mxfast -- 0",
    " --mxfast",
    " --cores --mxfast 0",
    " --mxfast --cores",
    " --mxfast -1",
    " --mxfast 0 --mxfast 0",
    " --mxfast=0 --mxfast 0",
    " --cores 1 --mxfast 0 --cores=1",
    " --threads --threads",
    " --threads=1",
    " --threads=",
    " --threads 1",
    " --summary --summary",
    " trace",
    " ",
    " -",
    " ---",
    " ---mxfast 0",
    " --=0",
    " -m",
    " -mxfast 0",
    " -h",
    " --help",
    " --version",
    " --mx 0",
    " --mxfas=0",
    " --MXFAST 0",
];

/// Whether clap takes the words.
fn clap_takes(alloc: Global, words: &[String]) -> Result<bool, clap::Error> {
    let mut command = Command::new(alloc, "ptmreplay");
    for name in SETTINGS {
        command = command.arg(Arg::new(alloc, name).long(name).action(ArgAction::Set))?;
    }
    for name in ["threads", "summary"] {
        command = command.arg(Arg::new(alloc, name).long(name).action(ArgAction::SetTrue))?;
    }
    Ok(command.try_get_matches_from(words).is_ok())
}

/// The words of a list.
fn words_of(alloc: Global, list: &str) -> Result<Vec<String>, NoMemory> {
    let mut words = Vec::new(alloc);
    for word in list.split(' ') {
        words.push(String::from_str(alloc, word)?)?;
    }
    Ok(words)
}

#[test]
fn clap_agrees(rt: HostRuntime) -> Result<(), Fail> {
    for list in LISTS {
        let words = words_of(rt.alloc(), list)?;
        let taken = clap_takes(rt.alloc(), &words)?;
        assert_eq!(rt; taken, read_words(&words).is_some(), "{list}");
    }
    Ok(())
}
