//! Words of 16 bytes, in parts and pages.

use part_words::{Word, Words};
use std::test::Fail;

/// A word that isn't of zeros before it is written.
#[derive(Clone, Copy, Debug, PartialEq, Eq)]
struct Mark {
    number: u64,
}

impl Word for Mark {
    ghost UNWRITTEN = { record { number = 7 } };

    const UNWRITTEN: Mark = Mark { number: 7 };

    fn is_unwritten(&self) -> bool {
        self.number == 7
    }
}

#[test]
fn words_of_two_parts(rt: HostRuntime) -> Result<(), Fail> {
    let mut words: Words<Mark, 16> = Words::new(rt.alloc(), 4096, 1024);
    words.open(rt.alloc(), 4096, 64)?;
    words.open(rt.alloc(), 5120, 32)?;
    words.set(5136, Mark { number: 9 });
    assert_eq!(rt; words.get(4144).number, 7);
    assert_eq!(rt; words.get(5136).number, 9);
    Ok(())
}

/// A page has 256 bytes: the third one is written to first, then the first.
#[test]
fn words_of_pages_in_the_order_of_their_first_use(rt: HostRuntime) -> Result<(), Fail> {
    let mut words: Words<Mark, 16> = Words::new(rt.alloc(), 4096, 4096);
    words.open(rt.alloc(), 4096, 992)?;
    words.set(4096 + 512, Mark { number: 9 });
    words.set(4096 + 240, Mark { number: 8 });
    words.open(rt.alloc(), 4096, 2048)?;
    assert_eq!(rt; words.get(4096 + 512).number, 9);
    assert_eq!(rt; words.get(4096 + 528).number, 7);
    assert_eq!(rt; words.get(4096 + 240).number, 8);
    assert_eq!(rt; words.get(4096).number, 7);
    assert_eq!(rt; words.get(4096 + 256).number, 7);
    assert_eq!(rt; words.get(4096 + 2032).number, 7);
    Ok(())
}

/// A page's first word is alone, until a second one is written while it stands.
#[test]
fn words_of_a_page_one_after_another_and_side_by_side(rt: HostRuntime) -> Result<(), Fail> {
    let mut words: Words<Mark, 16> = Words::new(rt.alloc(), 4096, 4096);
    words.open(rt.alloc(), 4096, 1024)?;
    words.set(4096 + 16, Mark { number: 9 });
    words.set(4096 + 512, Mark { number: 6 });
    words.set(4096 + 16, Mark { number: 7 });
    words.set(4096 + 48, Mark { number: 8 });
    assert_eq!(rt; words.get(4096 + 16).number, 7);
    assert_eq!(rt; words.get(4096 + 48).number, 8);
    words.set(4096 + 240, Mark { number: 5 });
    assert_eq!(rt; words.get(4096 + 16).number, 7);
    assert_eq!(rt; words.get(4096 + 48).number, 8);
    assert_eq!(rt; words.get(4096 + 240).number, 5);
    assert_eq!(rt; words.get(4096 + 512).number, 6);
    Ok(())
}

/// A page gets a second word, which goes again, and then the first: other pages come into the slots that it had, and into theirs it.
#[test]
fn words_of_pages_in_slots_that_others_had(rt: HostRuntime) -> Result<(), Fail> {
    let mut words: Words<Mark, 16> = Words::new(rt.alloc(), 4096, 4096);
    words.open(rt.alloc(), 4096, 1024)?;
    words.set(4096 + 16, Mark { number: 9 });
    words.set(4096 + 48, Mark { number: 8 });
    words.set(4096 + 256, Mark { number: 6 });
    words.set(4096 + 16, Mark { number: 7 });
    assert_eq!(rt; words.get(4096 + 16).number, 7);
    assert_eq!(rt; words.get(4096 + 48).number, 8);
    words.set(4096 + 272, Mark { number: 5 });
    words.set(4096 + 48, Mark { number: 7 });
    words.set(4096 + 512, Mark { number: 4 });
    words.set(4096 + 768, Mark { number: 3 });
    words.set(4096 + 784, Mark { number: 2 });
    assert_eq!(rt; words.get(4096 + 16).number, 7);
    assert_eq!(rt; words.get(4096 + 48).number, 7);
    assert_eq!(rt; words.get(4096 + 256).number, 6);
    assert_eq!(rt; words.get(4096 + 272).number, 5);
    assert_eq!(rt; words.get(4096 + 304).number, 7);
    assert_eq!(rt; words.get(4096 + 512).number, 4);
    assert_eq!(rt; words.get(4096 + 768).number, 3);
    assert_eq!(rt; words.get(4096 + 784).number, 2);
    assert_eq!(rt; words.get(4096 + 816).number, 7);
    Ok(())
}

/// The same in pages of 64 words: a page's last word is alone there for a while.
#[test]
fn words_of_long_pages_in_slots_that_others_had(rt: HostRuntime) -> Result<(), Fail> {
    let mut words: Words<Mark, 64> = Words::new(rt.alloc(), 4096, 4096);
    words.open(rt.alloc(), 4096, 3072)?;
    words.set(4096 + 256, Mark { number: 9 });
    words.set(4096 + 1008, Mark { number: 8 });
    words.set(4096 + 1024, Mark { number: 6 });
    words.set(4096 + 256, Mark { number: 7 });
    assert_eq!(rt; words.get(4096 + 256).number, 7);
    assert_eq!(rt; words.get(4096 + 1008).number, 8);
    words.set(4096 + 1280, Mark { number: 5 });
    words.set(4096 + 1008, Mark { number: 7 });
    words.set(4096 + 2048, Mark { number: 4 });
    assert_eq!(rt; words.get(4096 + 256).number, 7);
    assert_eq!(rt; words.get(4096 + 1008).number, 7);
    assert_eq!(rt; words.get(4096 + 1024).number, 6);
    assert_eq!(rt; words.get(4096 + 1280).number, 5);
    assert_eq!(rt; words.get(4096 + 1264).number, 7);
    assert_eq!(rt; words.get(4096 + 2048).number, 4);
    assert_eq!(rt; words.get(4096 + 2304).number, 7);
    Ok(())
}
