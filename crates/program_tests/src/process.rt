//! The words of a process.

use crate::driving::{Given, MemWords, Words, process_gives};
use engine_tests::texts::SQUARES_EDGES;
use program::WordsFault;
use std::test::Fail;

/// The words of a process or why there are none, and what that gives.
type Case = (MemWords, Given);

const CASES: [Case; 4] = [
    (
        MemWords::Line(&["overlay", "edges", "square", "other"]),
        (0, Words::Text(SQUARES_EDGES), Words::Text("")),
    ),
    (
        MemWords::Line(&["overlay", "edges", "square", "none"]),
        (1, Words::Text(""), Words::Text("overlay: B: cannot read\n")),
    ),
    (
        MemWords::Fault(WordsFault::NoText),
        (
            2,
            Words::Text(""),
            Words::Text("overlay: a word is not UTF-8\n"),
        ),
    ),
    (
        MemWords::Fault(WordsFault::Memory),
        (
            1,
            Words::Text(""),
            Words::Text("overlay: 10 out of memory\n"),
        ),
    ),
];

#[test]
fn does_what_the_words_ask_for(rt: HostRuntime) -> Result<(), Fail> {
    for (words, given) in CASES {
        assert!(rt; process_gives(&rt, words, given), "{}", given.0);
    }
    Ok(())
}
