//! The words of a run.
use crate::program::planned::{Planned, assert_text};
use zarrs_program::words;

// The words behind the name, each in angle brackets; or the variant and the text of the refusal.
fn said(planned: &Planned<'_>) -> Option<String> {
    match words(planned) {
        Ok(words) => {
            let mut text = String::new(planned.alloc);
            for word in words.iter() {
                write!(text, "<{word}>").ok()?;
            }
            Some(text)
        }
        Err(fault) => format!(in planned.alloc; "{fault:?}: {fault}").ok(),
    }
}

const NO_TEXT: &str = "NotText: a word is not UTF-8";

// The words of a process, which of them is no text, and what is answered.
const WORDS: &[(&[&str], Option<usize>, &str)] = &[
    (&[], None, ""),
    (&["zarrs"], None, ""),
    (&["zarrs", "tree", "/"], None, "<tree></>"),
    (&["zarrs", "", "x y"], None, "<><x y>"),
    (&["", "tree"], None, "<tree>"),
    (&["zarrs", "\u{e9}"], None, "<\u{e9}>"),
    (&["zarrs", "tree", "/"], Some(2), NO_TEXT),
    (&["zarrs", "tree"], Some(1), NO_TEXT),
    (&["zarrs", "tree"], Some(0), NO_TEXT),
];

#[test]
fn words_stand_behind_the_name(rt: HostRuntime) {
    for (words, odd, wanted) in WORDS {
        let planned = Planned {
            alloc: rt.alloc(),
            words: *words,
            odd: *odd,
        };
        let found = said(&planned).expect(&rt, "memory");
        assert_text(&rt, "words", found.as_str(), wanted);
    }
}

#[test]
fn a_word_has_any_length(rt: HostRuntime) {
    let long = "d/".repeat(rt.alloc(), 3000).expect(&rt, "memory");
    let planned = Planned {
        alloc: rt.alloc(),
        words: &["zarrs", long.as_str()],
        odd: None,
    };
    let wanted = format!(in rt.alloc(); "<{long}>").expect(&rt, "memory");
    let found = said(&planned).expect(&rt, "memory");
    assert_text(&rt, "a long word", found.as_str(), wanted.as_str());
}
