//! What each kind of words asks.
use crate::asserts::assert_text;
use std::alloc::{AllocError, Global};
use zarrs_cli::{Asked, ConsolidateOptions, Request, Word, parse};

/// The words with these texts.
pub(crate) fn words_of(alloc: Global, texts: &[&str]) -> Result<Vec<String>, AllocError> {
    let mut words = Vec::new(alloc);
    for text in texts {
        words.push(String::from_str(alloc, text)?)?;
    }
    Ok(words)
}

// A request, with its options behind it.
fn request_name(alloc: Global, request: Request) -> Result<String, AllocError> {
    match request {
        Request::Look(word) => name_of(alloc, word),
        Request::Consolidate(options) => change_name(alloc, options),
    }
}

// A consolidation, with its options behind it.
fn change_name(alloc: Global, options: ConsolidateOptions) -> Result<String, AllocError> {
    let mut name = String::from_str(alloc, "Consolidate")?;
    if options.dry_run {
        name.push_str("+dry")?;
    }
    if options.remove {
        name.push_str("+remove")?;
    }
    Ok(name)
}

// A word, with its options behind it.
fn name_of(alloc: Global, word: Word) -> Result<String, AllocError> {
    let Word::Check(options) = word else {
        return format!(in alloc; "{word:?}");
    };
    let mut name = String::from_str(alloc, "Check")?;
    if options.notes {
        name.push_str("+notes")?;
    }
    if options.json {
        name.push_str("+json")?;
    }
    Ok(name)
}

// What the words with these texts ask, as a text.
fn asked(alloc: Global, texts: &[&str]) -> Result<String, AllocError> {
    let words = words_of(alloc, texts)?;
    match parse(&words) {
        Ok(Asked::Help) => String::from_str(alloc, "help"),
        Ok(Asked::Version) => String::from_str(alloc, "version"),
        Ok(Asked::Store(command)) => {
            let word = request_name(alloc, command.request)?;
            let source = command.source;
            let path = command.path;
            format!(in alloc; "{word} {source} {path}")
        }
        Err(fault) => format!(in alloc; "{fault:?}"),
    }
}

// Words, and what they ask.
const ASKED: &[(&[&str], &str)] = &[
    (&["--help"], "help"),
    (&["--version"], "version"),
    (&["tree", "x"], "Tree x /"),
    (&["tree", "x", "/a"], "Tree x /a"),
    (&["tree", "x", "a"], "Tree x a"),
    (&["tree", "x", "-a"], "Tree x -a"),
    (&["tree", "-"], "Tree - /"),
    (&["tree", "-x"], "Tree -x /"),
    (&["tree", "./--x"], "Tree ./--x /"),
    (&["tree", ""], "Tree  /"),
    (&["tree", "--store", "x"], "StoreTree x /"),
    (&["tree", "--store", "-", "/a"], "StoreTree - /a"),
    (&["list", "x"], "List x /"),
    (&["list", "x", "/a"], "List x /a"),
    (&["check", "x"], "Check x /"),
    (&["check", "-", "/a"], "Check - /a"),
    (&["check", "--notes", "x"], "Check+notes x /"),
    (&["check", "--notes", "x", "/a"], "Check+notes x /a"),
    (&["check", "--json", "x"], "Check+json x /"),
    (&["check", "--json", "-", "/a"], "Check+json - /a"),
    (&["check", "--notes", "--json", "x"], "Check+notes+json x /"),
    (
        &["check", "--notes", "--json", "-", "/a"],
        "Check+notes+json - /a",
    ),
    (&["check", "--json", "--notes", "x"], "Check+notes+json x /"),
    (
        &["check", "--json", "--notes", "-", "/a"],
        "Check+notes+json - /a",
    ),
    (&["show", "x"], "Show x /"),
    (&["show", "-", "/a"], "Show - /a"),
    (&["consolidate", "x"], "Consolidate x /"),
    (&["consolidate", "x", "/a"], "Consolidate x /a"),
    (&["consolidate", "--dry-run", "x"], "Consolidate+dry x /"),
    (
        &["consolidate", "--dry-run", "x", "/a"],
        "Consolidate+dry x /a",
    ),
    (&["consolidate", "--remove", "x"], "Consolidate+remove x /"),
    (
        &["consolidate", "--remove", "x", "/a"],
        "Consolidate+remove x /a",
    ),
    (
        &["consolidate", "--dry-run", "--remove", "x"],
        "Consolidate+dry+remove x /",
    ),
    (
        &["consolidate", "--dry-run", "--remove", "x", "/a"],
        "Consolidate+dry+remove x /a",
    ),
    (
        &["consolidate", "--remove", "--dry-run", "x"],
        "Consolidate+dry+remove x /",
    ),
    (
        &["consolidate", "--remove", "--dry-run", "x", "/a"],
        "Consolidate+dry+remove x /a",
    ),
    (&["consolidate", "-"], "Usage"),
    (&["consolidate", "-", "/a"], "Usage"),
    (&["consolidate", "--remove", "-"], "Usage"),
    (&["consolidate", "--dry-run"], "Usage"),
    (&["consolidate", "--remove"], "Usage"),
    (&["consolidate", "--dry-run", "--remove"], "Usage"),
    (&["consolidate", "--remove", "--dry-run"], "Usage"),
    (&["consolidate", "--remove", "--remove", "x"], "Usage"),
    (&["consolidate", "--remove", "--dry-run", "-"], "Usage"),
    (&["consolidate", "x", "--dry-run"], "Usage"),
    (&["consolidate", "--store", "x"], "Usage"),
    (&["consolidate", "--notes", "x", "/"], "Usage"),
    (&["consolidate"], "Usage"),
    (&["show"], "Usage"),
    (&["show", "x", "/", "/"], "Usage"),
    (&["list", "--notes", "x"], "Usage"),
    (&["list", "--store", "x"], "Usage"),
    (&["show", "--store", "x"], "Usage"),
    (&["show", "--help"], "Usage"),
    (&["check", "--notes"], "Usage"),
    (&["check", "--notes", "--json"], "Usage"),
    (&["check", "--json", "--notes"], "Usage"),
    (&["check", "--json", "--json", "x"], "Usage"),
    (&["check", "--json", "x", "--notes"], "Usage"),
    (&["check", "x", "--notes"], "Usage"),
    (&["check", "x", "/a", "--notes"], "Usage"),
    (&["check", "--store"], "Usage"),
    (&["check", "--store", "x"], "Usage"),
    (&["check", "--notes", "--notes", "x"], "Usage"),
    (&["check", "--notes", "--json", "x", "/", "/"], "Usage"),
    (&["tree", "--notes", "x", "/"], "Usage"),
    (&[], "Usage"),
    (&["tree"], "Usage"),
    (&["tree", "--store"], "Usage"),
    (&["tree", "--store", "--store"], "Usage"),
    (&["tree", "--store", "x", "--store"], "Usage"),
    (&["tree", "x", "--store"], "Usage"),
    (&["tree", "--help"], "Usage"),
    (&["tree", "--"], "Usage"),
    (&["tree", "--store", "x", "/", "/"], "Usage"),
    (&["list", "--store", "x", "/"], "Usage"),
    (&["check", "x", "/", "/"], "Usage"),
    (&["x", "tree"], "Usage"),
    (&["--help", "tree"], "Usage"),
    (&["help"], "Usage"),
];

#[test]
fn words_name_a_word_a_source_and_a_path(rt: HostRuntime) {
    for (texts, wanted) in ASKED {
        let found = asked(rt.alloc(), texts).expect(&rt, "memory");
        assert_text(&rt, wanted, found.as_str(), wanted);
    }
}
