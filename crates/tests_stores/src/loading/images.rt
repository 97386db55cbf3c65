//! What reading an input and loading an image answer, over readers of bytes and one of a byte a read.
use crate::loading::answers::loaded;
use crate::loading::asserts::assert_text;
use std::io;
use std::io::Read;
use zarrs_load::{load_image, read_whole};

// A reader of one byte a read.
#[derive(Drop)]
struct OneByOne<'a> {
    rest: &'a [u8],
}

impl Read for OneByOne<'_> {
    fn read(&mut self, buf: &mut [u8]) -> io::Result<usize> {
        let ([first, rest @ ..], [slot, ..]) = (self.rest, buf) else {
            return Ok(0);
        };
        *slot = *first;
        self.rest = rest;
        Ok(1)
    }
}

#[test]
fn reads_a_million_times_at_most(rt: HostRuntime) {
    let alloc = rt.alloc();
    for (blanks, answer) in [(999_997, ""), (999_998, "ReadTooLong: input too long")] {
        let mut image = vec![in alloc; b' '; 2 + blanks].expect(&rt, "memory");
        image[0] = b'{';
        image[1] = b'}';
        let mut reader = OneByOne { rest: &image };
        let said = loaded(alloc, &load_image(alloc, &mut reader)).expect(&rt, "memory");
        assert_text(&rt, answer, said.as_str(), answer);
    }
}

#[test]
fn reads_whole_inputs(rt: HostRuntime) {
    let alloc = rt.alloc();
    let mut reader = OneByOne { rest: b"three" };
    let bytes = read_whole(alloc, &mut reader).expect(&rt, "a reader that does not fail");
    assert_eq!(rt; bytes.as_slice(), b"three".as_slice());
}

// Images, and what loading answers.
const IMAGES: &[(&str, &str)] = &[
    (r#"{"b/c":"two","a":"one"}"#, "a one\nb/c two\n"),
    ("{}", ""),
    ("[]", "Image: image is not a JSON object"),
    ("", "Image: image is not a JSON object"),
    (
        r#"{"a//b":1}"#,
        r#"ImageKey("a//b"): bad store key in image: a//b"#,
    ),
    (r#"{"a":1}"#, r#"ImageValue("a"): no text in image at a"#),
    (
        r#"{"b":1,"a//b":1,"a":1}"#,
        r#"ImageValue("a"): no text in image at a"#,
    ),
    (
        r#"{"b":1,"a//b":"x"}"#,
        r#"ImageKey("a//b"): bad store key in image: a//b"#,
    ),
    (
        r#"{"a":1,"a":"x","b":2}"#,
        r#"ImageValue("b"): no text in image at b"#,
    ),
];

#[test]
fn loads_the_texts_of_an_image(rt: HostRuntime) {
    let alloc = rt.alloc();
    for (image, answer) in IMAGES {
        let mut reader = image.as_bytes();
        let said = loaded(alloc, &load_image(alloc, &mut reader)).expect(&rt, "memory");
        assert_text(&rt, image, said.as_str(), answer);
        assert!(rt; reader.is_empty());
    }
}
