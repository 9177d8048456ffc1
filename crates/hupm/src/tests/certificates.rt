//! Runs that check a certificate.

use super::{ends, words_of};
use hu_io::{MemoryFiles, MemorySink};
use hu_run::run;
use std::alloc::Global;
use std::process::Abort;
use std::test::Fail;

const RECORDS: &str = "1 2:5:5 0\n";

const ITS_ANSWER: &str = "1 #UTIL: 5\n1 2 #UTIL: 5\n";

/// The text of a certificate over these records at a minimum of 5, and how the run ends.
const CERTIFICATES: [(&str, u8, &str, &str); 11] = [
    (
        "cert 5\norder 1 2\n:0:1 2=0\n1:5:2\n1 2:5:\n",
        0,
        ITS_ANSWER,
        "",
    ),
    (
        "cert 5\norder 2 1\n:0:2=5 1\n1:5:\n",
        6,
        "",
        "hupm: cert:3: bound 5 of item 2 reaches\n",
    ),
    ("", 6, "", "hupm: cert:1: not of the form\n"),
    (
        "cert 4\norder 1 2\n:0:1 2=0\n1:5:2\n1 2:5:\n",
        6,
        "",
        "hupm: cert:1: minimum 4 stated\n",
    ),
    (
        "cert 5\norder 1\n:0:1\n1:5:\n",
        6,
        "",
        "hupm: cert:2: wrong order of items\n",
    ),
    (
        "cert 5\norder 1 2\n:0:1 2=0\n2:5:\n1 2:5:\n",
        6,
        "",
        "hupm: cert:4: wrong prefix\n",
    ),
    (
        "cert 5\norder 1 2\n:0:1 2=0\n1:6:2\n1 2:5:\n",
        6,
        "",
        "hupm: cert:4: utility 6 but sum 5\n",
    ),
    (
        "cert 5\norder 1 2\n:0:1 2=0\n1:5:1\n1 2:5:\n",
        6,
        "",
        "hupm: cert:4: item 1 out of order\n",
    ),
    (
        "cert 5\norder 1 2\n:0:1\n1:5:2\n1 2:5:\n",
        6,
        "",
        "hupm: cert:3: item 2 left out\n",
    ),
    (
        "cert 5\norder 1 2\n:0:1 2=1\n1:5:2\n1 2:5:\n",
        6,
        "",
        "hupm: cert:3: bound 1 of item 2 but sum 0\n",
    ),
    (
        "cert 5\norder 1 2\n:0:1 2=0\n1:5:2\n",
        6,
        "",
        "hupm: cert:5: not of the form\n",
    ),
];

/// The words after `check`, and how a run ends that meets a missing or a refused file.
const OTHER_ENDS: [(&str, u8, &str); 3] = [
    ("5 missing f", 3, "hupm: read failed: missing\n"),
    ("5 cert missing", 3, "hupm: read failed: missing\n"),
    ("5 missing cert", 1, "hupm: cert:1: not three parts\n"),
];

/// The records and a certificate.
fn files_with(alloc: Global, text: &str) -> Result<MemoryFiles, Fail> {
    let mut files = MemoryFiles::new(alloc);
    files.add("f", RECORDS.as_bytes())?;
    files.add("cert", text.as_bytes())?;
    Ok(files)
}

#[test]
fn a_certificate_made_and_checked(rt: HostRuntime) -> Result<(), Fail> {
    let words = words_of(rt.alloc(), "certify", "5 f")?;
    let mut files = files_with(rt.alloc(), "")?;
    let made = "cert 5\norder 1 2\n:0:1 2=0\n1:5:2\n1 2:5:\n";
    ends(&rt, rt.alloc(), &words, &mut files, (0, made, ""))?;
    let words = words_of(rt.alloc(), "check", "5 cert f")?;
    let mut files = files_with(rt.alloc(), made)?;
    ends(&rt, rt.alloc(), &words, &mut files, (0, ITS_ANSWER, ""))
}

#[test]
fn certificates(rt: HostRuntime) -> Result<(), Fail> {
    for (text, status, written, told) in &CERTIFICATES {
        let words = words_of(rt.alloc(), "check", "5 cert f")?;
        let mut files = files_with(rt.alloc(), *text)?;
        ends(
            &rt,
            rt.alloc(),
            &words,
            &mut files,
            (*status, *written, *told),
        )?;
    }
    for (rest, status, told) in &OTHER_ENDS {
        let words = words_of(rt.alloc(), "check", *rest)?;
        let mut files = files_with(rt.alloc(), "cert 5\n")?;
        ends(&rt, rt.alloc(), &words, &mut files, (*status, "", *told))?;
    }
    Ok(())
}

#[test]
fn a_certificate_too_long(rt: HostRuntime) -> Result<(), Fail> {
    let words = words_of(rt.alloc(), "check", "5 cert f")?;
    let text = vec![in rt.alloc(); b'0'; 268_435_457]?;
    let mut files = MemoryFiles::new(rt.alloc());
    files.add("f", RECORDS.as_bytes())?;
    files.add("cert", &text)?;
    let told = "hupm: cert:1: certificate too long\n";
    ends(&rt, rt.alloc(), &words, &mut files, (6, "", told))
}

/// What a byte of a certificate is changed to.
const BYTES: [u8; 16] = *b"0123456789 :=-\nx";

/// Asserts that a certificate that is accepted gives the answer of the records, and one that isn't gives nothing.
fn gives_the_answer_or_nothing(rt: &impl Abort, alloc: Global, text: &[u8]) -> Result<(), Fail> {
    let words = words_of(alloc, "check", "5 cert f")?;
    let mut files = MemoryFiles::new(alloc);
    files.add("f", RECORDS.as_bytes())?;
    files.add("cert", text)?;
    let mut out = MemorySink::new(alloc, 100)?;
    let mut err = MemorySink::new(alloc, 100)?;
    let status = run(alloc, &words, &mut files, &mut out, &mut err);
    let answer = if status == 0 { ITS_ANSWER } else { "" };
    assert!(rt; status == 0 || status == 6);
    assert_eq!(rt; out.bytes(), answer.as_bytes());
    Ok(())
}

#[test]
fn certificates_with_a_byte_changed(rt: HostRuntime) -> Result<(), Fail> {
    let (made, ..) = CERTIFICATES[0];
    for at in 0..made.len() {
        for byte in BYTES {
            let mut text = Vec::new(rt.alloc());
            text.extend_from_slice(made.as_bytes())?;
            if let Some(place) = text.get_mut(at) {
                *place = byte;
            }
            gives_the_answer_or_nothing(&rt, rt.alloc(), &text)?;
        }
    }
    Ok(())
}
