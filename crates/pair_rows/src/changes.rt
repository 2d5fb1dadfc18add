// A pair with some changes, and the checker's answer on it.

use crate::pairs::{Of, Pair, pair_of};
use accepted_pairs::Accepted;
use c_scope::read_program;
use c_tree::Program;
use cap_word::Words;
use certificate_check::{CheckError, check};
use certificate_text::read_cert;
use stack_certificate::Certificate;
use stack_image::Image;
use std::alloc::{AllocError, Global};

/// A list of words of an image.
#[derive(Clone, Copy, PartialEq, Eq)]
pub(crate) enum List {
    Code,
    Globals,
    Tables,
    Entries,
}

/// One thing that is changed in a pair.
#[derive(Clone, Copy)]
pub(crate) enum Change {
    /// The certificate's line of this number, from 1, is this.
    Line(usize, &'static [u8]),
    /// The certificate has no line of this number.
    NoLine(usize),
    /// The word at this index of a list is another one.
    Word(List, usize, u32),
    /// A list has one more word at its end.
    More(List, u32),
    /// A list is cut to this number of words.
    Cut(List, usize),
    /// A list is padded with words 0 to this number of words.
    Padded(List, usize),
}

/// The checker's answer on a pair.
#[derive(Clone, Copy, PartialEq, Eq)]
pub(crate) enum Answer {
    Accepted,
    /// The rule, the function and the index that fail first.
    Rejected(u32, u32, u32),
    /// The source or the certificate can't be read.
    Unread,
}

/// Returns the checker's answer on a pair with these changes.
pub(crate) fn check_changed(alloc: Global, of: Of, changes: &[Change]) -> Answer {
    let pair = pair_of(of);
    match image_of(alloc, &pair, changes) {
        Ok(image) => check_image(alloc, &pair, changes, image),
        Err(_) => Answer::Unread,
    }
}

fn check_image(alloc: Global, pair: &Pair, changes: &[Change], image: Image) -> Answer {
    match certificate_of(alloc, pair, changes) {
        Some(certificate) => check_pair(alloc, pair, image, certificate),
        None => {
            drop(image);
            Answer::Unread
        }
    }
}

fn check_pair(alloc: Global, pair: &Pair, image: Image, certificate: Certificate) -> Answer {
    match program_of(alloc, pair.source) {
        Some(program) => answer_of(alloc, checked(alloc, program, image, certificate), pair),
        None => {
            drop(image);
            drop(certificate);
            Answer::Unread
        }
    }
}

// Calls the checker. It has no clauses, so that proof search in its callers doesn't try those of `check`.
fn checked(
    alloc: Global,
    program: Program,
    image: Image,
    certificate: Certificate,
) -> Result<Accepted, CheckError> {
    check(alloc, program, image, certificate)
}

// Returns the answer. If a pair is rejected, the values that are returned are checked once more, and the answer has to
// be the same.
fn answer_of(alloc: Global, found: Result<Accepted, CheckError>, pair: &Pair) -> Answer {
    let answer = answer_told(&found, pair);
    match checked_again(alloc, found) {
        None => answer,
        Some(again) => {
            let same = answer_told(&again, pair) == answer;
            drop(again);
            if same { answer } else { Answer::Unread }
        }
    }
}

// Returns the checker's answer on the three values that it returned with a rejected pair.
fn checked_again(
    alloc: Global,
    found: Result<Accepted, CheckError>,
) -> Option<Result<Accepted, CheckError>> {
    match found {
        Ok(accepted) => {
            drop(accepted);
            None
        }
        Err(
            CheckError::Rejected {
                program,
                image,
                certificate,
                ..
            },
        ) => Some(checked(alloc, program, image, certificate)),
        Err(
            CheckError::Memory {
                program,
                image,
                certificate,
            },
        ) => {
            drop(program);
            drop(image);
            drop(certificate);
            None
        }
    }
}

fn answer_told(found: &Result<Accepted, CheckError>, pair: &Pair) -> Answer {
    match found {
        Ok(accepted) => told(accepted, pair),
        Err(
            CheckError::Rejected {
                rule,
                function,
                index,
                ..
            },
        ) => Answer::Rejected(*rule, *function, *index),
        Err(CheckError::Memory { .. }) => Answer::Unread,
    }
}

// Returns the certificate of a pair with these changes, if it can be read.
fn certificate_of(alloc: Global, pair: &Pair, changes: &[Change]) -> Option<Certificate> {
    match text_of(alloc, pair, changes) {
        Ok(text) => certificate_in(alloc, &text),
        Err(_) => None,
    }
}

/// Returns the certificate of a text, if it is one.
pub(crate) fn certificate_in(alloc: Global, text: &[u8]) -> Option<Certificate> {
    match read_cert(alloc, text) {
        Ok(certificate) => Some(certificate),
        Err(_) => None,
    }
}

/// Returns the program of a source, if it is one.
pub(crate) fn program_of(alloc: Global, source: &[u8]) -> Option<Program> {
    if source.len() > 1_048_576 {
        return None;
    }
    match read_program(alloc, source) {
        Ok(program) => Some(program),
        Err(_) => None,
    }
}

// Checks that an accepted program returns what was passed.
fn told(accepted: &Accepted, pair: &Pair) -> Answer {
    if accepted.image().globals.as_slice() == pair.globals
        && accepted.certificate().functions.len() == accepted.program().functions().len()
        && accepted.flat().functions().len() == accepted.program().functions().len()
    {
        Answer::Accepted
    } else {
        Answer::Unread
    }
}

/// Returns the image of a pair with these changes.
pub(crate) fn image_of(
    alloc: Global,
    pair: &Pair,
    changes: &[Change],
) -> Result<Image, AllocError> {
    Ok(Image {
        code: words_of(alloc, pair.code, List::Code, changes)?,
        globals: words_of(alloc, pair.globals, List::Globals, changes)?,
        tables: words_of(alloc, pair.tables, List::Tables, changes)?,
        entries: words_of(alloc, pair.entries, List::Entries, changes)?,
    })
}

fn words_of(
    alloc: Global,
    words: &[u32],
    list: List,
    changes: &[Change],
) -> Result<Words, AllocError> {
    let mut words = Vec::from_slice(alloc, words)?;
    for change in changes {
        change_words(&mut words, list, *change)?;
    }
    Ok(Words::new(words))
}

fn change_words(words: &mut Vec<u32>, list: List, change: Change) -> Result<(), AllocError> {
    match change {
        Change::Word(of, index, value) if of == list => {
            if let Some(word) = words.get_mut(index) {
                *word = value;
            }
        }
        Change::More(of, word) if of == list => words.push(word)?,
        Change::Cut(of, count) if of == list => words.truncate(count),
        Change::Padded(of, count) if of == list => {
            for _ in words.len()..count {
                words.push(0)?;
            }
        }
        _ => {}
    }
    Ok(())
}

/// Returns the text of a pair's certificate with these changes.
pub(crate) fn text_of(
    alloc: Global,
    pair: &Pair,
    changes: &[Change],
) -> Result<Vec<u8>, AllocError> {
    let mut text = Vec::new(alloc);
    for k in 0..pair.certificate.len() {
        if let Some(line) = line_of(pair.certificate[k], k + 1, changes) {
            text.extend_from_slice(line)?;
            text.push(b'\n')?;
        }
    }
    Ok(text)
}

// Returns the line of this number, if there is one.
fn line_of<'a>(line: &'a [u8], here: usize, changes: &[Change]) -> Option<&'a [u8]> {
    let mut line = Some(line);
    for change in changes {
        match *change {
            Change::Line(number, text) if number == here => line = Some(text),
            Change::NoLine(number) if number == here => line = None,
            _ => {}
        }
    }
    line
}
