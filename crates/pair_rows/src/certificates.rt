// Texts of certificates.
use certificate_text::{CertError, read_cert, write_cert};
use stack_certificate::{FunctionFact, LinkKind, SiteFact};
use std::alloc::{AllocError, Global};

// A pair of functions, the second of which calls the first at a linked site, with one more site of each other kind.
const EXAMPLE: &[u8] = b"capriccio certificate 1
chunk 64
max-path 32
functions 2
function 4104 16 16 12 16 0 4
function 4168 37 16 12 16
sites 3
site 0 linked 16
site 7 plain
site 4294967295 spawn 32
";

// Checks whether these are the facts of the example's functions.
fn are_functions(facts: &[FunctionFact]) -> bool {
    let [first, second] = facts else {
        return false;
    };
    first.entry == 4104
        && first.words == 16
        && first.frame == 16
        && first.ra == 12
        && first.bound == 16
        && first.places.as_slice() == [0, 4].as_slice()
        && second.words == 37
        && second.places.is_empty()
}

// Checks whether these are the facts of the example's sites.
fn are_sites(facts: &[SiteFact]) -> bool {
    let [linked, plain, spawned] = facts else {
        return false;
    };
    linked.number == 0
        && linked.kind == LinkKind::Linked { need: 16 }
        && plain.kind == LinkKind::Plain
        && spawned.number == 4_294_967_295
        && spawned.kind == LinkKind::Spawned { need: 32 }
}

// Checks whether the example is read with these values.
fn is_read(alloc: Global) -> bool {
    match read_cert(alloc, EXAMPLE) {
        Ok(certificate) => {
            let same = certificate.chunk == 64
                && certificate.max_path == 32
                && are_functions(certificate.functions.as_slice())
                && are_sites(certificate.sites.as_slice());
            drop(certificate);
            same
        }
        Err(_) => false,
    }
}

// Checks whether a text is read, and written as the same text.
fn comes_back(alloc: Global, text: &[u8]) -> bool {
    match read_cert(alloc, text) {
        Ok(certificate) => {
            let same = is_written(write_cert(alloc, &certificate), text);
            drop(certificate);
            same
        }
        Err(_) => false,
    }
}

fn is_written(written: Result<Vec<u8>, AllocError>, text: &[u8]) -> bool {
    match written {
        Ok(written) => written.as_slice() == text,
        Err(_) => false,
    }
}

// Returns the number of the first refused line of a text, or 0.
fn refused_line(alloc: Global, text: &[u8]) -> u32 {
    match read_cert(alloc, text) {
        Ok(certificate) => {
            drop(certificate);
            0
        }
        Err(CertError::Line { number }) => number,
        Err(CertError::Memory) => 0,
    }
}

// Texts whose first line without the format has that number. The longer ones are modified certificates of whole
// programs.
const REFUSED: &[(&[u8], u32)] = &[
    (b"", 1),
    (b"capriccio certificate 1", 1),
    (
        b"capriccio certificate 5\nchunk 256\nmax-path 240\nfunctions 0\nsites 0\n",
        1,
    ),
    (b"capriccio certificate 1\n", 2),
    (b"capriccio certificate 1\nchunk 4294967296\n", 2),
    (b"capriccio certificate 1\nchunk 64\nmax-path 032\n", 3),
    (
        b"capriccio certificate 1\nchunk 64\nmax-path 32\nmax-path 32\nfunctions 0\nsites 0\n",
        4,
    ),
    (
        b"capriccio certificate 1\nchunk 608\nmax-path 580\nfunctions73\nsites 0\n",
        4,
    ),
    (
        b"capriccio certificate 1\nchunk 64\nmax-path 32\nfunctions 4097\n",
        4,
    ),
    (
        b"capriccio certificate 1\nchunk 64\nmax-path 32\nfunctions 5\r\n",
        4,
    ),
    (
        b"capriccio certificate 1\nchunk 80\nmax-path 33\nfunctions 1\nf2nction 4104 30 32 0 32 16\nsites 0\n",
        5,
    ),
    (
        b"capriccio certificate 1\nchunk 1024\nmax-path 496\nfunctions 0\nfunction 4104 93 32 28 32 0\nsites 0\n",
        5,
    ),
    (
        b"capriccio certificate 1\nchunk 64\nmax-path 32\nfunctions 1\nfunction 1 2 3 4\nsites 0\n",
        5,
    ),
    (
        b"capriccio certificate 1\nchunk 64\nmax-path 32\nfunctions 1\nfunction 1 2 3 4 5 \nsites 0\n",
        5,
    ),
    (
        b"capriccio certificate 1\nchunk 64\nmax-path 32\nfunctions 0\nsites 65536\n",
        5,
    ),
    (
        b"capriccio certificate 1\nchunk 64\nmax-path 32\nfunctions 0\nsites 1\nsite 0 linked\n",
        6,
    ),
    (
        b"capriccio certificate 1\nchunk 64\nmax-path 32\nfunctions 0\nsites 1\nsite 0 spawn 5",
        6,
    ),
    (
        b"capriccio certificate 1\nchunk 64\nmax-path 32\nfunctions 0\nsites 2\nsite 9 plain\nsite 9 plain\n",
        7,
    ),
    (
        b"capriccio certificate 1\nchunk 64\nmax-path 32\nfunctions 0\nsites 2\nsite 4294967295 plain\n",
        7,
    ),
    (
        b"capriccio certificate 1\nchunk 64\nmax-path 32\nfunctions 0\nsites 1\nsite 9 plain\n\n",
        7,
    ),
];

// Checks whether the first such line of each text is named.
fn all_are_refused(alloc: Global, rows: &[(&[u8], u32)]) -> bool {
    for (text, number) in rows {
        if refused_line(alloc, text) != *number {
            return false;
        }
    }
    true
}

// Appends a part to a text `times` times. Returns `false` if memory runs out.
fn put(text: &mut Vec<u8>, part: &[u8], times: u32) -> bool {
    for _ in 0..times {
        if matches!(text.extend_from_slice(part), Err(_)) {
            return false;
        }
    }
    true
}

// Appends a function with a thousand places.
fn put_function(text: &mut Vec<u8>) -> bool {
    put(text, b"function 4104 16 16 12 16", 1) && put(text, b" 0", 1_010) && put(text, b"\n", 1)
}

fn put_functions(text: &mut Vec<u8>) -> bool {
    for _ in 0..4_096 {
        if !put_function(text) {
            return false;
        }
    }
    true
}

// Checks whether a text of eight megabytes is read and written again.
fn a_large_text_comes_back(alloc: Global) -> bool {
    let head = b"capriccio certificate 1\nchunk 64\nmax-path 32\nfunctions 4096\n";
    let mut text = Vec::new(alloc);
    let is_whole = put(&mut text, head, 1)
        && put_functions(&mut text)
        && put(&mut text, b"sites 0\n", 1);
    let back = comes_back(alloc, &text);
    drop(text);
    is_whole && back
}

#[test]
fn certificates(rt: HostRuntime) {
    let alloc = rt.alloc();
    assert!(rt; all_are_refused(alloc, REFUSED) && is_read(alloc) && comes_back(alloc, EXAMPLE));
}

#[test]
fn a_large_certificate(rt: HostRuntime) {
    assert!(rt; a_large_text_comes_back(rt.alloc()));
}
