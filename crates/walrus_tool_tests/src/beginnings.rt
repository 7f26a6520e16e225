//! The beginnings of bytes, at what each is known by.

use std::test::Fail;
use test_support::{demand, is_text};
use walrus_sections::{Beginning, beginning_of};
use walrus_tools::{Fault, fault_words};

// Whether the bytes begin so.
fn is(bytes: &[u8], wanted: Beginning) -> bool {
    beginning_of(bytes) == Some(wanted)
}

#[test]
fn headers(rt: HostRuntime) {
    assert!(rt; beginning_of(b"\0asm\x01\0\0\0").is_none());
    assert!(rt; beginning_of(b"\0asm\x01\0\0\0\x01").is_none());
    assert!(rt; is(b"", Beginning::Empty));
    assert!(rt; is(b"\0", Beginning::Cut));
    assert!(rt; is(b"\0asm", Beginning::Cut));
    assert!(rt; is(b"\0asm\x01\0\0", Beginning::Cut));
    assert!(rt; is(b"\0asm\x0D\0\x01\0", Beginning::Component));
    assert!(rt; is(b"\0asm\x0D\0\0\0", Beginning::OtherVersion));
    assert!(rt; is(b"\0asm\x02\0\0\0\x01", Beginning::OtherVersion));
    assert!(rt; is(b"\0asm\x02", Beginning::Other));
}

#[test]
fn other_files(rt: HostRuntime) {
    assert!(rt; is(b"\x1F\x8B\x08", Beginning::Gzip));
    assert!(rt; is(b"PK\x03\x04\x14", Beginning::Zip));
    assert!(rt; is(b"PK\x05\x06", Beginning::Zip));
    assert!(rt; is(b"\x28\xB5\x2F\xFD\x04", Beginning::Zstd));
    assert!(rt; is(b"\x7FELF\x02", Beginning::Elf));
    assert!(rt; is(b"BC\xC0\xDE", Beginning::Bitcode));
    assert!(rt; is(b"\xDE\xC0\x17\x0B", Beginning::Bitcode));
    assert!(rt; is(b"PK\x03", Beginning::Other));
    assert!(rt; is(b"hello", Beginning::Other));
}

#[test]
fn text(rt: HostRuntime) {
    assert!(rt; is(b"(module)", Beginning::Text));
    assert!(rt; is(b" \t\r\n(module)", Beginning::Text));
    assert!(rt; is(b"\n;; a comment", Beginning::Text));
    assert!(rt; is(b"; no comment", Beginning::Other));
    assert!(rt; is(b" \n", Beginning::Other));
}

#[test]
fn told(rt: HostRuntime) -> Result<(), Fail> {
    let words = fault_words(rt.alloc(), Fault::Header, b"(module)")?;
    demand(
        is_text(
            words.as_str(),
            "the bytes don't begin as a WebAssembly module: they are WebAssembly text, not binary",
        ),
        "the words of a text",
    )
}
