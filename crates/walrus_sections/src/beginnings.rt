//! What bytes begin as that don't begin as a WebAssembly module.

ghost use Rattle.walrus_sections.specs.Beginnings.{
  AnswersBeginning,
  Begins,
  BeginsAs,
  HasOneBeginning,
  HasVersion,
  IsBeginning,
  IsText,
  OpensText,
  Stands,
  beginning_number,
  beginning_text,
  header,
  is_space,
};
ghost use Rattle.std.specs.Bool.{Decides};
ghost use Rattle.std.specs.Prelude.{◌≡◌};

/// What bytes begin as that don't begin as a module, which is by the eight bytes of its header: the magic 00 61 73 6D and the version 01 00 00 00
/// (WebAssembly 3.0, section 5.5.17).
#[derive(Clone, Copy, Debug, PartialEq, Eq)]
pub enum Beginning {
    /// There are no bytes.
    Empty,
    /// Fewer than eight bytes, all of which begin a module's header.
    Cut,
    /// What gzip made: 1F 8B.
    Gzip,
    /// A zip archive: 50 4B 03 04, or 50 4B 05 06 where it is empty.
    Zip,
    /// What zstd made: 28 B5 2F FD.
    Zstd,
    /// A program or a library for a processor (ELF): 7F 45 4C 46.
    Elf,
    /// Code of LLVM (bitcode): 42 43 C0 DE, or DE C0 17 0B with a wrapper.
    Bitcode,
    /// WebAssembly in the text form: behind white space stands `(` or `;;`.
    Text,
    /// A component: the magic, version 13 (0D 00) and layer 1 (01 00).
    Component,
    /// The magic and four bytes that are another version.
    OtherVersion,
    /// None of these.
    Other,
}

const HEADER: &[u8] = b"\0asm\x01\0\0\0";

const MAGIC: &[u8] = b"\0asm";

// Whether these bytes stand in front.
fn begins(bytes: &[u8], front: &[u8]) -> bool
    ensures { Decides result (Begins bytes.now front.now) }
{
    bytes.starts_with(front)
}

// Whether the byte is white space of the text form.
fn is_space(byte: u8) -> bool
    ensures { result ≡ is_space byte }
{
    byte == b' ' || (byte == b'\t' || (byte == b'\n' || byte == b'\r'))
}

// Whether such bytes are text that don't begin with white space.
fn opens_text(bytes: &[u8]) -> bool
    ensures { Decides result (OpensText bytes.now) }
{
    begins(bytes, b"(") || begins(bytes, b";;")
}

// Whether the bytes are text, as what stands behind white space shows.
fn is_text(bytes: &[u8]) -> bool
    ensures { Decides result (IsText bytes.now) }
{
    'space: for at in 0..bytes.len() {
        if !is_space(bytes[at]) {
            return opens_text(&bytes[at..]);
        }
    }
    false
}

// Whether they begin as a module's header and end within it.
fn is_cut(bytes: &[u8]) -> bool
    ensures { Decides result (Stands bytes.now Beginning.Cut) }
{
    !bytes.is_empty() && (bytes.len() < HEADER.len() && begins(HEADER, bytes))
}

fn is_zip(bytes: &[u8]) -> bool
    ensures { Decides result (Stands bytes.now Beginning.Zip) }
{
    begins(bytes, b"PK\x03\x04") || begins(bytes, b"PK\x05\x06")
}

fn is_bitcode(bytes: &[u8]) -> bool
    ensures { Decides result (Stands bytes.now Beginning.Bitcode) }
{
    begins(bytes, b"BC\xC0\xDE") || begins(bytes, b"\xDE\xC0\x17\x0B")
}

// Whether the magic and four bytes stand in front.
fn has_version(bytes: &[u8]) -> bool
    ensures { Decides result (HasVersion bytes.now) }
{
    bytes.len() >= HEADER.len() && begins(bytes, MAGIC)
}

// What the bytes begin as, which don't begin as a module.
fn other_beginning(bytes: &[u8]) -> Beginning
    requires { ¬ Begins bytes.now header }
    ensures { IsBeginning bytes.now result }
{
    if bytes.is_empty() {
        return Beginning::Empty;
    }
    if is_cut(bytes) {
        return Beginning::Cut;
    }
    if begins(bytes, b"\x1F\x8B") {
        return Beginning::Gzip;
    }
    if is_zip(bytes) {
        return Beginning::Zip;
    }
    if begins(bytes, b"\x28\xB5\x2F\xFD") {
        return Beginning::Zstd;
    }
    if begins(bytes, b"\x7FELF") {
        return Beginning::Elf;
    }
    if is_bitcode(bytes) {
        return Beginning::Bitcode;
    }
    if is_text(bytes) {
        return Beginning::Text;
    }
    if begins(bytes, b"\0asm\x0D\0\x01\0") {
        return Beginning::Component;
    }
    if has_version(bytes) {
        return Beginning::OtherVersion;
    }
    Beginning::Other
}

/// What the bytes begin as, or none exactly where a module's header stands in front. To any bytes there is one answer.
pub fn beginning_of(bytes: &[u8]) -> Option<Beginning>
    ensures { AnswersBeginning bytes.now result }
{
    if begins(bytes, HEADER) {
        return None;
    }
    Some(other_beginning(bytes))
}

/// What the bytes begin as where they don't begin as a module.
pub fn begins_as(bytes: &[u8]) -> Beginning
    ensures { BeginsAs bytes.now result }
{
    match beginning_of(bytes) {
        Some(beginning) => beginning,
        None => Beginning::Other,
    }
}

/// That no bytes have two answers of [`beginning_of`].
pub fn has_one_beginning()
    ensures { HasOneBeginning }
{}

/// What the bytes begin as, in words.
pub fn beginning_words(beginning: Beginning) -> &'static str
    ensures { result.now ≡ beginning_text beginning }
{
    match beginning {
        Beginning::Empty => "the bytes don't begin as a WebAssembly module: there are none",
        Beginning::Cut =>
            "the bytes don't begin as a WebAssembly module: they end within the header",
        Beginning::Gzip =>
            "the bytes don't begin as a WebAssembly module: they are compressed by gzip",
        Beginning::Zip => "the bytes don't begin as a WebAssembly module: they are a zip archive",
        Beginning::Zstd =>
            "the bytes don't begin as a WebAssembly module: they are compressed by zstd",
        Beginning::Elf => "the bytes don't begin as a WebAssembly module: they are an ELF file",
        Beginning::Bitcode =>
            "the bytes don't begin as a WebAssembly module: they are LLVM bitcode",
        Beginning::Text =>
            "the bytes don't begin as a WebAssembly module: they are WebAssembly text, not binary",
        Beginning::Component =>
            "the bytes don't begin as a WebAssembly module: they are a component, not a module",
        Beginning::OtherVersion =>
            "the bytes don't begin as a WebAssembly module: they have another version",
        Beginning::Other => "the bytes don't begin as a WebAssembly module",
    }
}

/// The number of each beginning: 1 to 10 in their order, and 0 for `Other`.
pub fn beginning_number(beginning: Beginning) -> u32
    ensures { result ≡ beginning_number beginning }
{
    match beginning {
        Beginning::Other => 0,
        Beginning::Empty => 1,
        Beginning::Cut => 2,
        Beginning::Gzip => 3,
        Beginning::Zip => 4,
        Beginning::Zstd => 5,
        Beginning::Elf => 6,
        Beginning::Bitcode => 7,
        Beginning::Text => 8,
        Beginning::Component => 9,
        Beginning::OtherVersion => 10,
    }
}
