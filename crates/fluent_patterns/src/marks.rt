//! Where attributes, references, selects and variants stand in an entry.

ghost use Rattle.std.specs.Prelude.{◌≡◌, ◌+◌, ◌<◌, ◌≤◌, IfOk, OnOk, drop, length, slice_index};
ghost use Rattle.fluent_text.specs.Parser.{first, run_len};
ghost use Rattle.fluent_text.specs.Lexical.{is_identifier_byte};
ghost use Rattle.fluent_patterns.specs.Marks as spec;
ghost use Rattle.fluent_patterns.specs.Marks.{marks};
ghost use Rattle.fluent_patterns.specs.ScanView.{scan_view};

use std::alloc::{AllocError, Global};

/// What a mark stands at.
#[derive(Clone, Copy, Drop)]
pub enum What {
    Attribute,
    Reference,
    /// The brace of a select.
    Select,
    Variant,
}

#[derive(Clone, Copy, Drop)]
pub struct Mark {
    pub what: What,
    pub at: usize,
}

/// Where a scan is.
#[derive(Clone, Copy, Drop)]
enum Mode {
    /// In text, where only spaces stand before it on its line.
    LineStart,
    /// In text.
    Words,
    /// In an expression, between names.
    Code,
    /// In a name, or in that of an attribute behind it.
    Name,
    /// In a string literal.
    Quoted,
    /// Behind a backslash in it.
    Escaped,
}

/// An open brace.
#[derive(Clone, Copy, Drop)]
struct Brace {
    at: usize,
    /// Where it stands itself.
    outside: Mode,
}

#[derive(Drop)]
struct Scan {
    mode: Mode,
    braces: Vec<Brace>,
    marks: Vec<Mark>,
}

impl Scan {
    fn note(&mut self, what: What, at: usize) -> Result<(), AllocError>
        ensures { OnOk result (scan_view self.new ≡ spec.note what at (scan_view self.old)) }
    {
        self.marks.push(Mark { what, at })?;
        Ok(())
    }

    fn go_on(&mut self, mode: Mode)
        ensures { scan_view self.new ≡ spec.go_on mode (scan_view self.old) }
    {
        self.mode = mode;
    }

    fn enter(&mut self, at: usize, outside: Mode) -> Result<(), AllocError>
        ensures { OnOk result (scan_view self.new ≡ spec.enter at outside (scan_view self.old)) }
    {
        self.braces.push(Brace { at, outside })?;
        self.mode = Mode::Code;
        Ok(())
    }

    fn leave(&mut self)
        ensures { scan_view self.new ≡ spec.leave (scan_view self.old) }
    {
        match self.braces.pop() {
            Some(brace) => self.mode = brace.outside,
            None => self.mode = Mode::Words,
        }
    }

    /// Notes the select whose arrow stands here.
    fn begin_variants(&mut self) -> Result<(), AllocError>
        ensures { OnOk result (scan_view self.new ≡ spec.begin_variants (scan_view self.old)) }
    {
        if let Some(brace) = self.braces.last() {
            let at = brace.at;
            self.note(What::Select, at)?;
        }
        self.mode = Mode::Words;
        Ok(())
    }

    fn in_words(&mut self, at: usize, byte: u8) -> Result<(), AllocError>
        ensures { OnOk result (scan_view self.new ≡ spec.in_words at byte (scan_view self.old)) }
    {
        match byte {
            b'{' => self.enter(at, Mode::Words)?,
            b'}' => self.leave(),
            b'\n' => self.mode = Mode::LineStart,
            _ => self.mode = Mode::Words,
        }
        Ok(())
    }

    fn at_line_start(&mut self, at: usize, byte: u8) -> Result<(), AllocError>
        ensures { OnOk result (scan_view self.new ≡ spec.at_line_start at byte (scan_view self.old)) }
    {
        if byte == b' ' {
            return Ok(());
        }
        self.note_part(at, byte)?;
        self.in_words(at, byte)
    }

    fn note_part(&mut self, at: usize, byte: u8) -> Result<(), AllocError>
        ensures { OnOk result (scan_view self.new ≡ spec.note_part at byte (scan_view self.old)) }
    {
        let is_outside = self.braces.is_empty();
        if byte == b'.' && is_outside {
            self.note(What::Attribute, at)
        } else if (byte == b'[' || byte == b'*') && !is_outside {
            self.note(What::Variant, at)
        } else {
            Ok(())
        }
    }

    fn in_code(&mut self, at: usize, byte: u8, rest: &[u8]) -> Result<(), AllocError>
        ensures { OnOk result (scan_view self.new ≡ spec.in_code at byte rest.now (scan_view self.old)) }
    {
        match byte {
            b'"' => self.mode = Mode::Quoted,
            b'{' => self.enter(at, Mode::Code)?,
            b'}' => self.leave(),
            b'-' if byte_at(rest, 0) == b'>' => self.begin_variants()?,
            _ if begins_name(byte, rest) => {
                self.note_name(at, rest)?;
                self.mode = Mode::Name;
            }
            _ => self.mode = Mode::Code,
        }
        Ok(())
    }

    fn note_name(&mut self, at: usize, rest: &[u8]) -> Result<(), AllocError>
        ensures { OnOk result (scan_view self.new ≡ spec.note_name at rest.now (scan_view self.old)) }
    {
        if is_label(rest) {
            return Ok(());
        }
        self.note(What::Reference, at)
    }

    fn in_name(&mut self, at: usize, byte: u8, rest: &[u8]) -> Result<(), AllocError>
        ensures { OnOk result (scan_view self.new ≡ spec.in_name at byte rest.now (scan_view self.old)) }
    {
        if is_name_byte(byte) || byte == b'.' {
            return Ok(());
        }
        self.in_code(at, byte, rest)
    }

    fn in_quotes(&mut self, byte: u8)
        ensures { scan_view self.new ≡ spec.in_quotes byte (scan_view self.old) }
    {
        match byte {
            b'\\' => self.mode = Mode::Escaped,
            b'"' => self.mode = Mode::Code,
            _ => {}
        }
    }

    /// Goes over a byte that stands at this offset, before others.
    fn step(&mut self, at: usize, byte: u8, rest: &[u8]) -> Result<(), AllocError>
        ensures { OnOk result (scan_view self.new ≡ spec.step at byte rest.now (scan_view self.old)) }
    {
        match self.mode {
            Mode::LineStart => self.at_line_start(at, byte)?,
            Mode::Words => self.in_words(at, byte)?,
            Mode::Code => self.in_code(at, byte, rest)?,
            Mode::Name => self.in_name(at, byte, rest)?,
            Mode::Quoted => self.in_quotes(byte),
            Mode::Escaped => self.mode = Mode::Quoted,
        }
        Ok(())
    }
}

/// The byte at `index`, or 0 past the end.
fn byte_at(bytes: &[u8], index: usize) -> u8
    ensures { result ≡ slice_index bytes.now index }
{
    match bytes.get(index) {
        Some(byte) => *byte,
        None => 0,
    }
}

fn is_name_byte(byte: u8) -> bool
    ensures { result ≡ is_identifier_byte byte 0 }
{
    byte.is_ascii_alphanumeric() || byte == b'_' || byte == b'-'
}

fn begins_name(byte: u8, rest: &[u8]) -> bool
    ensures { result ≡ spec.begins_name byte rest.now }
{
    byte.is_ascii_alphabetic()
        || ((byte == b'$' || byte == b'-') && byte_at(rest, 0).is_ascii_alphabetic())
}

/// How many bytes at the start go on with a name.
#[tactic(auto, using(fluent_text::specs::Facts::Runs::the_runs))]
fn name_len(bytes: &[u8]) -> usize
    ensures len { result ≡ run_len is_identifier_byte bytes.now }
    ensures within { result ≤ length bytes.now }
{
    'bytes: for at in 0..bytes.len() {
        if !is_name_byte(bytes[at]) {
            return at;
        }
    }
    bytes.len()
}

/// How many bytes at the start are blank.
#[tactic(auto, using(fluent_text::specs::Facts::Runs::the_runs))]
fn blank_len(bytes: &[u8]) -> usize
    ensures len { result ≡ run_len spec.is_blank bytes.now }
    ensures within { result ≤ length bytes.now }
{
    'bytes: for at in 0..bytes.len() {
        let byte = bytes[at];
        if byte != b' ' && byte != b'\n' && byte != b'\r' {
            return at;
        }
    }
    bytes.len()
}

/// Whether a name that goes on with these bytes is that of an argument.
fn is_label(rest: &[u8]) -> bool
    ensures { result ≡ spec.is_label rest.now }
{
    let after_name = &rest[name_len(rest)..];
    let after_blanks = &after_name[blank_len(after_name)..];
    byte_at(after_blanks, 0) == b':'
}

/// The marks of the entry whose bytes stand from one offset of a text up to another, in the order in which a scan comes upon
/// them: a select after its selector, and before its variants. Each offset counts from the start of the text.
///
/// # Errors
///
/// An allocation failed.
pub fn marks_of(alloc: Global, text: &str, from: usize, to: usize) -> Result<Vec<Mark>, AllocError>
    ensures { IfOk result (λ list. list.items ≡ marks from to text.now) }
{
    let all = text.as_bytes();
    let bytes = if to < all.len() { &all[..to] } else { all };
    let mut scan = Scan {
        mode: Mode::Words,
        braces: Vec::new(alloc),
        marks: Vec::new(alloc),
    };
    'bytes: for at in from..bytes.len() {
        scan.step(at, bytes[at], &bytes[at + 1..])?;
    }
    Ok(scan.marks)
}
