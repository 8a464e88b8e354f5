//! The text of a certificate up to the end of its header.

ghost use Rattle.std.specs.Prelude.{◌≡◌, ◌≢◌, ◌==◌, ℕ, List, ◌∷◌, ◌++◌, [], IfOk, IfErr, MatchOption, IsTrue};
ghost use Rattle.std.specs.Prelude.{IsFalse, ⊤, Ok, Err, ◌≤◌, length};
ghost use Rattle.std.specs.List.{count_by};
ghost use Rattle.sf_lex.specs.Text.{is_line_feed};
ghost use Rattle.sf_model.specs.declared.TheConstants.{MAX};
ghost use Rattle.sf_polish.specs.Writable.{IsWritable};
ghost use Rattle.sf_cert_text.specs.declared.fault.CertFault.TheVariants.{NoMemory};
ghost use Rattle.sf_certificate.specs.Form.{no_plan};
ghost use Rattle.sf_cert_text.specs.Bytes.{IsHeader, IsPart, bytes_on, said_with};
ghost use Rattle.sf_cert_text.specs.Reading.{cert_read};

use crate::bytes::ByteReader;
use crate::fault::CertFault;
use crate::header::{Header, is_only, read_header};
use sf_lex::{Scan, last_line};
use std::alloc::{AllocError, Global};
use std::marker::Model;

/// The bytes of a text so far, of which the header has not ended yet or ends with the last, and where their
/// last line begins. Contracts see the bytes.
#[derive(Drop)]
pub struct Opening {
    text: Vec<u8>,
    line: usize,
}

impl Model for Opening {
    ghost use Rattle.std.specs.Prelude.{◌≡◌, ◌≤◌, ℕ, [], List, length, drop};
    ghost use Rattle.sf_cert_text.specs.Bytes.{open_from};

    ghost Value = { List ℕ };

    ghost view = { λ o. o.text.items };

    ghost invariant = { λ o. (o.line ≤ length o.text.items) × (drop o.line o.text.items ≡ open_from [] o.text.items) };
}

/// How many lines LF ends.
fn line_count(text: &[u8]) -> u64
    ensures count { result ≡ count_by is_line_feed text.now }
    ensures bound { result ≤ length text.now }
{
    text.iter().filter(|byte| **byte == b'\n').count() as u64
}

impl Opening {
    /// No byte yet.
    pub fn new(alloc: Global) -> Opening
        ensures { result ≡ [] }
    {
        Opening {
            text: Vec::new(alloc),
            line: 0,
        }
    }

    /// The bytes so far.
    pub fn text(&self) -> &[u8]
        ensures { result.now ≡ self.now }
    {
        &self.text
    }

    /// One byte more. The answer is whether it ends the header.
    pub fn take(&mut self, byte: u8) -> Result<bool, AllocError>
        requires { IsPart self.old }
        ensures text { IfOk result (λ whole. self.new ≡ self.old ++ byte ∷ []) }
        ensures part { IfOk result (λ whole. IsFalse whole → IsPart self.new) }
        ensures whole { IfOk result (λ whole. IsTrue whole → IsHeader self.new) }
    {
        let begin = self.line;
        let end = self.text.len();
        self.text.push(byte)?;
        if byte != b'\n' {
            return Ok(false);
        }
        self.line = self.text.len();
        Ok(is_only(&self.text[begin..end], b"tree"))
    }

    /// The header, and a reader at the first byte behind it.
    pub fn read(&self, alloc: Global, blocks: u16) -> Result<(Header, ByteReader), CertFault>
        requires { IsHeader self.now }
        ensures reads { IfOk result (λ r. (rest : List ℕ)
            → cert_read blocks (self.now ++ rest) ≡ said_with blocks r.0 (bytes_on blocks r.1 rest)) }
        ensures agrees { IfOk result (λ r. no_plan r.0.plan ≡ (r.0.cost == MAX)) }
        ensures writable { IfOk result (λ r. MatchOption r.0.plan ⊤ (IsWritable blocks)) }
        ensures fault { IfErr result (λ e. e ≢ NoMemory → (rest : List ℕ)
            → cert_read blocks (self.now ++ rest) ≡ Err e) }
    {
        let mut scan = Scan::new(&self.text);
        let header = read_header(alloc, &mut scan, &self.text, blocks)?;
        let reader = ByteReader::new(
            alloc,
            header.version,
            line_count(&self.text) + 1,
            last_line(&self.text),
        )?;
        Ok((header, reader))
    }
}
