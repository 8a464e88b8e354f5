//! The certificate of a named file.

ghost use Rattle.std.specs.Prelude.{◌≡◌, ◌≤◌, ◌^◌, Ok, Err, IfErr, IfOk};
ghost use Rattle.sf_certificate.specs.Said.{said_by};
ghost use Rattle.sf_cert_text.specs.Reading.{cert_read};
ghost use Rattle.sf_model.specs.Legal.{block_count};
ghost use Rattle.sf_program.specs.Checked.{cert_limit, cert_refusal};
ghost use Rattle.sf_designs.specs.Loads.{ReadsShelf, TellsNoLoad};
ghost use Rattle.sf_designs.specs.Outcome.{Ends, Stops};
ghost use Rattle.sf_designs.specs.Reading.{Judged, TextWithin};
ghost use Rattle.sf_program.specs.Resumed.{CertLoaded};

use crate::answering::cert_fault;
use sf_cert_text::read;
use sf_certificate::Cert;
use sf_designs::{FILE_LIMIT, Stop, load_within};
use sf_io::Shelf;
use sf_model::Design;
use std::alloc::Global;

/// The most bytes that the certificate of a long search may have: 64 GiB.
const LONG_LIMIT: u64 = 68_719_476_736;

/// The most bytes that a certificate may have.
fn cert_limit(is_long: bool) -> u64
    ensures limit { result ≡ cert_limit is_long }
    ensures few { result ≤ 2 ^ 36 }
{
    if is_long { LONG_LIMIT } else { FILE_LIMIT }
}

/// The text of a certificate, which may be that of a long search.
pub fn load_cert<S: Shelf>(
    alloc: Global,
    shelf: &mut S,
    name: &str,
    is_long: bool,
) -> Result<Vec<u8>, Stop>
    ensures text { Ends (λ v. v.items) result
        (TextWithin (cert_limit is_long) (S.seen shelf.old).holds name.now) }
    ensures shelf { ReadsShelf (S.seen shelf.old) (S.seen shelf.new) result }
{
    load_within(alloc, shelf, name, cert_limit(is_long))
}

/// The certificate that a text says.
pub fn read_cert(alloc: Global, text: &[u8], design: &Design) -> Result<Cert, Stop>
    ensures cert { IfOk result (λ c. cert_read (block_count design.now) text.now ≡ Ok (said_by c)) }
    ensures blocks { IfOk result (λ c. c.blocks ≡ block_count design.now) }
    ensures refused { IfErr result (λ stop.
        Stops stop (λ why. Judged (cert_read (block_count design.now) text.now) cert_refusal (Err why))) }
    ensures tells { TellsNoLoad result }
{
    match read(alloc, text, design.block_count()) {
        Ok(cert) => Ok(cert),
        Err(fault) => Err(cert_fault(alloc, fault)?),
    }
}

/// The certificate that the named file says.
pub fn read_cert_file<S: Shelf>(
    alloc: Global,
    shelf: &mut S,
    name: &str,
    is_long: bool,
    design: &Design,
) -> Result<Cert, Stop>
    ensures cert { Ends (λ c. c) result (CertLoaded is_long (S.seen shelf.old).holds name.now design.now) }
    ensures blocks { IfOk result (λ c. c.blocks ≡ block_count design.now) }
    ensures shelf { ReadsShelf (S.seen shelf.old) (S.seen shelf.new) result }
{
    let text = load_cert(alloc, shelf, name, is_long)?;
    read_cert(alloc, &text, design)
}
