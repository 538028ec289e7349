//! Reading a certificate from all of its bytes.

ghost use Rattle.std.specs.Prelude.{◌≡◌, ◌≤◌, IfOk, length};
ghost use Rattle.cert_reader.specs.Decoding.{Decodes, IsOrMemory};
ghost use Rattle.cert_reader.specs.Keeping.{decoded};
ghost use Rattle.cert_format.specs.Text.{IsCertText, Proofs, seen};

use crate::reader::BlockReader;
use cert_format::certificate::Certificate;
use cert_format::fault::CertFault;
use std::alloc::Global;

/// The certificate whose text the bytes are, or their first fault.
pub fn decode(alloc: Global, bytes: &[u8]) -> Result<Certificate, CertFault>
    requires { length bytes.now ≤ 4294967294 }
    ensures answers { Decodes result (decoded bytes.now) }
    ensures text { IfOk result (λ c. IsCertText bytes.now (seen c)) }
    // No certificate but the one that is found, and where there is one no fault.
    ensures only { (c : Proofs) → IsCertText bytes.now c → IsOrMemory c result }
{
    certificate(alloc, bytes)
}

fn certificate(alloc: Global, bytes: &[u8]) -> Result<Certificate, CertFault>
    requires { length bytes.now ≤ 4294967294 }
    ensures answers { Decodes result (decoded bytes.now) }
{
    let mut reader = BlockReader::new(alloc);
    reader.feed(bytes)?;
    reader.answer()?;
    Ok(reader.into_certificate())
}
