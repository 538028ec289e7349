//! Reading a certificate of version 1.

ghost use Rattle.std.specs.Prelude.{◌≡◌, ◌<◌, ◌≤◌, IfErr, IfOk, MatchBool, MatchResult, Some, length};
ghost use Rattle.cert_format.specs.Text.{seen};
ghost use Rattle.vcc_base.specs.Maps.{Map};
ghost use Rattle.vcc_io.specs.Faults.{IsReadFault};
ghost use Rattle.vcc_io.specs.FirstVersions.{BeginsSecond, HoldsFirstVersion, IsFirst, IsFirstText, IsFirstVersionStop};
ghost use Rattle.vcc_io.specs.FirstVersions.{IsNoFirstVersion};

use crate::certificate::refusal_of;
use crate::program::read;
use crate::refusal::{LineFault, Refusal};
use cert_format::certificate::Certificate;
use cert_reader::decode::decode;
use std::alloc::Global;
use vcc_base::limit::Limit;
use vcc_base::store::Store;

/// Whether the first line is that of version 2.
fn is_second(bytes: &[u8]) -> bool
    ensures { MatchBool result (BeginsSecond bytes.now) (BeginsSecond bytes.now → ⊥) }
{
    bytes.starts_with(b"vcc-cert 2\n")
}

/// The certificate of version 1 whose text the bytes are.
fn first_version<'a>(alloc: Global, bytes: &[u8]) -> Result<Certificate, Refusal<'a>>
    requires { length bytes.now ≤ 67108864 }
    ensures text { IfOk result (λ certificate. IsFirstText bytes.now (seen certificate)) }
    ensures refused { IfErr result (IsNoFirstVersion bytes.now) }
{
    if is_second(bytes) {
        return Err(Refusal::BadCertificate(1, LineFault::BadLine));
    }
    match decode(alloc, bytes) {
        Ok(certificate) => Ok(certificate),
        Err(fault) => Err(refusal_of(fault)),
    }
}

/// The certificate of version 1 with this name, whose text is read whole. It is refused where the name isn't read, where its
/// first line is that of version 2, or for the first fault of its text.
pub fn read_first<'a, S: Store>(
    alloc: Global,
    store: &mut S,
    name: &'a str,
) -> Result<Certificate, Refusal<'a>>
    ensures answer { (m : Map) → S.contents store.old ≡ Some m → MatchResult result
        (λ certificate. HoldsFirstVersion m name.entry.now (seen certificate)) (IsFirstVersionStop m name.entry.now) }
    ensures first { IfOk result (λ certificate. IsFirst (seen certificate)) }
    ensures fault { IsReadFault result → S.read_faults store.old < S.read_faults store.new }
    ensures never_falls { S.read_faults store.old ≤ S.read_faults store.new }
    ensures writes_stay { S.write_faults store.new ≡ S.write_faults store.old }
    ensures kept { S.contents store.new ≡ S.contents store.old }
{
    match read(alloc, store, name, Limit::CertBytes) {
        Ok(bytes) => first_version(alloc, &bytes),
        Err(refusal) => Err(refusal),
    }
}
