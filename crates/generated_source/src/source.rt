//! Copies of a program with a lock, its workers, and a counter.

ghost use Rattle.std.specs.Prelude.{◌≡◌, ◌++◌, IfOk};
ghost use Rattle.generated_source.specs.Sources as spec;
ghost use Rattle.generated_source.specs.Sources.{byte_of, bytes_of, copies, copy_text, generated};

use itoa::Buffer;
use std::alloc::{AllocError, Global};

/// One copy; its number stands in place of each `@`.
const COPY: &[u8] = br"struct Data@ {
  int v;
  _(invariant v >= 0)
};
_(claimable, volatile_owns) struct Lock@ {
  volatile int locked;
  _(ghost \object protected_obj;)
  _(invariant locked == 0 ==> \mine(protected_obj))
};
void InitializeLock@(struct Lock@ *l _(ghost \object obj))
  _(writes \span(l), obj)
  _(requires \wrapped(obj))
  _(ensures \wrapped(l) && l->protected_obj == obj)
{
  l->locked = 0;
  _(ghost l->protected_obj = obj;)
  _(ghost l->\owns = {obj};)
  _(wrap l)
}
void Acquire@(struct Lock@ *l _(ghost \claim c))
  _(maintains \wrapped(c) && \claims_object(c, l))
  _(ensures \wrapped(l->protected_obj) && \fresh(l->protected_obj))
{
  int stop = 0;
  do {
    _(atomic c, l) {
      stop = InterlockedCompareExchange(&l->locked, 1, 0) == 0;
      _(ghost if (stop) l->\owns -= l->protected_obj;)
    }
  } while (!stop);
}
void Release@(struct Lock@ *l _(ghost \claim c))
  _(requires l->protected_obj != c)
  _(maintains \wrapped(c) && \claims_object(c, l))
  _(requires \wrapped(l->protected_obj))
  _(writes l->protected_obj)
{
  _(atomic c, l) {
    l->locked = 0;
    _(ghost l->\owns += l->protected_obj;)
  }
}
void Worker@(struct Lock@ *l, struct Data@ *d _(ghost \claim c))
  _(requires \wrapped(c) && \claims_object(c, l) && l->protected_obj == d)
  _(writes c)
{
  Acquire@(l _(ghost c));
  _(unwrap d)
  d->v = 1;
  _(wrap d)
  Release@(l _(ghost c));
}
_(claimable) struct Ctr@ { volatile int n; _(invariant \old(n) <= n) };
void Bump@(struct Ctr@ *p _(ghost \claim c))
  _(maintains \wrapped(c) && \claims_object(c, p))
{
  int v = 0;
  int r = 0;
  _(atomic c, p) { v = p->n; }
  if (v < 2147483647) {
    _(atomic c, p) { r = InterlockedCompareExchange(&p->n, v + 1, v); }
  }
}
";

/// One copy, as it stands in the definition.
#[tactic(auto, unfolding(crate::specs::Sources::copy_lines, crate::specs::Sources::copy_text))]
fn template() -> &'static [u8]
    ensures { result.now ≡ copy_text }
{
    COPY
}

/// Adds a byte of the copy with this number.
fn add_byte(text: &mut Vec<u8>, number: u32, byte: u8) -> Result<(), AllocError>
    ensures { IfOk result (λ u. text.new.items ≡ text.old.items ++ byte_of number byte) }
{
    if byte == b'@' {
        let mut buffer = Buffer::new();
        text.extend_from_slice(buffer.format(number).as_bytes())?;
        return Ok(());
    }
    text.push(byte)?;
    Ok(())
}

/// Adds bytes of the copy with this number.
fn add_bytes(text: &mut Vec<u8>, number: u32, bytes: &[u8]) -> Result<(), AllocError>
    ensures { IfOk result (λ u. text.new.items ≡ text.old.items ++ bytes_of number bytes.now) }
{
    for byte in bytes {
        add_byte(text, number, *byte)?;
    }
    Ok(())
}

/// Adds the copy with this number.
fn add_copy(text: &mut Vec<u8>, number: u32) -> Result<(), AllocError>
    ensures { IfOk result (λ u. text.new.items ≡ text.old.items ++ spec.copy number) }
{
    add_bytes(text, number, template())
}

/// Adds so many copies.
fn add_copies(text: &mut Vec<u8>, count: u32) -> Result<(), AllocError>
    ensures { IfOk result (λ u. text.new.items ≡ text.old.items ++ copies count) }
{
    for earlier in 0..count {
        add_copy(text, earlier + 1)?;
    }
    Ok(())
}

/// The source with so many copies.
///
/// # Errors
/// Where memory is refused.
pub fn generate(alloc: Global, count: u32) -> Result<Vec<u8>, AllocError>
    ensures { IfOk result (λ text. text.items ≡ generated count) }
{
    let mut text = Vec::new(alloc);
    text.extend_from_slice(b"#include <vcc.h>\n")?;
    add_copies(&mut text, count)?;
    text.extend_from_slice(b"void main() {}\n")?;
    Ok(text)
}
