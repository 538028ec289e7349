//! A source's typed program, or the first typing rule that it breaks.

ghost use Rattle.std.specs.Prelude.{◌≡◌, ℕ, List, None, IfOk, IfErr, OnOk};
ghost use Rattle.c_source.specs.Sources.{IsText};
ghost use Rattle.c_syntax.specs.Views.{items_of};
ghost use Rattle.typing_spec.specs.First as first;
ghost use Rattle.c_types.specs.Typed.{IsProgramOf, IsTyped, IsTypeFault, OneProgram};
ghost use Rattle.typed_program.specs.Tables.{program};
ghost use Rattle.typed_program.specs.Views as seen;

use c_syntax::items::Tree;
use elab_program::program::typed_program;
use method::program::Program;
use std::alloc::Global;
use typing_expressions::violations::Violation;
use typing_program::program::first_broken;

/// Why a source has no typed program.
#[derive(Clone, Copy, Debug, PartialEq, Eq)]
pub enum TypeFault {
    /// the first typing rule that it breaks, and where
    Rule(Violation),
    OutOfMemory,
}

/// Nothing, where a source breaks no typing rule.
fn unbroken(alloc: Global, tree: &Tree) -> Result<(), TypeFault>
    ensures unbroken { OnOk result (first.first_broken (items_of tree.now) tree.now.end ≡ None) }
    ensures fault { IfErr result (IsTypeFault (items_of tree.now) tree.now.end) }
{
    match first_broken(alloc, &tree.items, tree.end) {
        Ok(None) => Ok(()),
        Ok(Some(broken)) => Err(TypeFault::Rule(broken)),
        Err(_) => Err(TypeFault::OutOfMemory),
    }
}

/// The tables of a source's program, where it breaks no typing rule.
fn tables_of(alloc: Global, tree: &Tree) -> Result<Program, TypeFault>
    ensures tables { IfOk result (λ p. seen.program p ≡ program (items_of tree.now)) }
    ensures fault { IfErr result (IsTypeFault (items_of tree.now) tree.now.end) }
{
    match typed_program(alloc, &tree.items) {
        Ok(program) => Ok(program),
        Err(_) => Err(TypeFault::OutOfMemory),
    }
}

/// Bytes read as at most one program.
pub fn reading_law()
    ensures one_program { OneProgram }
{}

/// The typed program of a source that breaks no typing rule; else the first rule that it breaks. Where the tree is that of a
/// text, the program is the one that the text reads as, and well formed.
pub fn type_program(alloc: Global, tree: &Tree) -> Result<Program, TypeFault>
    ensures typed { IfOk result (λ p. IsTyped (items_of tree.now) tree.now.end (seen.program p)) }
    ensures of_text { (bytes : List ℕ) → IsText bytes (items_of tree.now) tree.now.end → IfOk result (IsProgramOf bytes) }
    ensures fault { IfErr result (IsTypeFault (items_of tree.now) tree.now.end) }
{
    match unbroken(alloc, tree) {
        Ok(()) => tables_of(alloc, tree),
        Err(fault) => Err(fault),
    }
}
