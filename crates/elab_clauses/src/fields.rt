//! The table of fields.

ghost use Rattle.std.specs.Prelude.{◌≡◌, ◌++◌, map, IfOk, OnOk};
ghost use Rattle.c_syntax.specs.Views as view;
ghost use Rattle.typing_spec.specs.Declarations.{fields};
ghost use Rattle.typing_symbols.specs.Whole.{program};
ghost use Rattle.typed_program.specs.Tables as tables;
ghost use Rattle.typed_program.specs.Views as seen;

use crate::approvals::is_approved;
use c_syntax::expressions::Identifier;
use c_syntax::items::{FieldDeclaration, Struct};
use elab_code::numbers::{declared_type, struct_number};
use method::program::FieldInfo;
use std::alloc::{AllocError, Global};
use typing_symbols::declarations::{Declarations, StructEntry};

/// The text of a name.
pub fn text(alloc: Global, x: &Identifier) -> Result<Vec<u8>, AllocError>
    ensures { IfOk result (λ v. v.items ≡ (view.id x.now).name) }
{
    Vec::from_slice(alloc, &x.name)
}

/// A field of a struct.
fn field(
    alloc: Global,
    declarations: &Declarations<'_>,
    owner: &Struct,
    x: &FieldDeclaration,
) -> Result<FieldInfo, AllocError>
    ensures { IfOk result (λ v. seen.field v ≡ tables.field (program declarations.now) (view.struct owner.now) (view.field x.now)) }
{
    let name = text(alloc, &x.name)?;
    let of = struct_number(declarations, &owner.name)?;
    let ty = declared_type(declarations, &x.ty)?;
    Ok(FieldInfo {
        name,
        of,
        ty,
        is_volatile: x.is_volatile,
        is_ghost: x.is_ghost,
        is_approved: is_approved(owner, &x.name),
    })
}

/// Adds the fields of a struct.
fn add_fields(
    alloc: Global,
    declarations: &Declarations<'_>,
    owner: &StructEntry<'_>,
    so_far: &mut Vec<FieldInfo>,
) -> Result<(), AllocError>
    ensures { OnOk result (map seen.field so_far.new.items ≡ map seen.field so_far.old.items ++ map (tables.field (program declarations.now) (view.struct owner.now.tree.now)) (fields (view.struct owner.now.tree.now).members)) }
{
    let all = owner.fields();
    for x in all {
        let one = field(alloc, declarations, owner.tree, x)?;
        so_far.push(one)?;
    }
    Ok(())
}

/// The fields of all structs, in the order of the text.
pub fn field_table(
    alloc: Global,
    declarations: &Declarations<'_>,
) -> Result<Vec<FieldInfo>, AllocError>
    ensures { IfOk result (λ v. map seen.field v.items ≡ tables.field_table (program declarations.now)) }
{
    let mut so_far = Vec::new(alloc);
    let all = declarations.structs();
    for entry in all {
        add_fields(alloc, declarations, entry, &mut so_far)?;
    }
    Ok(so_far)
}
