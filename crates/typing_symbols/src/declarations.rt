//! What a program declares.

ghost use Rattle.std.specs.Prelude.{◌≡◌, ◌++◌, ◌∷◌, [], ℕ, List, map, position, IfOk, OnOk, take};
ghost use Rattle.std.specs.Option.{option_map};
ghost use Rattle.std.specs.Coded.{coded_list, coded_option, coded_ℕ, Coded-set, Π_prop};
ghost use Rattle.c_syntax.specs.contracts.items.Function as function_row;
ghost use Rattle.c_syntax.specs.contracts.items.FieldDeclaration as field_row;
ghost use Rattle.c_syntax.specs.contracts.items.Struct as struct_row;
ghost use Rattle.c_syntax.specs.Views as view;
ghost use Rattle.typing_spec.specs.Declarations as spec;
ghost use Rattle.typing_symbols.specs.Lookup.{at};
ghost use Rattle.typing_symbols.specs.Counts.{field_count, starts};
ghost use Rattle.typing_symbols.specs.Program.{is_field, is_struct, is_function, fields_in, structs_in, functions_in};

use crate::first::note;
use c_syntax::expressions::Identifier;
use c_syntax::items::{FieldDeclaration, Function, Item, Member, Struct};
use c_syntax::tree::Attribute;
use indexmap::IndexMap;
use std::alloc::{AllocError, Global};

/// Adds a member of a struct, if it is a field.
fn add_field<'a>(
    fields: &mut Vec<&'a FieldDeclaration>,
    member: &'a Member,
) -> Result<(), AllocError>
    ensures { OnOk result (map (λ f. f.now) fields.new.items ≡ map (λ f. f.now) fields.old.items ++ fields_in (member.now ∷ [])) }
{
    match member {
        Member::Field(field) => {
            fields.push(field)?;
            Ok(())
        }
        Member::Invariant(_) => Ok(()),
    }
}

/// The fields among members, in their order.
fn fields_of<'a>(
    alloc: Global,
    members: &'a [Member],
) -> Result<Vec<&'a FieldDeclaration>, AllocError>
    ensures { IfOk result (λ v. map (λ f. f.now) v.items ≡ fields_in members.now) }
{
    let mut fields = Vec::new(alloc);
    for member in members {
        add_field(&mut fields, member)?;
    }
    Ok(fields)
}

/// The places of fields, by their names: of several with one name, the first.
fn field_places<'a>(
    alloc: Global,
    fields: &[&'a FieldDeclaration],
) -> Result<IndexMap<&'a [u8], usize>, AllocError>
    ensures { IfOk result (λ m. (y : List ℕ) → at m y ≡ position (λ f. is_field y f.now) fields.now) }
{
    let mut places: IndexMap<&'a [u8], usize> = IndexMap::new(alloc);
    for (i, field) in fields.iter().enumerate() {
        note(&mut places, &field.name, i)?;
    }
    Ok(places)
}

/// A struct of a program, with its fields by their names.
#[derive(Drop)]
pub struct StructEntry<'a> {
    pub tree: &'a Struct,
    fields: Vec<&'a FieldDeclaration>,
    field_places: IndexMap<&'a [u8], usize>,
    ghost all_fields: { map (λ f. f.now) fields.items ≡ fields_in tree.now.members.items } by { Coded-set (coded_list field_row.the_row.coded) (map (λ f. f.now) fields.items) (fields_in tree.now.members.items) },
    ghost first: { (y : List ℕ) → at field_places y ≡ position (λ f. is_field y f.now) fields.items } by { Π_prop (λ y. Coded-set (coded_option coded_ℕ) (at field_places y) (position (λ f. is_field y f.now) fields.items)) },
}

impl<'a> StructEntry<'a> {
    /// The entry of a struct.
    fn of(alloc: Global, tree: &'a Struct) -> Result<StructEntry<'a>, AllocError>
        ensures { IfOk result (λ s. s.tree.now ≡ tree.now) }
    {
        let fields = fields_of(alloc, &tree.members)?;
        let field_places = field_places(alloc, &fields)?;
        Ok(StructEntry {
            tree,
            fields,
            field_places,
        })
    }

    /// All fields, in the order of the text.
    pub fn fields(&self) -> &[&'a FieldDeclaration]
        ensures { map (λ f. view.field f.now) result.now ≡ spec.fields (view.struct self.now.tree.now).members }
    {
        &self.fields
    }

    /// The place among them of the field with this name, the first of several.
    pub fn field_place(&self, name: &Identifier) -> Option<usize>
        ensures { result ≡ position (λ f. spec.same_name f.name (view.id name.now)) (spec.fields (view.struct self.now.tree.now).members) }
    {
        let place = *self.field_places.get(name.name.as_slice())?;
        Some(place)
    }

    /// The field with this name, the first of several.
    pub fn find_field(&self, name: &Identifier) -> Option<&'a FieldDeclaration>
        ensures { option_map (λ f. view.field f.now) result ≡ spec.find_field (view.struct self.now.tree.now) (view.id name.now) }
    {
        let place = *self.field_places.get(name.name.as_slice())?;
        Some(self.fields[place])
    }

    pub fn is_claimable(&self) -> bool
        ensures { result ≡ spec.is_claimable (view.struct self.now.tree.now) }
    {
        self.tree
            .attributes
            .iter()
            .any(|a| matches!(a, Attribute::Claimable))
    }

    pub fn has_dynamic_owns(&self) -> bool
        ensures { result ≡ spec.has_dynamic_owns (view.struct self.now.tree.now) }
    {
        self.tree
            .attributes
            .iter()
            .any(|a| matches!(a, Attribute::DynamicOwns))
    }

    pub fn has_volatile_owns(&self) -> bool
        ensures { result ≡ spec.has_volatile_owns (view.struct self.now.tree.now) }
    {
        self.tree
            .attributes
            .iter()
            .any(|a| matches!(a, Attribute::VolatileOwns))
    }
}

/// Adds an item's entry, if it is a struct.
fn add_struct<'a>(
    alloc: Global,
    entries: &mut Vec<StructEntry<'a>>,
    item: &'a Item,
) -> Result<(), AllocError>
    ensures { OnOk result (map (λ s. s.tree.now) entries.new.items ≡ map (λ s. s.tree.now) entries.old.items ++ structs_in (item.now ∷ [])) }
{
    match item {
        Item::Struct(tree) => {
            let entry = StructEntry::of(alloc, tree)?;
            entries.push(entry)?;
            Ok(())
        }
        Item::Function(_) => Ok(()),
    }
}

/// The entries of the structs among items, in their order.
fn struct_entries<'a>(alloc: Global, items: &'a [Item]) -> Result<Vec<StructEntry<'a>>, AllocError>
    ensures { IfOk result (λ v. map (λ s. s.tree.now) v.items ≡ structs_in items.now) }
{
    let mut entries = Vec::new(alloc);
    for item in items {
        add_struct(alloc, &mut entries, item)?;
    }
    Ok(entries)
}

/// Adds an item, if it is a function.
fn add_function<'a>(functions: &mut Vec<&'a Function>, item: &'a Item) -> Result<(), AllocError>
    ensures { OnOk result (map (λ f. f.now) functions.new.items ≡ map (λ f. f.now) functions.old.items ++ functions_in (item.now ∷ [])) }
{
    match item {
        Item::Struct(_) => Ok(()),
        Item::Function(function) => {
            functions.push(function)?;
            Ok(())
        }
    }
}

/// The functions among items, in their order.
fn functions_of<'a>(alloc: Global, items: &'a [Item]) -> Result<Vec<&'a Function>, AllocError>
    ensures { IfOk result (λ v. map (λ f. f.now) v.items ≡ functions_in items.now) }
{
    let mut functions = Vec::new(alloc);
    for item in items {
        add_function(&mut functions, item)?;
    }
    Ok(functions)
}

/// The places of structs by their names: of several with one name, the first.
fn struct_places<'a>(
    alloc: Global,
    entries: &[StructEntry<'a>],
) -> Result<IndexMap<&'a [u8], usize>, AllocError>
    ensures { IfOk result (λ m. (y : List ℕ) → at m y ≡ position (λ s. is_struct y s.tree.now) entries.now) }
{
    let mut places: IndexMap<&'a [u8], usize> = IndexMap::new(alloc);
    for (i, entry) in entries.iter().enumerate() {
        note(&mut places, &entry.tree.name, i)?;
    }
    Ok(places)
}

/// The places of functions by their names: of several with one name, the first.
fn function_places<'a>(
    alloc: Global,
    functions: &[&'a Function],
) -> Result<IndexMap<&'a [u8], usize>, AllocError>
    ensures { IfOk result (λ m. (y : List ℕ) → at m y ≡ position (λ f. is_function y f.now) functions.now) }
{
    let mut places: IndexMap<&'a [u8], usize> = IndexMap::new(alloc);
    for (i, function) in functions.iter().enumerate() {
        note(&mut places, &function.name, i)?;
    }
    Ok(places)
}

/// For each struct, how many fields those before it have; where a number leaves the range of counts, memory is wanted.
fn field_starts(alloc: Global, entries: &[StructEntry<'_>]) -> Result<Vec<usize>, AllocError>
    ensures { IfOk result (λ v. v.items ≡ starts 0 (map (λ s. s.tree.now) entries.now)) }
{
    let mut all = Vec::new(alloc);
    let mut count: usize = 0;
    for entry in entries {
        all.push(count)?;
        let Some(more) = count.checked_add(entry.fields().len()) else {
            return Err(AllocError);
        };
        count = more;
    }
    Ok(all)
}

/// What a program declares.
#[derive(Drop)]
pub struct Declarations<'a> {
    pub items: &'a [Item],
    structs: Vec<StructEntry<'a>>,
    struct_places: IndexMap<&'a [u8], usize>,
    field_starts: Vec<usize>,
    functions: Vec<&'a Function>,
    function_places: IndexMap<&'a [u8], usize>,
    ghost all_structs: { map (λ s. s.tree.now) structs.items ≡ structs_in items.now } by { Coded-set (coded_list struct_row.the_row.coded) (map (λ s. s.tree.now) structs.items) (structs_in items.now) },
    ghost first_struct: { (y : List ℕ) → at struct_places y ≡ position (λ s. is_struct y s.tree.now) structs.items } by { Π_prop (λ y. Coded-set (coded_option coded_ℕ) (at struct_places y) (position (λ s. is_struct y s.tree.now) structs.items)) },
    ghost field_counts: { field_starts.items ≡ starts 0 (structs_in items.now) } by { Coded-set (coded_list coded_ℕ) field_starts.items (starts 0 (structs_in items.now)) },
    ghost all_functions: { map (λ f. f.now) functions.items ≡ functions_in items.now } by { Coded-set (coded_list function_row.the_row.coded) (map (λ f. f.now) functions.items) (functions_in items.now) },
    ghost first_function: { (y : List ℕ) → at function_places y ≡ position (λ f. is_function y f.now) functions.items } by { Π_prop (λ y. Coded-set (coded_option coded_ℕ) (at function_places y) (position (λ f. is_function y f.now) functions.items)) },
}

impl<'a> Declarations<'a> {
    ghost use Rattle.typing_symbols.specs.Whole.{program};

    /// The declarations of a program's items.
    pub fn of(alloc: Global, items: &'a [Item]) -> Result<Declarations<'a>, AllocError>
        ensures { IfOk result (λ d. d.items.now ≡ items.now) }
    {
        let structs = struct_entries(alloc, items)?;
        let struct_places = struct_places(alloc, &structs)?;
        let field_starts = field_starts(alloc, &structs)?;
        let functions = functions_of(alloc, items)?;
        let function_places = function_places(alloc, &functions)?;
        Ok(Declarations {
            items,
            structs,
            struct_places,
            field_starts,
            functions,
            function_places,
        })
    }

    /// The struct with this name, the first of several.
    pub fn find_struct<'s>(&'s self, name: &Identifier) -> Option<&'s StructEntry<'a>>
        ensures { option_map (λ s. view.struct s.now.tree.now) result ≡ spec.find_struct (program self.now) (view.id name.now) }
    {
        let place = *self.struct_places.get(name.name.as_slice())?;
        Some(&self.structs[place])
    }

    /// The function with this name, the first of several.
    pub fn find_function(&self, name: &Identifier) -> Option<&'a Function>
        ensures { option_map (λ f. view.function f.now) result ≡ spec.find_function (program self.now) (view.id name.now) }
    {
        let place = *self.function_places.get(name.name.as_slice())?;
        Some(self.functions[place])
    }

    /// The structs in the order of the text, also those with a name that stood earlier.
    pub fn structs(&self) -> &[StructEntry<'a>]
        ensures { map (λ s. view.struct s.tree.now) result.now ≡ spec.structs (program self.now) }
    {
        &self.structs
    }

    /// The functions in the order of the text, also those with a name that stood earlier.
    pub fn functions(&self) -> &[&'a Function]
        ensures { map (λ f. view.function f.now) result.now ≡ spec.functions (program self.now) }
    {
        &self.functions
    }

    /// The place among the structs of the one with this name, the first of several.
    pub fn struct_place(&self, name: &Identifier) -> Option<usize>
        ensures { result ≡ position (λ s. spec.same_name s.name (view.id name.now)) (spec.structs (program self.now)) }
    {
        let place = *self.struct_places.get(name.name.as_slice())?;
        Some(place)
    }

    /// The place among the functions of the one with this name, the first of several.
    pub fn function_place(&self, name: &Identifier) -> Option<usize>
        ensures { result ≡ position (λ f. spec.same_name f.name (view.id name.now)) (spec.functions (program self.now)) }
    {
        let place = *self.function_places.get(name.name.as_slice())?;
        Some(place)
    }

    /// How many fields the structs before the one with this name have, if there is one.
    pub fn fields_before(&self, name: &Identifier) -> Option<usize>
        ensures { result ≡ option_map (λ i. field_count (take i (spec.structs (program self.now)))) (position (λ s. spec.same_name s.name (view.id name.now)) (spec.structs (program self.now))) }
    {
        let place = *self.struct_places.get(name.name.as_slice())?;
        Some(self.field_starts[place])
    }
}
