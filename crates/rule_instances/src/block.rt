//! What instances are made over, and what they take.

ghost use Rattle.std.specs.Prelude.{◌≡◌, Option, Some, slice_get};
ghost use Rattle.axiom_instances.specs.Fitting.{term, terms, refs, is_sort};
ghost use Rattle.rule_instances.specs.Reading.{Names, NamesNone, NamesAll, any};
ghost use Rattle.terms.specs.Sorts.{same_sort};
ghost use Rattle.terms.specs.declared.sort.Sort.{Sort};

use crate::numbers::Numbers;
use method::program::Program;
use std::alloc::{AllocError, Global};
use term_language::language::Language;
use terms::sort::Sort;

/// What instances are made over: the program, its language, the sorts of a graph's nodes, and the nodes that a
/// certificate's numbers name.
#[derive(Clone, Copy)]
pub struct Block<'a> {
    pub program: &'a Program,
    pub language: &'a Language,
    pub sorts: &'a [Option<Sort>],
    pub names: &'a [u32],
}

fn is_sort(sort: Sort, other: Option<Sort>) -> bool
    ensures { result ≡ is_sort sort other }
{
    match other {
        None => false,
        Some(other) => is_same(other, sort),
    }
}

fn is_same(left: Sort, right: Sort) -> bool
    ensures { result ≡ same_sort left right }
{
    matches!(
        (left, right),
        (Sort::Int, Sort::Int)
            | (Sort::Ref, Sort::Ref)
            | (Sort::Heap, Sort::Heap)
            | (Sort::Bool, Sort::Bool)
    )
}

/// The number that stands at the place.
pub(crate) fn number_at(numbers: &[u32], place: u128) -> Option<u32>
    ensures { result ≡ slice_get numbers.now place }
{
    if place >= numbers.len() as u128 {
        return None;
    }
    Some(numbers[place as usize])
}

impl<'a> Block<'a> {
    /// The node with this number of the certificate.
    fn name(&self, number: u128) -> Option<u32>
        ensures { result ≡ slice_get self.now.names.now number }
    {
        number_at(self.names, number)
    }

    /// Whether the node has the sort.
    fn has_sort(&self, id: u32, sort: Sort) -> bool
        ensures { (s : Option Sort) → slice_get self.now.sorts.now id ≡ Some s → result ≡ is_sort sort s }
    {
        let Some(other) = self.sorts.get(id as usize) else {
            return false;
        };
        is_sort(sort, *other)
    }

    /// A term, by the next number.
    pub fn take_any(&self, numbers: &mut Numbers<'_>) -> Option<u32>
        ensures some { Names (λ l tree. any tree) self.now numbers.old numbers.new result }
        ensures none { NamesNone (λ l tree. any tree) self.now numbers.old result }
    {
        let Some(number) = numbers.natural() else {
            return None;
        };
        let Some(id) = self.name(number) else {
            return None;
        };
        Some(id)
    }

    /// A term of the sort, by the next number.
    pub fn take(&self, numbers: &mut Numbers<'_>, sort: Sort) -> Option<u32>
        ensures some { Names (λ l tree. term l tree sort) self.now numbers.old numbers.new result }
        ensures none { NamesNone (λ l tree. term l tree sort) self.now numbers.old result }
    {
        let Some(number) = numbers.natural() else {
            return None;
        };
        let Some(id) = self.name(number) else {
            return None;
        };
        if !self.has_sort(id, sort) {
            return None;
        }
        Some(id)
    }

    /// Terms of these sorts, by the next numbers.
    pub fn take_all(
        &self,
        alloc: Global,
        numbers: &mut Numbers<'_>,
        sorts: &[Sort],
    ) -> Result<Option<Vec<u32>>, AllocError>
        ensures { NamesAll (λ l tree. terms l tree sorts.now) self.now numbers.old numbers.new result }
    {
        let mut ids = Vec::new(alloc);
        for sort in sorts {
            let Some(id) = self.take(numbers, *sort) else {
                return Ok(None);
            };
            ids.push(id)?;
        }
        Ok(Some(ids))
    }

    /// A list of references: how many, and their numbers.
    pub fn take_references(
        &self,
        alloc: Global,
        numbers: &mut Numbers<'_>,
    ) -> Result<Option<Vec<u32>>, AllocError>
        ensures { NamesAll (λ l tree. refs l tree) self.now numbers.old numbers.new result }
    {
        let Some(count) = numbers.natural() else {
            return Ok(None);
        };
        if count > numbers.len() as u128 {
            return Ok(None);
        }
        let mut sorts = Vec::new(alloc);
        sorts.resize(count as usize, Sort::Ref)?;
        let ids = self.take_all(alloc, numbers, &sorts)?;
        Ok(ids)
    }
}
