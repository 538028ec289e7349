//! The making of lemmas.

ghost use Rattle.std.specs.Prelude.{◌≡◌, List, [], drop, IfOk};
ghost use Rattle.terms.specs.Formula.{Formula};
ghost use Rattle.term_meaning.specs.Meaning.{Language as Meant};
ghost use Rattle.condition_formulas.specs.Standing.{StandsAs, StandAll};
ghost use Rattle.certificate_upgrade.specs.Conclusions.{Conclusion as Concluded};
ghost use Rattle.certificate_upgrade.specs.Held.{StandsFor, AllStandFor};
ghost use Rattle.certificate_upgrade.specs.Lemmas as spec;
ghost use Rattle.upgrade_lemmas.specs.Chosen.{referents};
ghost use Rattle.upgrade_lemmas.specs.Making.{HasNumber, HaveNumbers, IsLemma};

use crate::steps::step_by;
use cert_format::certificate::Refutation;
use certificate_upgrade::conclusion::Conclusion;
use graph_numbering::numbering::number;
use graph_numbering::places::Places;
use std::alloc::{AllocError, Global};
use term_graph::graph::Graph;
use terms::term::Term;

/// The number of the formula that a node of the graph stands for; its terms are put behind those there.
fn number_node(
    graph: &Graph,
    node: u32,
    terms: &mut Graph,
    places: &mut Places,
) -> Result<u32, AllocError>
    ensures { (f : Formula) → StandsAs graph.now node f → IfOk result (λ id. HasNumber f terms.old terms.new id) }
{
    terms.known();
    let id = number(graph, node, terms, places)?;
    Ok(id)
}

/// The numbers of several, from left to right.
fn number_nodes(
    alloc: Global,
    graph: &Graph,
    nodes: &[u32],
    terms: &mut Graph,
    places: &mut Places,
) -> Result<Vec<u32>, AllocError>
    ensures { (fs : List Formula) → StandAll graph.now nodes.now fs →
        IfOk result (λ ids. HaveNumbers fs terms.old terms.new ids.items) }
{
    let mut ids = Vec::new(alloc);
    for node in nodes {
        let id = number_node(graph, *node, terms, places)?;
        ids.push(id)?;
    }
    Ok(ids)
}

/// The terms from the one with this number on.
fn terms_from(alloc: Global, terms: &Graph, first: usize) -> Result<Vec<Term>, AllocError>
    ensures { IfOk result (λ rest. rest.items ≡ drop first terms.now) }
{
    let mut rest = Vec::new(alloc);
    for id in first..terms.len() {
        let term = terms.node(id as u32).copy()?;
        rest.push(term)?;
    }
    Ok(rest)
}

/// The lemma of a conclusion, over the terms of those before it.
fn lemma_of(
    alloc: Global,
    graph: &Graph,
    conclusion: &Conclusion,
    terms: &mut Graph,
    places: &mut Places,
) -> Result<Refutation, AllocError>
    ensures { (l : Meant) (c : Concluded) → StandsFor l graph.now conclusion.now c →
        IfOk result (λ lemma. IsLemma l c terms.old terms.new lemma) }
{
    let before = terms.len();
    let args = number_nodes(alloc, graph, conclusion.args.as_slice(), terms, places)?;
    let tree = number_node(graph, conclusion.tree, terms, places)?;
    let own = terms_from(alloc, terms, before)?;
    let step = step_by(alloc, conclusion, &args, tree)?;
    let mut steps = Vec::new(alloc);
    steps.push(step)?;
    Ok(Refutation::new(own, steps))
}

/// The lemmas of conclusions whose trees are nodes of the graph, one after the other.
pub fn lemmas_of(
    alloc: Global,
    graph: &Graph,
    chosen: &[&Conclusion],
) -> Result<Vec<Refutation>, AllocError>
    ensures { (l : Meant) (cs : List Concluded) → AllStandFor l graph.now (referents chosen.now) cs →
        IfOk result (λ lemmas. lemmas.items ≡ spec.lemmas_over l [] cs) }
{
    let mut terms = Graph::new(alloc);
    let mut places = Places::new(alloc);
    let mut lemmas = Vec::new(alloc);
    for conclusion in chosen {
        let lemma = lemma_of(alloc, graph, conclusion, &mut terms, &mut places)?;
        lemmas.push(lemma)?;
    }
    Ok(lemmas)
}
