//! Terms in their classes, and the forest of why they are there.

use std::alloc::{AllocError, Global};
use term_graph::graph::Graph;

/// Why two terms are equal.
#[derive(Clone, Copy)]
pub enum Cause {
    /// this equation between them is true
    Equation(u32),
    /// their arguments are equal, or those of two equations in the other order, where so
    Arguments(bool),
}

/// That a term is equal to another, since a time.
#[derive(Clone, Copy)]
pub struct Link {
    pub to: u32,
    pub cause: Cause,
    pub time: u64,
}

/// What is kept of a class: how many terms it has, a number among them, a term from which the others got their value,
/// and where the terms that have one of its own as an argument begin and end.
#[derive(Clone, Copy)]
pub struct Class {
    pub size: usize,
    pub number: Option<u32>,
    pub witness: Option<u32>,
    pub first_use: Option<usize>,
    pub last_use: Option<usize>,
}

/// A term: the one that stands for its class, the next of its class, and the link to another. What is kept of a class
/// stands at the term that stands for it.
#[derive(Clone, Copy)]
pub struct Member {
    pub head: u32,
    pub next: u32,
    pub link: Option<Link>,
    pub class: Class,
    pub is_entered: bool,
}

impl Member {
    /// A term alone in its class.
    fn alone(term: u32) -> Member {
        Member {
            head: term,
            next: term,
            link: None,
            class: Class {
                size: 1,
                number: None,
                witness: None,
                first_use: None,
                last_use: None,
            },
            is_entered: false,
        }
    }
}

/// The terms of a graph.
#[derive(Drop)]
pub struct Members {
    members: Vec<Member>,
}

impl Members {
    /// No terms.
    pub fn new(alloc: Global) -> Members {
        Members {
            members: Vec::new(alloc),
        }
    }

    /// How many there are.
    pub fn len(&self) -> usize {
        self.members.len()
    }

    /// Adds the graph's other nodes, each in a class of its own.
    pub fn grow(&mut self, graph: &Graph) -> Result<(), AllocError> {
        for id in self.members.len()..graph.len() {
            self.members.push(Member::alone(id as u32))?;
        }
        Ok(())
    }

    /// A term; alone where there is none.
    pub fn get(&self, term: u32) -> Member {
        match self.members.get(term as usize) {
            Some(member) => *member,
            None => Member::alone(term),
        }
    }

    /// The term that stands for a term's class.
    pub fn head(&self, term: u32) -> u32 {
        self.get(term).head
    }

    /// What is kept of a term's class.
    pub fn class(&self, term: u32) -> Class {
        self.get(self.head(term)).class
    }

    /// Puts a term in the place of what it was.
    pub fn put(&mut self, term: u32, member: Member) {
        if let Some(place) = self.members.get_mut(term as usize) {
            *place = member;
        }
    }

    /// Changes what is kept of a class.
    pub fn put_class(&mut self, head: u32, class: Class) {
        if let Some(place) = self.members.get_mut(head as usize) {
            place.class = class;
        }
    }

    /// Links a term to another, or to none.
    fn put_link(&mut self, term: u32, link: Option<Link>) {
        if let Some(place) = self.members.get_mut(term as usize) {
            place.link = link;
        }
    }

    /// Puts a term behind another in its ring.
    fn put_next(&mut self, term: u32, next: u32) {
        if let Some(place) = self.members.get_mut(term as usize) {
            place.next = next;
        }
    }

    /// Lets a term stand for the class of another.
    pub fn rename(&mut self, term: u32, head: u32) {
        let mut next = term;
        for _ in 0..self.members.len() {
            if let Some(place) = self.members.get_mut(next as usize) {
                place.head = head;
                next = place.next;
            }
            if next == term {
                return;
            }
        }
    }

    /// Joins the rings of two classes, or parts them again.
    pub fn splice(&mut self, left: u32, right: u32) {
        let first = self.get(left).next;
        let second = self.get(right).next;
        self.put_next(left, second);
        self.put_next(right, first);
    }

    /// Makes a term the root of its tree, and links it to another.
    pub fn plant(&mut self, term: u32, link: Link) {
        let mut child = term;
        let mut above = Some(link);
        for _ in 0..=self.members.len() {
            let member = self.get(child);
            self.put_link(child, above);
            let Some(link) = member.link else {
                return;
            };
            above = Some(Link {
                to: child,
                cause: link.cause,
                time: link.time,
            });
            child = link.to;
        }
    }

    /// Takes away the link between two terms.
    pub fn cut(&mut self, term: u32, other: u32) {
        let child = self.child_of(term, other);
        self.put_link(child, None);
    }

    /// The one of two neighbours that has the link to the other.
    pub fn child_of(&self, term: u32, other: u32) -> u32 {
        let member = self.get(term);
        match member.link {
            Some(link) if link.to == other => term,
            _ => other,
        }
    }

    /// How many links lead from a term to its root.
    fn depth(&self, term: u32) -> usize {
        let mut depth = 0usize;
        let mut child = term;
        for _ in 0..self.members.len() {
            let member = self.get(child);
            let Some(link) = member.link else {
                return depth;
            };
            child = link.to;
            depth = depth.saturating_add(1);
        }
        depth
    }

    /// The term that a term is linked to; itself at the root.
    fn parent(&self, term: u32) -> u32 {
        let member = self.get(term);
        match member.link {
            Some(link) => link.to,
            None => term,
        }
    }

    /// Lists the terms on the way from one to another in its tree, both ends among them.
    pub fn way(&self, from: u32, to: u32, way: &mut Vec<u32>) -> Result<(), AllocError> {
        way.clear();
        let mut back = Vec::new(*way.allocator());
        let mut left = from;
        let mut right = to;
        let mut height = self.depth(from);
        let mut depth = self.depth(to);
        way.push(left)?;
        for _ in 0..=self.members.len() {
            if left == right {
                break;
            }
            if height >= depth {
                left = self.parent(left);
                height = height.saturating_sub(1);
                way.push(left)?;
            } else {
                back.push(right)?;
                right = self.parent(right);
                depth = depth.saturating_sub(1);
            }
        }
        append_reversed(way, &mut back)
    }
}

/// Appends the terms, the last one first.
fn append_reversed(way: &mut Vec<u32>, back: &mut Vec<u32>) -> Result<(), AllocError> {
    for _ in 0..back.len() {
        if let Some(term) = back.pop() {
            way.push(term)?;
        }
    }
    Ok(())
}
