//! The links of all edges, looked up by edge and upper node.

ghost use Rattle.std.specs.Prelude.{◌≡◌, ◌≤◌, [], true, length, slice_index_or, All};
ghost use Rattle.std.specs.List.Sorted.{IsPartitionPoint};
ghost use Rattle.tb_twig.specs.Links.{IsRising, lists_in, leading_from, starts_below, starts_from};

use crate::Link;
use crate::run::{run_len, start_of};
use std::alloc::{AllocError, Global};
use std::marker::Model;

/// The links of each edge by its number, each list by upper node.
#[derive(Debug, Drop)]
pub struct Runs<'a> {
    links: &'a [Vec<Link>],
}

impl<'a> Model for Runs<'a> {
    ghost use Rattle.std.specs.Prelude.{List, All};
    ghost use Rattle.tb_twig.specs.declared.link.Link.{Link};
    ghost use Rattle.tb_twig.specs.Links.{IsRising, lists_in};

    ghost Value = { List (List Link) };

    ghost view = { λ runs. lists_in runs.links.now };

    ghost invariant = { λ runs. All (λ ls. IsRising ls.items) runs.links.now };
}

/// For each edge, where the links stand that were looked up last: often those of the next node stand there or
/// right behind.
#[derive(Debug, Drop)]
pub struct Cursors {
    places: Vec<Place>,
}

#[derive(Clone, Copy, Debug)]
struct Place {
    from: usize,
    to: usize,
}

impl Cursors {
    /// For so many edges.
    pub fn new(alloc: Global, edges: usize) -> Result<Cursors, AllocError> {
        let mut places = Vec::new(alloc);
        places.resize(edges, Place { from: 0, to: 0 })?;
        Ok(Cursors { places })
    }

    /// Where the links of edge e begin that lead from node n or a later one.
    fn start(&self, e: usize, links: &[Link], n: u32) -> usize
        requires { IsRising links.now }
        ensures within { result ≤ length links.now }
        ensures point { IsPartitionPoint (starts_below n) (starts_from n) links.now result }
    {
        let Some(place) = self.places.get(e) else {
            return start_of(links, n);
        };
        if starts_at(links, place.to, n) {
            return place.to;
        }
        if starts_at(links, place.from, n) {
            return place.from;
        }
        start_of(links, n)
    }

    fn set(&mut self, e: usize, place: Place) {
        if let Some(old) = self.places.get_mut(e) {
            *old = place;
        }
    }
}

impl<'a> Runs<'a> {
    /// The links of each edge.
    pub fn new(links: &'a [Vec<Link>]) -> Runs<'a>
        requires rise { All (λ ls. IsRising ls.items) links.now }
        ensures { result ≡ lists_in links.now }
    {
        Runs { links }
    }

    /// The links of edge e that lead from node n; there are none past the last edge.
    pub fn run(&self, e: usize, n: u32, cursors: &mut Cursors) -> &'a [Link]
        ensures { result.now ≡ leading_from n (slice_index_or self.now e []) }
    {
        let links = self.of(e);
        let from = cursors.start(e, links, n);
        let rest = &links[from..];
        let run = &rest[..run_len(rest, n)];
        cursors.set(
            e,
            Place {
                from,
                to: from + run.len(),
            },
        );
        run
    }

    fn of(&self, e: usize) -> &'a [Link]
        ensures are { result.now ≡ slice_index_or self.now e [] }
        ensures rise { IsRising result.now }
    {
        match self.links.get(e) {
            Some(links) => links.as_slice(),
            None => &[],
        }
    }
}

/// Whether the links that lead from node n or a later one begin at this place.
fn starts_at(links: &[Link], at: usize, n: u32) -> bool
    requires { IsRising links.now }
    ensures { result ≡ true → (at ≤ length links.now) × IsPartitionPoint (starts_below n) (starts_from n) links.now at }
{
    if at > links.len() {
        return false;
    }
    if at > 0 && links[at - 1].above >= n {
        return false;
    }
    at == links.len() || links[at].above >= n
}
