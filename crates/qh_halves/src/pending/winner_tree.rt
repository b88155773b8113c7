ghost use Rattle.std.specs.Prelude.{◌≡◌, ℕ, ◌<◌, ◌≤◌, ◌^◌, [], length, slice_set, None, IfOk, OnOk};
ghost use Rattle.qh_halves.specs.Winners.{leaf, winner, IsWinner};

use super::PendingStream;
use qh_base::Memory;
use std::alloc::Global;
use std::marker::Model;

/// Streams that wait, each at a place of its own, and which of them is served first: a tournament. The places are the leaves of a
/// tree, and each node above them has the one of its two children that is served first. So the root has the first of all, and
/// with n places it costs O(log n) to set one.
#[derive(Drop)]
pub struct WinnerTree {
    // the root at 1, the children of the node at i at 2 i and 2 i + 1, and the leaves from half the length on
    nodes: Vec<Option<PendingStream>>,
}

impl Model for WinnerTree {
    ghost use Rattle.std.specs.Prelude.{List, Option};
    ghost use Rattle.qh_halves.specs.declared.pending.PendingStream.{PendingStream};
    ghost use Rattle.qh_halves.specs.Winners.{leaves_of, IsTree};

    ghost Value = { List (Option PendingStream) };

    ghost view = { λ t. leaves_of t.nodes.items };

    ghost invariant = { λ t. IsTree t.nodes.items };
}

impl WinnerTree {
    /// A tree without places.
    pub fn new(alloc: Global) -> WinnerTree
        ensures { result ≡ [] }
    {
        WinnerTree {
            nodes: Vec::new(alloc),
        }
    }

    // A tree of this many places, at which no stream waits.
    fn with_places(alloc: Global, count: usize) -> Result<WinnerTree, Memory>
        ensures places { IfOk result (λ t. length t ≡ count) }
        ensures fits { OnOk result (count < 2 ^ 63) }
        ensures none { IfOk result (λ t. (place : ℕ) → leaf t place ≡ None) }
    {
        let Some(len) = count.checked_mul(2) else {
            return Err(Memory);
        };
        let mut nodes = Vec::new(alloc);
        nodes.resize(len, None)?;
        Ok(WinnerTree { nodes })
    }

    /// How many places there are.
    pub fn places(&self) -> usize
        ensures len { result ≡ length self.now }
        ensures small { result < 2 ^ 62 }
    {
        self.nodes.len() / 2
    }

    /// The stream that waits at a place, if any.
    pub fn get(&self, place: usize) -> Option<PendingStream>
        requires { place < length self.now }
        ensures { result ≡ leaf self.now place }
    {
        self.nodes[self.nodes.len() / 2 + place]
    }

    /// The stream that is served first, None if none waits.
    pub fn first(&self) -> Option<PendingStream>
        ensures { IsWinner self.now result }
    {
        match self.nodes.get(1) {
            Some(root) => *root,
            None => None,
        }
    }

    /// Sets which stream waits at a place, if any.
    pub fn set(&mut self, place: usize, stream: Option<PendingStream>)
        requires { place < length self.old }
        ensures { self.new ≡ slice_set self.old place stream }
    {
        let mut node = self.nodes.len() / 2 + place;
        self.nodes[node] = stream;
        while node > 1 {
            node /= 2;
            let first = winner(self.nodes[2 * node], self.nodes[2 * node + 1]);
            if self.nodes[node] == first {
                return;
            }
            self.nodes[node] = first;
        }
    }

    /// Takes room for a place if there is none. For want of memory nothing changes.
    pub fn reserve(&mut self, place: usize) -> Result<(), Memory>
        ensures room { OnOk result (place < length self.new) }
        ensures more { length self.old ≤ length self.new }
        ensures same { (k : ℕ) → leaf self.new k ≡ leaf self.old k }
    {
        let count = self.places();
        if count <= place {
            *self = self.grown((2 * count).max(place.saturating_add(1)))?;
        }
        Ok(())
    }

    // A tree with this many places, where the streams wait at the same ones.
    fn grown(&self, count: usize) -> Result<WinnerTree, Memory>
        requires { length self.now ≤ count }
        ensures places { IfOk result (λ t. length t ≡ count) }
        ensures fits { OnOk result (count < 2 ^ 63) }
        ensures same { IfOk result (λ t. (place : ℕ) → leaf t place ≡ leaf self.now place) }
    {
        let alloc = *self.nodes.allocator();
        let mut tree = WinnerTree::with_places(alloc, count)?;
        for place in 0..self.places() {
            tree.set(place, self.get(place));
        }
        Ok(tree)
    }
}

// The one of two that is served first.
fn winner(a: Option<PendingStream>, b: Option<PendingStream>) -> Option<PendingStream>
    ensures { result ≡ winner a b }
{
    match (a, b) {
        (Some(p), Some(q)) => if q.goes_before(&p) { b } else { a },
        (Some(_), None) => a,
        (None, _) => b,
    }
}
