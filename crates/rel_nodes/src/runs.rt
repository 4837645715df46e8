// Lists of nodes, put together in halves, so that a long list makes no deep tree.
ghost use Rattle.std.specs.Prelude.{◌≡◌, ◌<◌, ◌≤◌, IfOk, OnOk, drop, length, map, take};
ghost use Rattle.std.specs.Vec.Iter.{into_iter_items};
ghost use Rattle.rel_trace.specs.Twos.{two_kind};
ghost use Rattle.rel_nodes.specs.Core.{Alike, two_core};
ghost use Rattle.rel_nodes.specs.Nodes.{boxed_shape};
ghost use Rattle.rel_nodes.specs.Runs.{joined, joint_kind, run_core};

use crate::Node;
use crate::make::{on_heap, with_two};
use rel_trace::Two;
use std::alloc::{AllocError, Global};
use std::vec::IntoIter;

/// What puts two neighbours of a list together. It makes no difference which are put together first.
#[derive(Clone, Copy, PartialEq, Eq)]
pub(crate) enum Joint {
    /// One after the other.
    Then,
    /// `|`
    Bar,
    /// The second for each value of the first, which stands to its left.
    Left,
}

impl Joint {
    fn two(self) -> Two
        ensures { two_kind result ≡ joint_kind self }
    {
        match self {
            Joint::Then => Two::then(),
            Joint::Bar => Two::bar(),
            Joint::Left => Two::left(),
        }
    }
}

/// A node and those that follow it, all of one joint.
#[derive(Drop)]
pub(crate) struct Run {
    joint: Joint,
    first: Box<Node>,
    rest: Vec<Box<Node>>,
}

impl Run {
    pub(crate) fn new(alloc: Global, joint: Joint, first: Box<Node>) -> Run
        ensures first { run_core result ≡ boxed_shape first }
        ensures joint { result.joint ≡ joint }
    {
        Run {
            joint,
            first,
            rest: Vec::new(alloc),
        }
    }

    /// With one more node. Where it comes by another joint, all before it is put together first.
    pub(crate) fn with(
        self,
        alloc: Global,
        joint: Joint,
        node: Box<Node>,
    ) -> Result<Run, AllocError>
        ensures { IfOk result (λ run. Alike (run_core run) (two_core (joint_kind joint) (run_core self) (boxed_shape node))) }
    {
        let mut run = self.by(alloc, joint)?;
        run.push(node)?;
        Ok(run)
    }

    /// All nodes as one.
    pub(crate) fn whole(self, alloc: Global) -> Result<Box<Node>, AllocError>
        ensures { IfOk result (λ node. Alike (boxed_shape node) (run_core self)) }
    {
        let count = self.rest.len();
        if count == 0 {
            return Ok(self.first);
        }
        let mut nodes = self.rest.into_iter();
        let rest = halves(alloc, &mut nodes, count, self.joint)?;
        with_two(alloc, self.first, rest, self.joint.two())
    }

    /// The same nodes, to be followed by this joint.
    fn by(self, alloc: Global, joint: Joint) -> Result<Run, AllocError>
        ensures same { IfOk result (λ run. Alike (run_core run) (run_core self)) }
        ensures joint { IfOk result (λ run. run.joint ≡ joint) }
    {
        if self.joint == joint {
            return Ok(self);
        }
        let first = self.whole(alloc)?;
        Ok(Run::new(alloc, joint, first))
    }

    fn push(&mut self, node: Box<Node>) -> Result<(), AllocError>
        ensures { OnOk result (run_core self.new ≡ two_core (joint_kind self.old.joint) (run_core self.old) (boxed_shape node)) }
    {
        self.rest.push(node)?;
        Ok(())
    }
}

/// The next so many nodes as one, each half of them put together first.
fn halves(
    alloc: Global,
    nodes: &mut IntoIter<Box<Node>>,
    count: usize,
    joint: Joint,
) -> Result<Box<Node>, AllocError>
    requires some { 0 < count }
    requires enough { count ≤ length (into_iter_items nodes.old) }
    ensures node { IfOk result (λ node.
        Alike (boxed_shape node) (joined (joint_kind joint) (map boxed_shape (take count (into_iter_items nodes.old))))) }
    ensures rest { OnOk result (into_iter_items nodes.new ≡ drop count (into_iter_items nodes.old)) }
{
    if count == 1 {
        return match nodes.next() {
            Some(node) => Ok(node),
            None => on_heap(alloc, Node::Nothing),
        };
    }
    let half = count / 2;
    let first = halves(alloc, nodes, half, joint)?;
    let second = halves(alloc, nodes, count - half, joint)?;
    with_two(alloc, first, second, joint.two())
}
