//! The nodes that consume a datagram.

ghost use Rattle.std.specs.Prelude.{◌≡◌, ◌∷◌, [], IfOk};

use cip_types::{Node, OutOfMemory};
use std::alloc::Global;
use std::marker::Model;

/// The number of nodes that the value stores inline.
const FEW: usize = 8;

/// Nodes in order. Contracts see them as a list. Up to eight nodes are stored inline and take no memory.
#[derive(Drop)]
pub struct Consumers {
    kept: KeptConsumers,
}

#[derive(Drop)]
pub(crate) enum KeptConsumers {
    /// The first of these, of this number.
    Few(usize, [Node; FEW]),
    Many(Vec<Node>),
}

impl Model for Consumers {
    ghost use Rattle.std.specs.Prelude.{List};
    ghost use Rattle.cip_types.specs.declared.names.Node.{Node};
    ghost use Rattle.cip_events.specs.Kept.{kept_consumers, FitConsumers};

    ghost Value = { List Node };

    ghost view = { λ n. kept_consumers n.kept };

    ghost invariant = { λ n. FitConsumers n.kept };
}

impl Consumers {
    /// One node. Takes no memory.
    #[inline(always)]
    pub fn one(node: Node) -> Self
        ensures { result ≡ node ∷ [] }
    {
        Consumers {
            kept: KeptConsumers::Few(1, [node; FEW]),
        }
    }

    /// The nodes of a vector. Takes no memory.
    pub fn from_vec(vec: Vec<Node>) -> Self
        ensures { result ≡ vec.items }
    {
        Consumers {
            kept: KeptConsumers::Many(vec),
        }
    }

    /// A copy of some nodes. Up to eight take no memory. OutOfMemory is the only fault.
    #[inline(always)]
    pub fn copy_of(alloc: Global, nodes: &[Node]) -> Result<Self, OutOfMemory>
        ensures { IfOk result (λ copy. copy ≡ nodes.now) }
    {
        if let [node] = nodes {
            return Ok(Consumers::one(*node));
        }
        if nodes.len() > FEW {
            return Ok(Consumers::from_vec(Vec::from_slice(alloc, nodes)?));
        }
        let mut few = [Node(0); FEW];
        few[..nodes.len()].copy_from_slice(nodes);
        Ok(Consumers {
            kept: KeptConsumers::Few(nodes.len(), few),
        })
    }

    /// The nodes.
    #[inline(always)]
    pub fn as_slice(&self) -> &[Node]
        ensures { result.now ≡ self.now }
    {
        match &self.kept {
            KeptConsumers::Few(count, nodes) => &nodes[..*count],
            KeptConsumers::Many(nodes) => nodes.as_slice(),
        }
    }
}

impl PartialEq for Consumers {
    ghost use Rattle.std.specs.Prelude.{nat_eq};
    ghost use Rattle.std.specs.Cmp.{partial_equiv_from_equiv, on_per, nat_eq_equiv};
    ghost use Rattle.std.specs.Cmp.Lexicographic.{pointwise, lists_per};

    ghost eq = { λ x y. pointwise (λ a b. nat_eq a.0 b.0) x y };

    ghost laws = { lists_per (on_per (λ node. node.0) (partial_equiv_from_equiv nat_eq_equiv)) };

    fn eq(&self, other: &Self) -> bool {
        self.as_slice() == other.as_slice()
    }
}
