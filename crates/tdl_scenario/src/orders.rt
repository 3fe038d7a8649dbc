ghost use Rattle.std.specs.Prelude.{◌≡◌, ◌==◌, count_by};
ghost use Rattle.tdl_scenario.specs.Rules.{names_each};

use tdl_base::NodeId;

/// How often a node stands in an order.
fn times_named(order: &[NodeId], node: usize) -> usize
    ensures { result ≡ count_by (λ n. n.0 == node) order.now }
{
    order.iter().filter(|n| usize::from(n.0) == node).count()
}

/// Whether an order has as many names as there are nodes, and names each once.
pub(crate) fn names_each(nodes: usize, order: &[NodeId]) -> bool
    ensures { result ≡ names_each nodes order.now }
{
    if order.len() != nodes {
        return false;
    }
    for node in 0..nodes {
        if times_named(order, node) != 1 {
            return false;
        }
    }
    true
}
