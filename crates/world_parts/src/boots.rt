//! How often each node has started.
ghost use Rattle.std.specs.Prelude.{◌≡◌, ◌+◌, ◌<◌, ◌^◌, ℕ, Some, length, replicate, IfOk};
ghost use Rattle.node_rules.specs.Words.{numbered, set_numbered};
ghost use Rattle.run_rules.specs.Lawful.{IsNode};

use std::alloc::{AllocError, Global};

/// Each node has started once. Fails where memory runs out.
pub fn once_each(alloc: Global, nodes: usize) -> Result<Vec<u32>, AllocError>
    ensures { IfOk result (λ boots. boots.items ≡ replicate nodes 1) }
{
    let mut boots = Vec::with_capacity(alloc, nodes)?;
    for _ in 0..nodes {
        boots.push(1)?;
    }
    Ok(boots)
}

/// The number of the next start of a node, by how often each has started.
pub fn next_boot(boots: &[u32], node: u8) -> u32
    requires there { IsNode (length boots.now) node }
    requires few { (k : ℕ) → numbered boots.now node ≡ Some k → k + 1 < 2 ^ 32 }
    ensures { (k : ℕ) → numbered boots.now node ≡ Some k → result ≡ k + 1 }
{
    boots[usize::from(node) - 1] + 1
}

/// A node has started so often now.
pub fn count_boot(boots: &mut [u32], node: u8, boot: u32)
    requires { IsNode (length boots.old) node }
    ensures { boots.new ≡ set_numbered boots.old node boot }
{
    boots[usize::from(node) - 1] = boot;
}
