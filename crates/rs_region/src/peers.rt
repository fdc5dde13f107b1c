//! Lists of peers, which rise.

ghost use Rattle.std.specs.Prelude.{◌≡◌, IfOk};
ghost use Rattle.rs_region.specs.Reshapings.{with_peer, without_peer, changed_peers};

use rs_entry::Change;
use rs_key::{NoMemory, Rows};
use std::alloc::Global;

/// Returns the list after the change.
pub fn changed_peers(peers: &Rows<u64>, change: &Change) -> Result<Rows<u64>, NoMemory>
    ensures { IfOk result (λ list. list ≡ changed_peers peers.now change.now) }
{
    match change {
        Change::Add(peer) => Ok(with_peer(peers.allocator(), peers.as_slice(), *peer)?),
        Change::Remove(peer) => Ok(without_peer(peers.allocator(), peers.as_slice(), *peer)?),
    }
}

fn with_peer(alloc: Global, peers: &[u64], peer: u64) -> Result<Rows<u64>, NoMemory>
    ensures { IfOk result (λ list. list ≡ with_peer peers.now peer) }
{
    let lesser = peers.iter().copied().filter(|p| *p < peer);
    let greater = peers.iter().copied().filter(|p| peer < *p);
    let list = lesser
        .chain(std::iter::once(peer))
        .chain(greater)
        .collect(alloc)?;
    Ok(Rows::from_vec(list))
}

fn without_peer(alloc: Global, peers: &[u64], peer: u64) -> Result<Rows<u64>, NoMemory>
    ensures { IfOk result (λ list. list ≡ without_peer peers.now peer) }
{
    let list = peers.iter().copied().filter(|p| *p != peer).collect(alloc)?;
    Ok(Rows::from_vec(list))
}
