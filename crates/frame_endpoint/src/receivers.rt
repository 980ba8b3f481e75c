//! The receivers of frames.

ghost use Rattle.std.specs.Prelude.{◌≡◌, ◌++◌, ◌∷◌, [], IfOk, OnOk};
ghost use Rattle.terms.specs.Parties.{party_number};
ghost use Rattle.frame_endpoint.specs.Endpoint.{numbers, others_below};

use std::alloc::Global;
use terms::{NoMemory, Party, ReplicaId};

/// One party alone.
pub(crate) fn only(alloc: Global, party: Party) -> Result<Vec<Party>, NoMemory>
    ensures { IfOk result (λ parties. numbers parties.items ≡ party_number party ∷ []) }
{
    let mut parties = Vec::with_capacity(alloc, 1)?;
    parties.push(party)?;
    Ok(parties)
}

/// The replicas below `count` except this one, in order.
#[tactic(auto, using(crate::proofs::Others::push_other, crate::proofs::Others::skip_own))]
pub(crate) fn other_replicas(
    alloc: Global,
    count: u8,
    me: ReplicaId,
) -> Result<Vec<Party>, NoMemory>
    ensures { IfOk result (λ parties. numbers parties.items ≡ others_below count me.0) }
{
    let mut parties = Vec::with_capacity(alloc, usize::from(count))?;
    for other in 0..count {
        if other != me.0 {
            add_replica(&mut parties, other)?;
        }
    }
    Ok(parties)
}

fn add_replica(parties: &mut Vec<Party>, replica: u8) -> Result<(), NoMemory>
    ensures { OnOk result (numbers parties.new.items ≡ numbers parties.old.items ++ replica ∷ []) }
{
    parties.push(Party::Replica(ReplicaId(replica)))?;
    Ok(())
}
