//! To which replica a part belongs.

ghost use Rattle.std.specs.Prelude.{◌≡◌, ◌↔◌, IsTrue};
ghost use Rattle.replica.specs.MemberView.{member_data};
ghost use Rattle.replica.specs.State.{first_other, member_code, member_of};

use authenticator::Ring;
use terms::ReplicaId;

/// A replica: its number, the numbers of its system, and a code that its keys give. The code tells two systems of the
/// same numbers apart, and no step of two parts has to compare all keys.
#[derive(Clone, Copy, Drop)]
pub(crate) struct Member {
    me: ReplicaId,
    faults: u8,
    clients: u16,
    code: [u8; 32],
}

impl Member {
    /// The replica `me` that has the keys of this ring.
    pub(crate) fn new(me: ReplicaId, faults: u8, clients: u16, ring: &mut Ring) -> Member
        requires faults { ring.old.faults ≡ faults }
        requires clients { ring.old.clients ≡ clients }
        ensures member { member_data result ≡ member_of ring.old me.0 }
        ensures same { ring.new ≡ ring.old }
    {
        Member {
            me,
            faults,
            clients,
            code: code_by(ring, me),
        }
    }

    /// Whether both are the same replica of one system.
    pub(crate) fn is_same(&self, other: &Member) -> bool
        ensures { IsTrue result ↔ (member_data self.now ≡ member_data other.now) }
    {
        self.me.0 == other.me.0
            && self.faults == other.faults
            && self.clients == other.clients
            && self.code == other.code
    }
}

// The code that a replica makes of no text for the first other one. No frame is without a text, so it proves nothing.
#[tactic(auto, unfolding(crate::specs::State::member_code))]
fn code_by(ring: &mut Ring, me: ReplicaId) -> [u8; 32]
    ensures code { result ≡ member_code ring.old.keys me.0 }
    ensures same { ring.new ≡ ring.old }
{
    ring.mac(u16::from(me.0), first_other(me), b"")
}

fn first_other(me: ReplicaId) -> u16
    ensures { result ≡ first_other me.0 }
{
    if me.0 == 0 { 1 } else { 0 }
}
