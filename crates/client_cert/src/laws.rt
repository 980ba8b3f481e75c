//! The law on lives: what follows from the contracts of a client that is started again.

ghost use Rattle.client_cert.specs.Fits.{LifeFollowsLives};

/// A client that began above `start` leaves a life of a correct client. Behind earlier lives, none of whose timestamps
/// is above `start`, its history is that client's over its lives, whether or not they left a call open.
pub fn lives_follow_each_other()
    ensures follows { LifeFollowsLives }
{}
