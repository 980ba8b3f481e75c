//! The headline as correct clients see it: what they accepted is the work of one sequential tuple space.
//!
//! The headline says of faulty clients' operations too when they may act: after a correct replica got their request.
//! So its definitions speak of frames and MACs. Who only asks what a correct client may rely on can leave that out.
//!
//! # What is proved
//!
//! To its correct clients each run of a valid configuration is one sequential space's, if nothing is forged and no two
//! of its texts have one digest (`runs_are_linear_to_clients`). The items are those of the headline, so nothing is lost
//! but the clause on faulty clients.
#![tactic(auto)]

ghost use Rattle.correct_clients.specs.Seen.{PointsAreLinearToClients, RunsAreLinearToClients};

/// A corollary of the headline (`protocol::points_are_linear`), without its clause on faulty clients.
pub fn runs_are_linear_to_clients()
    ensures points { PointsAreLinearToClients }
    ensures linear { RunsAreLinearToClients }
{}
