//! Laws that show what the contract of [`run`](crate::run) refuses.

ghost use Rattle.schedule_world.specs.Laws.{FirstFrameMayCome};

/// After a call the delivery of the first frame is refused only if the refusal's report names a party that stopped.
pub fn first_frame_may_come()
    ensures comes { FirstFrameMayCome }
{}
