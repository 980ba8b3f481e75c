//! Tests of view changes (`pq_sets`, `view_change`): the selections from view changes of four and of seven replicas,
//! each refusal of a view change and of a new view, and the view changes that a replica keeps.

mod frames;
mod kept_pq_sets;
mod received;
mod refusals;
mod selections;
