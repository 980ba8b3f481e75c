//! Tests of the points of a trace (`points`): writes and reads in their order, a call that was read and ran, calls that
//! an earlier life left open, numbers far apart, replies that end no read, and memory that runs out.

mod frames;
mod levels;
mod reads;
mod traces;
mod writes;
