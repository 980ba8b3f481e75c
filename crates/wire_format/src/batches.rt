//! The text of a batch, made of request frames.

ghost use Rattle.std.specs.Prelude.{◌≡◌, ◌≤◌, length, map, IfOk};
ghost use Rattle.wire_format.specs.Lists.{Each};
ghost use Rattle.wire_format.specs.Spelling.{IsCarried, is_ordered_request, pieces_spelling};
ghost use Rattle.wire_format.specs.Words.{requests_of};
ghost use Rattle.wire_format.specs.Views.{texts_of, batch_text};

use crate::messages::Batch;
use crate::put_lists::put_frames;
use crate::sizes::frames_len;
use std::alloc::Global;
use terms::NoMemory;

impl Batch {
    /// The batch of these request frames, in order.
    #[tactic(auto, using(crate::proofs::Counting::are_short))]
    pub fn of(alloc: Global, frames: &[Vec<u8>]) -> Result<Batch, NoMemory>
        requires few { length frames.now ≤ 16 }
        requires each { Each (IsCarried is_ordered_request) (texts_of frames.now) }
        ensures text { IfOk result (λ b. batch_text b ≡ pieces_spelling (texts_of frames.now)) }
        ensures requests { IfOk result (λ b. requests_of (batch_text b) ≡ texts_of frames.now) }
    {
        let mut text = Vec::with_capacity(alloc, frames_len(frames))?;
        put_frames(frames, &mut text)?;
        Ok(Batch { text })
    }
}
