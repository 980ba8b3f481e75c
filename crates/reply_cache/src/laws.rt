//! Laws of replies and their pages.

ghost use Rattle.reply_cache.specs.Laws.{PagesDetermineReplies, RepliesStay};

/// Replies with equal pages are equal.
pub fn pages_determine()
    ensures { PagesDetermineReplies }
{}

/// A reply that is added to replies leaves replies.
pub fn replies_stay_replies()
    ensures { RepliesStay }
{}
