ghost use Rattle.client_replies.specs.Laws.{HaveOneAnswer};

/// Two answers to the same bytes are the same: one reply, or one fault. So each fault of bytes comes exactly where they
/// have it, and a reply exactly where they begin with one, unless the link fails or memory runs out.
pub fn replies_have_one_answer()
    ensures { HaveOneAnswer }
{}
