ghost use Rattle.desk_http.specs.Laws.{HaveOneAnswer};

/// Two answers to the same bytes are the same: one request, or one fault. So each fault of bytes comes exactly where
/// they have it, and a request exactly where they begin with one, unless the link fails or memory runs out.
pub fn requests_have_one_answer()
    ensures { HaveOneAnswer }
{}
