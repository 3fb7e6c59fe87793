ghost use Rattle.case_rules.specs.declared.case.Content.{Content};
ghost use Rattle.case_rules.specs.Desk.{Judgement};

use std::marker::Brand;

/// What contents come to, by the one who judges. A memo is of it. It is for contracts alone.
pub trait Finding {
    ghost finds: { Content → Judgement → Type 0 };
}

impl Finding for Brand {
    ghost finds = { λ content judgement. ⊥ };
}
