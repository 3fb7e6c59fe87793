ghost use Rattle.std.specs.Prelude.{filter};
ghost use Rattle.rule_ground.specs.Hits.{Among};
ghost use Rattle.kept_rules.specs.Kept.{KeptBy, is_kept};
ghost use Rattle.kept_rules.specs.exact.KeptExact.{kept_exact, kept_led};
ghost use Rattle.kept_rules.specs.OfApp.{IsTheAppsKept};

use crate::kept_sink::KeptSink;
use fact_rows::Row;
use rule_ground::{Facts, Rules, Sink};

/// Those of other rules that are kept.
#[derive(Drop)]
pub struct KeptRules<'a, R> {
    pub rules: &'a R,
}

/// Of the first set of an app these are the rules that the second has as they stand.
pub fn of_the_app()
    ensures { IsTheAppsKept }
{}

impl<'a, R: Rules> Rules for KeptRules<'a, R> {
    ghost ready = { λ k. R.ready k.rules.now };

    ghost rule = { λ k. KeptBy (R.rule k.rules.now) };

    ghost gives = { λ k hits row. filter is_kept (R.gives k.rules.now hits row) };

    ghost leads = { λ k hits row. filter is_kept (R.leads k.rules.now hits row) };

    fn conclude<F: Facts, S: Sink>(
        &self,
        facts: &F,
        row: Row,
        out: &mut S,
    ) -> Result<(), S::Refusal> {
        let mut kept = KeptSink { out };
        self.rules.conclude(facts, row, &mut kept)?;
        Ok(())
    }

    fn lead<F: Facts, S: Sink>(&self, facts: &F, row: Row, out: &mut S) -> Result<(), S::Refusal> {
        let mut kept = KeptSink { out };
        self.rules.lead(facts, row, &mut kept)?;
        Ok(())
    }

    ghost exact = { λ k rows hits ready law row there. kept_exact (R.rule k.rules.now) (Among rows) row
        (R.gives k.rules.now hits row) (R.exact k.rules.now rows hits ready law row there) };

    ghost led = { λ k rows hits ready law. kept_led (R.rule k.rules.now) (Among rows) (R.leads k.rules.now hits)
        (R.led k.rules.now rows hits ready law) };
}
