//! Laws of the texts of `period` and `rate`: there is one, but for the line of the cycle.
ghost use Rattle.ds_total_laws.specs.Periods.{OnePeriodText, PeriodsHaveOneText};
ghost use Rattle.ds_total_laws.specs.Periods.{RatesHaveOneText};

/// Two texts of the period of a graph with the same delays differ in the line of the cycle alone.
pub fn one_period_text()
    ensures { OnePeriodText }
{}

/// So do two texts of `period`, where its files tell what they hold.
pub fn periods_have_one_text()
    ensures { PeriodsHaveOneText }
{}

/// So do two texts of `rate`, where its files tell what they hold.
pub fn rates_have_one_text()
    ensures { RatesHaveOneText }
{}
