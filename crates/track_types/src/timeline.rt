ghost use Rattle.std.specs.Prelude.{◌≡◌, ◌<◌, ◌≤◌, ◌≤ℤ◌, pos, neg_ℤ, IfSome};
ghost use Rattle.track_types.specs.Limits.{limit_of};
ghost use Rattle.track_types.specs.Timeline.{
  elapsed_from,
  last_from,
  period_from,
  period_if,
  period_last,
  period_size,
  period_start,
  period_total,
  terminals_from,
};
ghost use Rattle.track_types.specs.declared.limit.LimitKind.TheVariants.{Span};
ghost use Rattle.track_types.specs.declared.limit.TheConstants.{MAX_PERIOD, MAX_PLACE};

/// The instants of a chart or of an index, and the periods that they are cut into. Periods are counted
/// from 0.
///
/// The ranges of its numbers belong to its type. The last instant, too, is at most `MAX_PLACE` away
/// from 0.
#[derive(Clone, Copy, Debug, PartialEq, Eq)]
pub struct Timeline {
    /// The first instant, at most `MAX_PLACE` away from 0.
    pub first: i64,
    /// Instants from the first to the last, both counted: 1 to `MAX_SPAN`.
    pub span: u32,
    /// Instants of a period: 1 to `MAX_PERIOD`. The last period ends with the span.
    pub period: u32,
    ghost long: { 1 ≤ span },
    ghost short: { span ≤ limit_of Span },
    ghost some: { 1 ≤ period },
    ghost limit: { period ≤ MAX_PERIOD },
    ghost begins: { neg_ℤ (pos MAX_PLACE) ≤ℤ first },
    ghost ends: { last_from first span ≤ℤ pos MAX_PLACE },
}

impl Timeline {
    /// The last instant.
    pub fn last(self) -> i64
        ensures { result ≡ last_from self.first self.span }
    {
        self.first + i64::from(self.span - 1)
    }

    /// How many periods there are.
    pub fn periods(self) -> u32
        ensures { result ≡ period_total self.span self.period }
    {
        self.span.div_ceil(self.period)
    }

    /// The period of an instant. `None` if and only if the instant is before the first or after the last.
    pub fn period_of(self, instant: i64) -> Option<u32>
        ensures value { result ≡ period_if self.first self.span self.period instant }
        ensures within { IfSome result (λ number. number < period_total self.span self.period) }
    {
        if instant < self.first || instant > self.last() {
            return None;
        }
        Some(self.period_at(instant))
    }

    /// The period of an instant that is known to be one of these.
    pub fn period_at(self, instant: i64) -> u32
        requires low { self.first ≤ℤ instant }
        requires high { instant ≤ℤ last_from self.first self.span }
        ensures value { result ≡ period_from self.first self.period instant }
        ensures within { result < period_total self.span self.period }
    {
        self.elapsed(instant) / self.period
    }

    /// The first instant of a period.
    pub fn first_of(self, number: u32) -> i64
        requires { number < period_total self.span self.period }
        ensures { result ≡ period_start self.first self.period number }
    {
        self.first + i64::from(number * self.period)
    }

    /// The last instant of a period.
    pub fn end_of(self, number: u32) -> i64
        requires { number < period_total self.span self.period }
        ensures { result ≡ period_last self.first self.span self.period number }
    {
        self.first_of(number) + i64::from(self.instants_in(number) - 1)
    }

    /// How many instants a period has: at least one.
    pub fn instants_in(self, number: u32) -> u32
        requires { number < period_total self.span self.period }
        ensures value { result ≡ period_size self.span self.period number }
        ensures some { 1 ≤ result }
    {
        self.period.min(self.span - number * self.period)
    }

    /// How many instants come before one of these.
    pub fn elapsed(self, instant: i64) -> u32
        requires low { self.first ≤ℤ instant }
        requires high { instant ≤ℤ last_from self.first self.span }
        ensures value { result ≡ elapsed_from self.first instant }
        ensures within { result < self.span }
    {
        instant.abs_diff(self.first) as u32
    }

    /// How many terminals the log of a block has whose anchor is at an instant: one for each later
    /// instant of its period.
    pub fn log_length(self, anchor: i64) -> u32
        requires low { self.first ≤ℤ anchor }
        requires high { anchor ≤ℤ last_from self.first self.span }
        ensures value { result ≡ terminals_from self.first self.span self.period anchor }
        ensures within { result < self.span }
    {
        let elapsed = self.elapsed(anchor);
        // How many instants come before those of the next period.
        let end = (elapsed / self.period + 1) * self.period;
        end.min(self.span) - (elapsed + 1)
    }
}
