//! What holds of the report of every run. Each function does nothing: its contract is the law.

ghost use Rattle.report_laws.specs.Reports.{ServeAddsUp, ReplayAddsUp, ServeDropsNone, ReplayDropsNone};
ghost use Rattle.report_laws.specs.Answers.{ServeAnswersAddUp, ReplayAnswersAddUp};

/// The number of spans received is the number handed over and those under the seven reasons, where a report has the
/// counts of a run's threads, or those of a script that was played and closed.
pub fn reports_add_up()
    ensures serve { ServeAddsUp }
    ensures replay { ReplayAddsUp }
{}

/// So each report adds up that `serve_on` of `collector_serve` answers, and each that `replay_run` of `script_session`
/// answers: at a good end, and after a failed write.
pub fn answered_reports_add_up()
    ensures serve { ServeAnswersAddUp }
    ensures replay { ReplayAnswersAddUp }
{}

/// Where the policies sample all spans whatever a limiter answers, as `always_sample` does, and a trace may have any
/// size, the numbers of such reports under 5 and 6 are 0.
pub fn always_sample_reports_none()
    ensures serve { ServeDropsNone }
    ensures replay { ReplayDropsNone }
{}
