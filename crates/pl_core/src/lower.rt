//! What the laws of the crates below say, gathered for the proofs here.

ghost use Rattle.pl_decide.specs.Laws.{ViewsDecideAlike};
ghost use Rattle.pl_core.specs.Transition.{LogLaws, OrderLaws, PageLaws};

/// What the laws say of a step: those of the log, of the written order and of pages, and that the verdict is the
/// same for views that agree on what it looks at.
pub(crate) fn step_laws()
    ensures log { LogLaws }
    ensures order { OrderLaws }
    ensures page { PageLaws }
    ensures alike { ViewsDecideAlike }
{
    pl_log::laws::writes_change_one_place();
    pl_log::laws::offers_change_one_place();
    pl_log::laws::reports_harden_contents();
    pl_log::laws::failovers_harden_the_longest_run();
    pl_log::laws::accepted_blocks_stay_found();
    pl_log::laws::failovers_make_a_zone();
    order_laws();
    pl_pages::laws::pages_fit_longer_logs();
    pl_pages::laws::pages_keep_their_size();
    pl_pages::laws::answers_reach();
    pl_decide::laws::views_decide_alike();
}

/// What the laws of the written order say of those who are allowed, or not known.
pub(crate) fn order_laws()
    ensures law { OrderLaws }
{
    pl_decide::laws::allowed_requests_meet_no_rule();
    pl_decide::laws::unknown_principals_come_first();
    pl_decide::laws::reads_reach_the_end();
}
