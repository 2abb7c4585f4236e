// The order of the jobs' ends is no serial order.
ghost use Rattle.cases.specs.ByEnd.{ByEndRefuted};

// Jobs in the order of their ends, run alone, do not answer the loads as the plain engine did.
pub fn by_end_is_refuted()
    ensures { ByEndRefuted }
{}
